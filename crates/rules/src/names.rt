ghost use Rattle.std.specs.Prelude.{◌≡◌, ◌<◌, length, MatchOption, string_bytes};
ghost use Rattle.std.specs.List.{position};
ghost use Rattle.std.specs.Str.{bytes_eq};
ghost use Rattle.rules.specs.Texts.{texts};
ghost use Rattle.rules.specs.Written.{index_of};

// The index of the name that is the text, if one is. The numbers of labels are these indexes.
pub(crate) fn find_name(names: &[String], text: &[u8]) -> Option<usize>
    ensures { MatchOption result (index_of (texts names.now) text.now ≡ length (texts names.now)) (λ i. (i < length (texts names.now)) × (index_of (texts names.now) text.now ≡ i)) }
{
    first_like(names, text)
}

// The index of the first string with these bytes, if one has them. (It stands apart, since the check knows what a chain gives only where the
// chain is all that is returned.)
fn first_like(strings: &[String], bytes: &[u8]) -> Option<usize>
    ensures { result ≡ position (λ s. bytes_eq (string_bytes s) bytes.now) strings.now }
{
    strings.iter().position(|s| s.as_bytes() == bytes)
}
