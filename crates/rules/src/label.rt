ghost use Rattle.std.specs.Prelude.{◌≡◌, true, false, MatchOption};
ghost use Rattle.rules.specs.Labels.{label_byte, all_label_bytes, is_label};

use std::str::from_utf8;

// The longest label, in bytes.
const LONGEST: usize = 16;

// Whether a label may go on with the byte.
fn is_label_byte(b: u8) -> bool
    ensures { result ≡ label_byte b }
{
    b.is_ascii_lowercase() || b.is_ascii_digit() || b == b'-'
}

// Whether the bytes are a label: 1 to 16 bytes of a–z, 0–9 and hyphen, a letter first.
pub(crate) fn is_label(bytes: &[u8]) -> bool
    ensures { result ≡ is_label bytes.now }
{
    let Some(first) = bytes.first() else {
        return false;
    };
    first.is_ascii_lowercase() && bytes.len() <= LONGEST && all_label_bytes(bytes)
}

// Whether a label may go on with each of the bytes.
fn all_label_bytes(bytes: &[u8]) -> bool
    ensures { result ≡ all_label_bytes bytes.now }
{
    bytes.iter().all(|b| is_label_byte(*b))
}

// The bytes as the text of a label, if they are one.
pub fn read_label(bytes: &[u8]) -> Option<&str>
    ensures { MatchOption result (is_label bytes.now ≡ false) (λ text. (text.now ≡ bytes.now) × (is_label bytes.now ≡ true)) }
{
    if !is_label(bytes) {
        return None;
    }
    from_utf8(bytes).ok()
}
