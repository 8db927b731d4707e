ghost use Rattle.std.specs.Prelude.{◌≡◌, ℕ, List, MatchOption, ◌≢◌};
ghost use mathlib.Core.List.{Memᴰ};
ghost use Rattle.terms.specs.Words.{first_with};

// A closed kind of thing, each of which a file calls by a word.
pub trait Worded: Copy + 'static {
    // the bytes of its word
    ghost spelling: { Self → List ℕ };

    // all of the kind
    ghost every: { List Self };

    fn all() -> &'static [Self]
        ensures { result.now ≡ every };

    // The word that files use.
    fn word(self) -> &'static str
        ensures { result.now ≡ spelling self };

    ghost complete: { (x : Self) → Memᴰ x every };

    // The one whose word it is, if one has it. (No `TryFrom`: Rust has no such `impl` for every kind of a trait, and its error would say nothing.)
    final fn from_word(word: &[u8]) -> Option<Self>
        ensures value { result ≡ first_with spelling every word.now }
        ensures named { MatchOption result ((x : Self) → spelling x ≢ word.now) (λ x. spelling x ≡ word.now) }
    {
        first_with_word(Self::all(), word)
    }
}

// The first of the things whose word it is, if one has it.
fn first_with_word<W: Worded>(things: &[W], word: &[u8]) -> Option<W>
    ensures { result ≡ first_with W.spelling things.now word.now }
{
    things.iter().copied().find(|x| x.word().as_bytes() == word)
}
