ghost use Rattle.std.specs.Prelude.{◌≡◌, ◌/◌, ◌<◌, ◌≤◌, ◌++◌, length, drop, replicate};
ghost use Rattle.pools.specs.Cells.{bit_at, with_bit};

use crate::measure::WORD_BITS;

// Bits in the words that were lent, from the least significant of the first word on.
#[derive(Drop)]
pub(crate) struct Bits<'a> {
    words: &'a mut [u32],
}

impl<'a> Bits<'a> {
    pub(crate) fn new(words: &'a mut [u32]) -> Bits<'a>
        ensures { result.words.now ≡ words.old }
    {
        Bits { words }
    }

    // Whether a bit is 1. Past the words none is.
    pub(crate) fn has(&self, k: usize) -> bool
        ensures { result ≡ bit_at self.now.words.now k }
    {
        self.words
            .get(k / WORD_BITS)
            .is_some_and(|word| (word >> (k % WORD_BITS)) & 1 == 1)
    }

    // Makes a bit 1.
    pub(crate) fn mark(&mut self, k: usize)
        requires { k / 32 < length self.old.words.now }
        ensures { self.new.words.now ≡ with_bit self.old.words.now k }
    {
        self.words[k / WORD_BITS] |= 1 << (k % WORD_BITS);
    }

    // Makes the first `n` words 0.
    pub(crate) fn wipe(&mut self, n: usize)
        requires { n ≤ length self.old.words.now }
        ensures { self.new.words.now ≡ replicate n 0 ++ drop n self.old.words.now }
    {
        wipe_front(self.words, n);
    }
}

// A function of the words alone, since behind `self` the proof does not learn what `fill` writes into a part of them.
fn wipe_front(words: &mut [u32], n: usize)
    requires { n ≤ length words.old }
    ensures { words.new ≡ replicate n 0 ++ drop n words.old }
{
    words[..n].fill(0);
}
