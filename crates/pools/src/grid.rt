ghost use Rattle.std.specs.Prelude.{◌≡◌, ℕ, ◌*◌, ◌/◌, ◌<◌, ◌≤◌, false, length};
ghost use Rattle.pools.specs.Cells.{bit_at, triangular, on_grid, needed};

use crate::bits::Bits;
use crate::measure::Measure;

// A pool that has a bit for each period that there can be, in the words that were lent: 1 for a member. The bits of the last needed word
// that stand for no period are 0. Words after it are never touched.
#[derive(Drop)]
pub struct GridPool<'a> {
    pub(crate) measure: Measure,
    pub(crate) bits: Bits<'a>,
    pub(crate) held: usize,
    ghost enough: { needed measure.labels measure.places ≤ length bits.words.now },
    ghost counted: { held ≡ length (on_grid measure.labels measure.places bits.words.now) },
    ghost spare: { (k : ℕ) → measure.labels * triangular measure.places ≤ k → k / 32 < needed measure.labels measure.places → bit_at bits.words.now k ≡ false },
}
