// The calls of a grid. Beyond what they promise as those of a pool, `new`, `clear` and `put` fix every word.
ghost use Rattle.std.specs.Prelude.{◌≡◌, [], length, if◌then◌else◌};
ghost use Rattle.pools.specs.Sets.{Puts};
ghost use Rattle.pools.specs.Cells.{measures, wiped_words};
ghost use Rattle.pools.specs.GridPools.{words_of, members_of, size_of, wiped, put_into, LaidSince};
ghost use Rattle.pools.specs.Laws.Grids.{grid_sound};

use crate::bits::Bits;
use crate::grid::GridPool;
use crate::measure::Measure;
use crate::period::Period;
use crate::pool::Pool;
use crate::size::Size;
use terms::{Place, Refusal};

impl<'a> GridPool<'a> {
    // An empty pool; the words that it needs are made 0. On a bad measure (see `check_measure`) its three numbers are 0, and the words stay
    // as they are.
    pub fn new(words: &'a mut [u32], labels: usize, places: usize) -> GridPool<'a>
        ensures empty { members_of result ≡ [] }
        ensures labels { result.measure.labels ≡ (if measures labels places (length words.old) then labels else 0) }
        ensures places { result.measure.places ≡ (if measures labels places (length words.old) then places else 0) }
        ensures words { words_of result ≡ (if measures labels places (length words.old) then wiped_words labels places words.old else words.old) }
        ensures laid { LaidSince words.old result }
    {
        let room = words.len();
        let measure = Measure::new(labels, places, room).unwrap_or(Measure::NOTHING);
        let mut bits = Bits::new(words);
        bits.wipe(measure.words());
        GridPool {
            measure,
            bits,
            held: 0,
        }
    }
}

impl<'a> Pool for GridPool<'a> {
    ghost members = { members_of };

    ghost sized = { size_of };

    ghost sound = { λ s. grid_sound s.measure.labels s.measure.places (words_of s) };

    fn size(&self) -> Size {
        Size {
            labels: self.measure.labels,
            places: self.measure.places,
            capacity: self.measure.periods(),
        }
    }

    fn count(&self) -> usize {
        self.held
    }

    fn clear(&mut self)
        ensures emptied { members_of self.new ≡ [] }
        ensures fixed { size_of self.new ≡ size_of self.old }
        ensures words { words_of self.new ≡ wiped self.old }
        ensures laid { LaidSince (words_of self.old) self.new }
    {
        self.bits.wipe(self.measure.words());
        self.held = 0;
    }

    fn put(&mut self, p: Period<Place>) -> Result<(), Refusal>
        ensures answer { Puts (size_of self.old) (members_of self.old) p result (members_of self.new) }
        ensures fixed { size_of self.new ≡ size_of self.old }
        ensures words { words_of self.new ≡ put_into self.old p }
        ensures laid { LaidSince (words_of self.old) self.new }
    {
        if !self.measure.fits(p) {
            return Err(Refusal::OffThePool);
        }
        if !self.marks(p) {
            self.bits.mark(self.measure.bit_of(p));
            self.held += 1;
        }
        Ok(())
    }

    fn has(&self, p: Period<Place>) -> bool {
        self.measure.fits(p) && self.marks(p)
    }

    fn first(&self) -> Option<Period<Place>> {
        self.scan_labels(0)
    }

    fn next(&self, after: Period<Place>) -> Option<Period<Place>> {
        if after.label.0 as usize >= self.measure.labels {
            return None;
        }
        let start = after.start.0 as usize;
        let later_end = start.max(after.end.0 as usize + 1);
        // (A chain of `or_else` would need a contract written at each closure.)
        if let Some(p) = self.scan_ends(after.label, after.start, later_end) {
            return Some(p);
        }
        if let Some(p) = self.scan_starts(after.label, start + 1) {
            return Some(p);
        }
        self.scan_labels(after.label.0 as usize + 1)
    }
}
