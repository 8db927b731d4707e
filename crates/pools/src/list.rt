ghost use Rattle.std.specs.Prelude.{◌≡◌, ◌≤◌, min, true, [], length};
ghost use Rattle.moments.specs.Rows.{kept, slots_of};
ghost use Rattle.pools.specs.ListPools.{list_size, shut_out};
ghost use Rattle.pools.specs.Sets.{Ascending, all_in_bounds};

use crate::measure::Measure;
use crate::period::Period;
use crate::pool::Pool;
use crate::size::Size;
use moments::Row;
use terms::{Place, Refusal};

const MEASURE: Measure = Measure::MOST;

const MOST_PERIODS: usize = 4096;

// A pool of 32 labels and 256 places that keeps its periods as an ordered row, one to a slot of those that were lent. At most 4,096 slots
// are used, and as many as it may use are its capacity.
#[derive(Drop)]
pub struct ListPool<'a> {
    row: Row<'a, Period<Place>>,
    ghost sorted: { Ascending (kept row) },
    ghost few: { length (kept row) ≤ min 4096 (slots_of row) },
    ghost inside: { all_in_bounds 32 256 (kept row) ≡ true },
}

impl<'a> ListPool<'a> {
    // An empty pool. The slots stay as they are.
    pub fn new(slots: &'a mut [Period<Place>]) -> ListPool<'a>
        ensures empty { kept result.row ≡ [] }
        ensures slots { result.row.slots.now ≡ slots.old }
    {
        let row = Row::new(slots);
        ListPool { row }
    }

    // Whether as many slots are used as may be and the period is in none: the row may have more slots, but they stay unused.
    fn shuts_out(&self, p: Period<Place>) -> bool
        ensures { result ≡ shut_out (kept self.now.row) p }
    {
        self.count() == MOST_PERIODS && !self.has(p)
    }
}

impl<'a> Pool for ListPool<'a> {
    ghost members = { λ s. kept s.row };

    ghost sized = { λ s. list_size (slots_of s.row) };

    ghost sound = { λ s. record { ascending = s.sorted; bounded = s.few; inside = s.inside } };

    fn size(&self) -> Size {
        Size {
            labels: MEASURE.labels,
            places: MEASURE.places,
            capacity: MOST_PERIODS.min(self.row.slot_count()),
        }
    }

    fn count(&self) -> usize {
        self.row.len()
    }

    fn clear(&mut self) {
        self.row.clear();
    }

    fn put(&mut self, p: Period<Place>) -> Result<(), Refusal> {
        if !MEASURE.fits(p) {
            return Err(Refusal::OffThePool);
        }
        if self.shuts_out(p) {
            return Err(Refusal::Full);
        }
        self.row.add(p).map(|_| ())
    }

    fn has(&self, p: Period<Place>) -> bool {
        self.row.find(p).is_ok()
    }

    fn first(&self) -> Option<Period<Place>> {
        self.row.get(0)
    }

    fn next(&self, after: Period<Place>) -> Option<Period<Place>> {
        match self.row.find(after) {
            Ok(i) => self.row.get(i + 1),
            Err(i) => self.row.get(i),
        }
    }
}
