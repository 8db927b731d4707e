ghost use Rattle.pools.specs.Periods.{earlier};
ghost use Rattle.pools.specs.Laws.Earlier.{earlier_laws, earlier_agrees};

use moments::{Compared, Ordered};
use terms::LabelNo;

// A label from one moment to another. A value may be backwards, ending before it starts; no pool takes such a one.
// A pool has periods from place to place, where a place is the index of a moment.
#[derive(Clone, Copy, PartialEq, Eq, PartialOrd, Ord, Debug)]
pub struct Period<M> {
    pub label: LabelNo,
    pub start: M,
    pub end: M,
}

// By label number, then start, then end.
impl<M: Ordered> Ordered for Period<M> {
    ghost before = { earlier M.Ordered.before };

    ghost total = { earlier_laws M.Ordered.before M.Ordered.total };

    fn precedes(&self, other: &Period<M>) -> bool {
        if self.label != other.label {
            return self.label < other.label;
        }
        if self.start.precedes(&other.start) {
            return true;
        }
        if other.start.precedes(&self.start) {
            return false;
        }
        self.end.precedes(&other.end)
    }
}

// The derived comparisons go by the fields in their order.
impl<M: Compared> Compared for Period<M> {
    ghost agrees = { earlier_agrees M.Ordered.before M.Ord.cmp M.Ord.total M.Compared.agrees };
}
