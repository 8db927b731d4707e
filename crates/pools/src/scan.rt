// Looking for the first member of a grid from somewhere on, one bit after the other.
ghost use Rattle.std.specs.Prelude.{◌≡◌};
ghost use Rattle.pools.specs.Cells.{has_bit};
ghost use Rattle.pools.specs.GridPools.{words_of, first_end, first_start, first_label};

use crate::grid::GridPool;
use crate::period::Period;
use terms::{LabelNo, Place};

impl<'a> GridPool<'a> {
    // Whether a period's bit is 1.
    pub(crate) fn marks(&self, p: Period<Place>) -> bool
        ensures { result ≡ has_bit self.now.measure.places (words_of self.now) p }
    {
        self.bits.has(self.measure.bit_of(p))
    }

    // The first of one label and start, from an end on.
    pub(crate) fn scan_ends(
        &self,
        label: LabelNo,
        start: Place,
        from: usize,
    ) -> Option<Period<Place>>
        ensures { result ≡ first_end self.now label.0 start.0 from }
    {
        (from..self.measure.places)
            .map(|end| Period {
                label,
                start,
                end: Place(end as u16),
            })
            .find(|p| self.marks(*p))
    }

    // The first of one label, from a start on.
    pub(crate) fn scan_starts(&self, label: LabelNo, from: usize) -> Option<Period<Place>>
        ensures { result ≡ first_start self.now label.0 from }
    {
        (from..self.measure.places).find_map(|start| {
            self.scan_ends(label, Place(start as u16), start)
        })
    }

    // The first, from a label on.
    pub(crate) fn scan_labels(&self, from: usize) -> Option<Period<Place>>
        ensures { result ≡ first_label self.now from }
    {
        (from..self.measure.labels).find_map(|label| self.scan_starts(LabelNo(label as u8), 0))
    }
}
