ghost use Rattle.std.specs.Prelude.{Some, refl};
ghost use Rattle.moments.specs.Days.{day_before, day_ranged, day_written};
ghost use Rattle.std.proofs.Common.{rules};
ghost use Rattle.moments.specs.Laws.DayTexts.{day_apart};

use crate::digits::number;
use crate::moment::{Moment, Printed};
use crate::ordered::{Compared, Ordered};
use std::alloc::{AllocError, Global};
use std::fmt;

// A day by its number, in range from 0 to LAST. A day out of range has an order and a text too.
#[derive(Clone, Copy, PartialEq, Eq, PartialOrd, Ord, Debug)]
pub struct Day(pub u32);

const LAST: u32 = 999_999;

// as many digits as the last day has
const MOST_DIGITS: usize = 6;

impl Ordered for Day {
    ghost before = { day_before };

    ghost total = { Prim.search rules };

    fn precedes(&self, other: &Day) -> bool {
        self < other
    }
}

impl Compared for Day {
    ghost agrees = { Prim.search rules };
}

impl fmt::Display for Day {
    ghost output = { λ d. Some (day_written d) };

    fn fmt<W: fmt::Write>(&self, f: &mut fmt::Formatter<W>) -> fmt::Result {
        write!(f, "{}", self.0)
    }
}

impl Moment for Day {
    ghost ranged = { day_ranged };

    ghost written = { day_written };

    ghost apart = { day_apart };

    fn in_range(&self) -> bool {
        self.0 <= LAST
    }

    fn read(field: &[u8]) -> Option<Day> {
        match field {
            [] => None,
            [b'0', _, ..] => None,
            _ if field.len() > MOST_DIGITS => None,
            _ => Some(Day(number(field)?)),
        }
    }

    fn to_text(&self, heap: Global) -> Result<String, AllocError> {
        self.to_string(heap)
    }
}

impl Printed for Day {
    ghost shown = { λ _. refl };
}
