ghost use Rattle.std.specs.Prelude.{◌≡◌, Some, refl};
ghost use Rattle.std.specs.Int.{is_in_range};
ghost use Rattle.std.proofs.Common.{rules};
ghost use Rattle.moments.specs.SheetStamps.{stamp_before, stamp_ranged, stamp_written, Parted};
ghost use Rattle.moments.specs.Laws.Stamps.{stamp_laws, stamp_apart};

use crate::digits::number;
use crate::moment::{Moment, Printed};
use crate::ordered::{Compared, Ordered};
use std::alloc::{AllocError, Global};
use std::fmt;

// A stamp on a sheet: the season, the sheet in it and the line on the sheet. A stamp out of range has an order and a text too.
#[derive(Clone, Copy, PartialEq, Eq, PartialOrd, Ord, Debug)]
pub struct SheetStamp {
    pub season: u16,
    pub sheet: u16,
    pub line: u8,
}

// the first and the last of each part in range (a constant cannot be a range, whose making is a call)
const FIRST_SEASON: u16 = 0;

const LAST_SEASON: u16 = 99;

const FIRST_SHEET: u16 = 1;

const LAST_SHEET: u16 = 9_999;

const FIRST_LINE: u8 = 1;

const LAST_LINE: u8 = 99;

// how many digits each part has
const SEASON_DIGITS: usize = 2;

const SHEET_DIGITS: usize = 4;

const LINE_DIGITS: usize = 2;

// what stands between two parts
const SLASH: &[u8] = b"/";

// The stamp that three parts of digits between slashes write. It may be out of range, which the caller tests.
fn parts(field: &[u8]) -> Option<SheetStamp>
    ensures { Parted field.now result }
{
    let (season, rest) = field.split_at_checked(SEASON_DIGITS)?;
    let (sheet, rest) = rest.strip_prefix(SLASH)?.split_at_checked(SHEET_DIGITS)?;
    let line = rest.strip_prefix(SLASH)?;
    if line.len() != LINE_DIGITS {
        return None;
    }
    Some(SheetStamp {
        season: number(season)? as u16,
        sheet: number(sheet)? as u16,
        line: number(line)? as u8,
    })
}

impl Ordered for SheetStamp {
    ghost before = { stamp_before };

    ghost total = { stamp_laws };

    fn precedes(&self, other: &SheetStamp) -> bool {
        self < other
    }
}

impl Compared for SheetStamp {
    ghost agrees = { Prim.search rules };
}

impl fmt::Display for SheetStamp {
    ghost output = { λ s. Some (stamp_written s) };

    fn fmt<W: fmt::Write>(&self, f: &mut fmt::Formatter<W>) -> fmt::Result {
        write!(f, "{:02}/{:04}/{:02}", self.season, self.sheet, self.line)
    }
}

impl Moment for SheetStamp {
    ghost ranged = { stamp_ranged };

    ghost written = { stamp_written };

    ghost apart = { stamp_apart };

    fn in_range(&self) -> bool {
        (FIRST_SEASON..=LAST_SEASON).contains(&self.season)
            && (FIRST_SHEET..=LAST_SHEET).contains(&self.sheet)
            && (FIRST_LINE..=LAST_LINE).contains(&self.line)
    }

    fn read(field: &[u8]) -> Option<SheetStamp> {
        parts(field).filter(|stamp| stamp.in_range())
    }

    fn to_text(&self, heap: Global) -> Result<String, AllocError> {
        self.to_string(heap)
    }
}

impl Printed for SheetStamp {
    ghost shown = { λ _. refl };
}
