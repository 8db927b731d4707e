ghost use Rattle.std.specs.Prelude.{◌≡◌, true, position};
ghost use Rattle.files.specs.RuleFiles.{column_name, columns, same_column, has_column, each_once, column_order, bytes_under};
ghost use Rattle.files.specs.Laws.Columns.{columns_complete};

use crate::cells::Cells;
use crate::parts::{Line, Part};
use terms::Worded;

// The columns of a rule file. A file names each once, in any order.
#[derive(Clone, Copy, PartialEq, Eq, Debug)]
pub enum RuleColumn {
    Label,
    First,
    How,
    Second,
}

// All columns, each once.
const ALL: [RuleColumn; 4] = [
    RuleColumn::Label,
    RuleColumn::First,
    RuleColumn::How,
    RuleColumn::Second,
];

// The names in the names line.
impl Worded for RuleColumn {
    ghost spelling = { column_name };

    ghost every = { columns };

    ghost complete = { columns_complete };

    fn all() -> &'static [RuleColumn] {
        &ALL
    }

    fn word(self) -> &'static str {
        match self {
            RuleColumn::Label => "label",
            RuleColumn::First => "first",
            RuleColumn::How => "how",
            RuleColumn::Second => "second",
        }
    }
}

impl RuleColumn {
    ghost use Rattle.files.specs.RuleFiles.{column_named};

    // The column that a field of the names line names, if it names one.
    fn named(field: Part<'_>) -> Option<RuleColumn>
        ensures { result ≡ column_named field.entry.bytes.now }
    {
        RuleColumn::from_word(field.bytes)
    }
}

// The columns in the order of a names line, from the left.
#[derive(Clone, Copy)]
pub(crate) struct ColumnOrder {
    pub columns: [RuleColumn; 4],
    ghost once: { each_once columns ≡ true },
}

// Whether the column is among them.
fn has(columns: &[RuleColumn; 4], column: RuleColumn) -> bool
    ensures { result ≡ has_column column columns.now }
{
    columns.contains(&column)
}

// Whether each of the four columns is there, and so once.
fn has_each(columns: &[RuleColumn; 4]) -> bool
    ensures { result ≡ each_once columns.now }
{
    ALL.iter().all(|column| has(columns, *column))
}

impl ColumnOrder {
    ghost use Rattle.std.specs.Prelude.{if◌then◌else◌, Some, None};
    ghost use Rattle.std.specs.Option.{option_map};
    ghost use Rattle.files.specs.Cells.{bytes_in};

    // The order of the columns, if each of the four is there. It is made after the test and not by `then_some`, since its type says what was tested.
    fn of(columns: [RuleColumn; 4]) -> Option<ColumnOrder>
        ensures { option_map (λ order. order.columns) result ≡ (if each_once columns then Some columns else None) }
    {
        if !has_each(&columns) {
            return None;
        }
        Some(ColumnOrder { columns })
    }

    // The order that a names line gives; none if the line is wrong.
    pub(crate) fn read(line: Line<'_>) -> Option<ColumnOrder>
        ensures { option_map (λ order. order.columns) result ≡ column_order line.entry.bytes.now }
    {
        let [one, two, three, four] = Cells::read(line).ok()?.parts;
        ColumnOrder::of([
            RuleColumn::named(one)?,
            RuleColumn::named(two)?,
            RuleColumn::named(three)?,
            RuleColumn::named(four)?,
        ])
    }

    // The column's place from the left, from 0.
    fn place(self, column: RuleColumn) -> Option<usize>
        ensures { result ≡ position (λ c. same_column column c) self.columns }
    {
        self.columns.iter().position(|c| column == *c)
    }

    // The cell under the column, which is one of the four.
    pub(crate) fn cell<'a>(self, cells: Cells<'a>, column: RuleColumn) -> Part<'a>
        ensures { result.bytes.now ≡ bytes_under column self.columns (bytes_in cells.entry) }
    {
        cells.parts[self.place(column).unwrap()]
    }
}
