ghost use Rattle.std.specs.Prelude.{◌≡◌, true, None, MatchResult};
ghost use Rattle.rules.specs.Written.{spelt};
ghost use Rattle.rules.specs.Drafts.{drafted, said_by};
ghost use Rattle.files.specs.Cells.{bytes_in};
ghost use Rattle.files.specs.Cursors.{lines_left};
ghost use Rattle.files.specs.RuleFiles.{fits, first_misfit, lines_outcome, file_outcome, rules};
ghost use Rattle.files.specs.Faults.{unadded};
ghost use Rattle.files.specs.RuleLaws.{AcceptsTexts, ReadsBack};
ghost use Rattle.files.specs.Answers.{MisfitAt, Misfits, Reads, GoesOn, GoesThrough, add_outcome, rest_outcome, HeadRead, HeadWrong, Refuses, Answers};

use crate::cells::Cells;
use crate::columns::{ColumnOrder, RuleColumn};
use crate::fault::{FieldFault, FileFault, LineFault};
use crate::field::Field;
use crate::parts::{Line, Lines, Part};
use rules::{AddFault, Draft, RuleWords, Table};
use std::alloc::Global;

// The most bytes that a file has.
const MOST_BYTES: usize = 32768;

// A field that is wrong under its column is refused.
fn check_cell(column: RuleColumn, cell: Part<'_>) -> Result<(), FieldFault>
    ensures { MatchResult result (λ _. fits column cell.entry.bytes.now ≡ true) (MisfitAt column cell.entry) }
{
    Field::under(column, cell).check_in_rule()
}

// The first wrong field from the left is refused. (The order is a file's and the cells are a line's: the two go side by side, in no struct of both.)
fn check_cells(order: ColumnOrder, cells: Cells<'_>) -> Result<(), FieldFault>
    ensures { MatchResult result (λ _. first_misfit 1 order.columns (bytes_in cells.entry) ≡ None) (Misfits order cells.entry) }
{
    for (column, cell) in order.columns.iter().zip(&cells.parts) {
        check_cell(*column, *cell)?;
    }
    Ok(())
}

// The rule that the fields say. They are looked at from the left first, so that the first wrong one is refused.
fn read_rule<'a>(order: ColumnOrder, cells: Cells<'a>) -> Result<RuleWords<'a>, FieldFault>
    ensures { MatchResult result (Reads order cells.entry) (Misfits order cells.entry) }
{
    check_cells(order, cells)?;
    let label = order.cell(cells, RuleColumn::Label).label()?;
    let first = order.cell(cells, RuleColumn::First).label()?;
    let how = order.cell(cells, RuleColumn::How).relation()?;
    let second = order.cell(cells, RuleColumn::Second).label()?;
    Ok(RuleWords {
        label,
        first,
        how,
        second,
    })
}

// Writes the rule into the draft. Its labels are labels, so that only a want of room or of memory is left to refuse it.
fn add_rule(draft: &mut Draft, words: RuleWords<'_>, line: usize) -> Result<(), LineFault>
    requires { spelt (said_by words) ≡ true }
    ensures { GoesOn (drafted draft.old) (add_outcome line (drafted draft.old) (said_by words.entry)) (drafted draft.new) result }
{
    draft.add(words).map_err(|why| unadded_in(why, line))?;
    Ok(())
}

// The fault of a line whose rule was not added, where its labels are labels. (It needs the line, so it is no `From`.)
fn unadded_in(why: AddFault, line: usize) -> LineFault
    ensures { result ≡ unadded why line }
{
    match why {
        AddFault::Refused(_) => LineFault::Overfull { line },
        AddFault::OutOfMemory => LineFault::OutOfMemory,
    }
}

// Reads a line of values into the draft. What stands after the last line end is nothing, or a line without its end.
fn read_line(line: Line<'_>, order: ColumnOrder, draft: &mut Draft) -> Result<(), LineFault>
    ensures { GoesOn (drafted draft.old) (rest_outcome order.columns line.entry.number (drafted draft.old) line.entry.ended line.entry.bytes.now) (drafted draft.new) result }
{
    if !line.ended {
        if line.bytes.is_empty() {
            return Ok(());
        }
        return Err(LineFault::Unended { line: line.number });
    }
    let cells = Cells::read(line)?;
    let words = read_rule(order, cells)?;
    add_rule(draft, words, cells.line)
}

// Reads the lines of values into the draft, up to the first that is wrong.
fn read_lines(lines: Lines<'_>, order: ColumnOrder, draft: &mut Draft) -> Result<(), LineFault>
    ensures { GoesThrough (lines_outcome order.columns lines.entry.number (drafted draft.old)) (lines_left lines.entry) (drafted draft.new) result }
{
    for line in lines {
        read_line(line, order, draft)?;
    }
    Ok(())
}

// The order of the columns, from the first line, which has its line end.
fn read_head(lines: &mut Lines<'_>) -> Result<ColumnOrder, FileFault>
    ensures { MatchResult result (HeadRead lines.old lines.new) (HeadWrong lines.old) }
{
    lines
        .next()
        .filter(|line| line.ended)
        .and_then(ColumnOrder::read)
        .ok_or(FileFault::Headless)
}

// The rules that a file says, or the file's first fault.
fn read_draft(heap: Global, bytes: &[u8]) -> Result<Draft, FileFault>
    ensures { MatchResult result (λ draft. file_outcome bytes.now ≡ rules (drafted draft)) (Refuses bytes.now) }
{
    if bytes.len() > MOST_BYTES {
        return Err(FileFault::Overlong);
    }
    let mut lines = Lines::new(bytes);
    let order = read_head(&mut lines)?;
    let mut draft = Draft::new(heap);
    read_lines(lines, order, &mut draft)?;
    Ok(draft)
}

// The table of the rules that a file says, or the file's first fault; last of all, that an exclusive rule is in a ring.
fn read_table(heap: Global, bytes: &[u8]) -> Result<Table, FileFault>
    ensures { Answers bytes.now result }
{
    let draft = read_draft(heap, bytes)?;
    let table = draft.close()?;
    Ok(table)
}

// The table of the rules that a file says, or why there is none. `says` gives the answer byte for byte, `accepts` and `reads_back` say what
// it means: a file is accepted exactly when it is the text of such rules, and the text of a table is read back as that table.
pub fn read_rules(heap: Global, bytes: &[u8]) -> Result<Table, FileFault>
    ensures says { Answers bytes.now result }
    ensures accepts { AcceptsTexts bytes.now result }
    ensures reads_back { ReadsBack bytes.now result }
{
    read_table(heap, bytes)
}
