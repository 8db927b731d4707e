ghost use Rattle.std.specs.Prelude.{◌≡◌, ◌∷◌, [], map, replicate};

use crate::fault::LineFault;
use crate::parts::{Fields, Line, Part};

// The four fields of a line, from the left.
#[derive(Clone, Copy)]
pub(crate) struct Cells<'a> {
    // the line's number
    pub line: usize,
    pub parts: [Part<'a>; 4],
    ghost in_line: { map (λ p. p.line) parts ≡ replicate 4 line },
    ghost in_columns: { map (λ p. p.column) parts ≡ 1 ∷ 2 ∷ 3 ∷ 4 ∷ [] },
}

impl<'a> Fields<'a> {
    ghost use Rattle.std.specs.Prelude.{IfOk, OnErr};
    ghost use Rattle.std.specs.Result.{IfErr};
    ghost use Rattle.files.specs.Cursors.{fields_left, FieldTaken};

    // The next field, which has to be there.
    fn due_field(&mut self) -> Result<Part<'a>, LineFault>
        ensures taken { IfOk result (FieldTaken self.old self.new) }
        ensures over { OnErr result (fields_left self.old ≡ []) }
        ensures fault { IfErr result (λ fault. fault ≡ LineFault.Ragged self.old.line) }
    {
        let line = self.line;
        let Some(field) = self.next_field() else {
            return Err(LineFault::Ragged { line });
        };
        Ok(field)
    }
}

impl<'a> Cells<'a> {
    ghost use Rattle.std.specs.Prelude.{MatchResult};
    ghost use Rattle.files.specs.Cells.{FourTaken, NotFour};

    // The fields of a line that has just four.
    pub(crate) fn read(line: Line<'a>) -> Result<Cells<'a>, LineFault>
        ensures { MatchResult result (FourTaken line.entry) (NotFour line.entry) }
    {
        let mut fields = line.fields();
        let parts = [
            fields.due_field()?,
            fields.due_field()?,
            fields.due_field()?,
            fields.due_field()?,
        ];
        if fields.next_field().is_some() {
            return Err(LineFault::Ragged { line: line.number });
        }
        Ok(Cells {
            line: line.number,
            parts,
        })
    }
}
