ghost use Rattle.std.specs.Prelude.{◌≡◌, ◌==◌, ◌∷◌, ◌+◌, ◌^◌, ◌<◌, length, position};
ghost use Rattle.files.specs.Parts.{split, parts_left};
ghost use Rattle.files.specs.RuleFiles.{comma, line_end};

// The byte between fields, and the byte after a line.
const COMMA: u8 = b',';

const LINE_END: u8 = b'\n';

// A field as the part of the file that it is, with its line and its column, both from 1.
#[derive(Clone, Copy)]
pub struct Part<'a> {
    pub bytes: &'a [u8],
    pub line: usize,
    pub column: usize,
}

// A line of a file.
#[derive(Clone, Copy)]
pub(crate) struct Line<'a> {
    pub bytes: &'a [u8],
    // from 1
    pub number: usize,
    // whether the line has its line end
    pub ended: bool,
}

// The fields of a line, which are taken from the left.
#[derive(Drop)]
pub(crate) struct Fields<'a> {
    // what has not been taken; none once the last field has been
    rest: Option<&'a [u8]>,
    // the line's number
    pub line: usize,
    // the column of the next field, from 1
    column: usize,
    ghost columns_fit: { column + length (parts_left comma rest) < 2 ^ 64 },
}

// The lines of a file, which are taken from the top.
#[derive(Drop)]
pub(crate) struct Lines<'a> {
    // what has not been taken; none once what stands after the last line end has been
    rest: Option<&'a [u8]>,
    // the number of the next line, from 1
    number: usize,
    ghost numbers_fit: { number + length (parts_left line_end rest) < 2 ^ 64 },
}

// The index of the first such byte, if there is one.
fn find(bytes: &[u8], byte: u8) -> Option<usize>
    ensures { result ≡ position (λ x. x == byte) bytes.now }
{
    bytes.iter().position(|x| *x == byte)
}

// What stands before the first such byte, and what follows it if there is one.
fn cut(bytes: &[u8], byte: u8) -> (&[u8], Option<&[u8]>)
    ensures { split byte bytes.now ≡ result.0.now ∷ parts_left byte result.1 }
{
    match find(bytes, byte) {
        Some(end) => (&bytes[..end], Some(&bytes[end + 1..])),
        None => (bytes, None),
    }
}

impl<'a> Line<'a> {
    ghost use Rattle.files.specs.Cursors.{fields_left};

    // The fields of the line, none taken.
    pub(crate) fn fields(self) -> Fields<'a>
        ensures all { fields_left result ≡ split comma self.entry.bytes.now }
        ensures line { result.line ≡ self.entry.number }
        ensures first { result.column ≡ 1 }
    {
        Fields {
            rest: Some(self.bytes),
            line: self.number,
            column: 1,
        }
    }
}

impl<'a> Fields<'a> {
    ghost use Rattle.std.specs.Prelude.{[], MatchOption};
    ghost use Rattle.files.specs.Cursors.{fields_left, FieldTaken};

    // The next field, or none once the last has been taken.
    pub(crate) fn next_field(&mut self) -> Option<Part<'a>>
        ensures { MatchOption result (fields_left self.old ≡ []) (FieldTaken self.old self.new) }
    {
        let (bytes, rest) = cut(self.rest?, COMMA);
        let field = Part {
            bytes,
            line: self.line,
            column: self.column,
        };
        self.rest = rest;
        self.column += 1;
        Some(field)
    }
}

impl<'a> Lines<'a> {
    ghost use Rattle.files.specs.Cursors.{lines_left};

    // The lines of a file, none taken.
    pub(crate) fn new(bytes: &'a [u8]) -> Lines<'a>
        ensures all { lines_left result ≡ split line_end bytes.now }
        ensures first { result.number ≡ 1 }
    {
        Lines {
            rest: Some(bytes),
            number: 1,
        }
    }
}

// The next line, or none once what stands after the last line end has been taken.
impl<'a> Iterator for Lines<'a> {
    ghost use Rattle.std.specs.Iterator.{item_count};
    ghost use Rattle.files.specs.Cursors.{lines_left, NextLine};

    type Item = Line<'a>;

    ghost next_gives = { NextLine };

    ghost remaining = { item_count lines_left };

    fn next(&mut self) -> Option<Line<'a>> {
        let (bytes, rest) = cut(self.rest?, LINE_END);
        let line = Line {
            bytes,
            number: self.number,
            ended: rest.is_some(),
        };
        self.rest = rest;
        self.number += 1;
        Some(line)
    }
}
