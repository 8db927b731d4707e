ghost use Rattle.std.specs.Prelude.{◌≡◌};
ghost use Rattle.files.specs.Faults.{reported, flaw_told, field_told, line_told, file_told, unclosed};
ghost use Rattle.files.specs.declared.fault.LineFault.TheVariants.{Field as ofField};
ghost use Rattle.files.specs.declared.fault.FileFault.TheVariants.{Line as ofLine};

use rules::CloseFault;
use terms::Refusal;

// What is wrong with a field.
#[derive(Clone, Copy, PartialEq, Eq, Debug)]
pub enum FieldFlaw {
    // no label
    Misspelt,
    // no relation word
    Unrelated,
    // neither note nor strike
    NoAct,
    // no moment
    Undated,
    // a label that the table does not have
    Stranger,
}

// A field that is not what its column asks for. Lines and columns are counted from 1.
#[derive(Clone, Copy, PartialEq, Eq, Debug)]
pub struct FieldFault {
    pub flaw: FieldFlaw,
    pub line: usize,
    pub column: usize,
}

// A line that cannot be read.
#[derive(Clone, Copy, PartialEq, Eq, Debug)]
pub enum LineFault {
    // without its line end
    Unended { line: usize },
    // with too few fields or too many
    Ragged { line: usize },
    // with one rule or label too many
    Overfull { line: usize },
    // with a wrong field
    Field(FieldFault),
    // no memory for what it says
    OutOfMemory,
}

// A file that cannot be read.
#[derive(Clone, Copy, PartialEq, Eq, Debug)]
pub enum FileFault {
    // with too many bytes
    Overlong,
    // without a right names line
    Headless,
    // with a wrong line
    Line(LineFault),
    // with an exclusive rule in a ring
    Ringed { line: usize },
    // no memory for what it says
    OutOfMemory,
}

// What a fault says: the refusal, its line and its column, each 0 where it does not apply. (Numbers and no options: so the format writes them.)
#[derive(Clone, Copy, PartialEq, Eq, Debug)]
pub struct Report {
    pub refusal: Refusal,
    pub line: usize,
    pub column: usize,
}

impl From<FieldFault> for LineFault {
    ghost from_gives = { λ fault r. r ≡ ofField fault };

    fn from(field: FieldFault) -> LineFault {
        LineFault::Field(field)
    }
}

impl From<LineFault> for FileFault {
    ghost from_gives = { λ fault r. r ≡ ofLine fault };

    fn from(line: LineFault) -> FileFault {
        FileFault::Line(line)
    }
}

impl From<CloseFault> for FileFault {
    ghost from_gives = { λ fault r. r ≡ unclosed fault };

    fn from(fault: CloseFault) -> FileFault {
        match fault {
            // the names line is the first, so rule 1 stands in line 2
            CloseFault::Ringed(rule) => FileFault::Ringed {
                line: rule.0 as usize + 1,
            },
            CloseFault::OutOfMemory => FileFault::OutOfMemory,
        }
    }
}

impl Report {
    // The report of a whole line, or with line 0 of a whole file.
    fn of_line(refusal: Refusal, line: usize) -> Report
        ensures { result ≡ reported refusal line 0 }
    {
        Report {
            refusal,
            line,
            column: 0,
        }
    }
}

impl FieldFlaw {
    // The refusal of a field with this flaw.
    pub fn refusal(self) -> Refusal
        ensures { result ≡ flaw_told self }
    {
        match self {
            FieldFlaw::Misspelt => Refusal::Misspelt,
            FieldFlaw::Unrelated => Refusal::Unrelated,
            FieldFlaw::NoAct => Refusal::NoAct,
            FieldFlaw::Undated => Refusal::Undated,
            FieldFlaw::Stranger => Refusal::Stranger,
        }
    }
}

impl FieldFault {
    pub fn report(self) -> Report
        ensures { result ≡ field_told self }
    {
        Report {
            refusal: self.flaw.refusal(),
            line: self.line,
            column: self.column,
        }
    }
}

impl LineFault {
    // None for want of memory, which is no refusal.
    pub fn report(self) -> Option<Report>
        ensures { result ≡ line_told self }
    {
        match self {
            LineFault::Unended { line } => Some(Report::of_line(Refusal::Unended, line)),
            LineFault::Ragged { line } => Some(Report::of_line(Refusal::Ragged, line)),
            LineFault::Overfull { line } => Some(Report::of_line(Refusal::Overfull, line)),
            LineFault::Field(fault) => Some(fault.report()),
            LineFault::OutOfMemory => None,
        }
    }
}

impl FileFault {
    // None for want of memory, which is no refusal.
    pub fn report(self) -> Option<Report>
        ensures { result ≡ file_told self }
    {
        match self {
            FileFault::Overlong => Some(Report::of_line(Refusal::Overfull, 0)),
            FileFault::Headless => Some(Report::of_line(Refusal::Headless, 1)),
            FileFault::Line(fault) => fault.report(),
            FileFault::Ringed { line } => Some(Report::of_line(Refusal::Ringed, line)),
            FileFault::OutOfMemory => None,
        }
    }
}
