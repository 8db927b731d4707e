ghost use Rattle.std.specs.Prelude.{◌≡◌, Some, IfOk, string_bytes};
ghost use Rattle.std.specs.IoError.{error_kind};
ghost use Rattle.files.specs.Verdicts.{counts_text, refusal_text, VerdictOf, fault_text, fault_kind};
ghost use Rattle.files.specs.declared.telling.CheckFault.TheVariants.{OutOfMemory};

use crate::fault::Report;
use crate::rule_file::read_rules;
use std::alloc::{AllocError, Global};
use std::error::Error;
use std::io::ErrorKind;
use std::{fmt, io};

// The number of a rule file among the files that a program reads. (No enum of files: `refusal_text` takes any number, as its callers may have others.)
const RULE_FILE: u8 = 1;

// Why a rule file has no numbers to write.
#[derive(Drop, PartialEq, Eq, Debug)]
pub enum CheckFault {
    // refused, with the text to write
    Refused(String),
    // no memory for what it says
    OutOfMemory,
}

impl From<AllocError> for CheckFault {
    ghost from_gives = { λ _ fault. fault ≡ OutOfMemory };

    fn from(_error: AllocError) -> CheckFault {
        CheckFault::OutOfMemory
    }
}

// The text of a refusal as it is to be written, with its line ends.
impl fmt::Display for CheckFault {
    ghost output = { λ fault. Some (fault_text fault) };

    fn fmt<W: fmt::Write>(&self, f: &mut fmt::Formatter<W>) -> fmt::Result {
        match self {
            CheckFault::Refused(text) => f.write_str(text.as_str()),
            CheckFault::OutOfMemory => f.write_str("not enough memory"),
        }
    }
}

impl Error for CheckFault {}

// So that `?` takes a fault to an `io::Result`. A refused file's error has its text for a message.
impl From<CheckFault> for io::Error {
    ghost from_gives = { λ fault error. error_kind error ≡ fault_kind fault };

    fn from(fault: CheckFault) -> io::Error {
        match fault {
            CheckFault::Refused(text) => io::Error::new(ErrorKind::InvalidData, text.as_str()),
            CheckFault::OutOfMemory => io::Error::from(ErrorKind::OutOfMemory),
        }
    }
}

// What a program writes of a rule file: the numbers of its table, or its refusal.
pub fn check_rules(heap: Global, bytes: &[u8]) -> Result<String, CheckFault>
    ensures { VerdictOf bytes.now result }
{
    match read_rules(heap, bytes) {
        Ok(table) => {
            let text = counts_text(
                heap,
                table.rule_count(),
                table.label_count(),
                table.group_count(),
            )?;
            Ok(text)
        }
        Err(fault) => {
            let report = fault.report().ok_or(CheckFault::OutOfMemory)?;
            let text = refusal_text(heap, RULE_FILE, report)?;
            Err(CheckFault::Refused(text))
        }
    }
}

// A line of names, and a line with the three numbers.
fn counts_text(
    heap: Global,
    rules: usize,
    labels: usize,
    groups: usize,
) -> Result<String, AllocError>
    ensures { IfOk result (λ text. string_bytes text ≡ counts_text rules labels groups) }
{
    format!(in heap; "rules,labels,groups\n{rules},{labels},{groups}\n")
}

// A line of names, and a line with the refusal's number, the file's, the line and the column. It is no `Display` of the report, which does not
// know its file's number.
pub fn refusal_text(heap: Global, file: u8, report: Report) -> Result<String, AllocError>
    ensures { IfOk result (λ text. string_bytes text ≡ refusal_text file report) }
{
    let number = report.refusal.number();
    let line = report.line;
    let column = report.column;
    format!(in heap; "refused,file,line,column\n{number},{file},{line},{column}\n")
}
