// Reads `rules.txt` in the folder it is run in, and says whether the rule file stands or which line and column is at fault.
#![tactic(auto)]

use files::{CheckFault, check_rules};
use std::io::ErrorKind;
use std::process::ExitCode;
use std::{fs, io};

const RULES: &str = "rules.txt";

// The bytes of the rule file; a missing file reads as an empty one.
fn read_file(rt: &HostRuntime) -> io::Result<Vec<u8>> {
    match fs::read(rt, RULES) {
        Err(e) if e.kind() == ErrorKind::NotFound => Ok(Vec::new(rt.alloc())),
        read => read,
    }
}

fn main(rt: HostRuntime) -> io::Result<ExitCode> {
    let bytes = match read_file(&rt) {
        Ok(bytes) => bytes,
        Err(e) => {
            eprintln!(rt; "checkrules: cannot read {RULES}: {e}")?;
            return Ok(ExitCode::FAILURE);
        }
    };
    match check_rules(rt.alloc(), &bytes) {
        Ok(text) => {
            rt.print(text.as_str())?;
            Ok(ExitCode::SUCCESS)
        }
        Err(CheckFault::Refused(text)) => {
            rt.print(text.as_str())?;
            Ok(ExitCode::FAILURE)
        }
        Err(CheckFault::OutOfMemory) => {
            eprintln!(rt; "checkrules: not enough memory")?;
            Ok(ExitCode::FAILURE)
        }
    }
}
