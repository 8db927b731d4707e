// Files of rules: their lines and fields, their faults, and what they say.
#![tactic(auto)]

mod cells;
mod columns;
mod fault;
mod field;
mod parts;
mod rule_file;
mod telling;

pub use columns::RuleColumn;
pub use fault::{FieldFault, FieldFlaw, FileFault, LineFault, Report};
pub use field::Field;
pub use parts::Part;
pub use rule_file::read_rules;
pub use telling::{CheckFault, check_rules, refusal_text};
