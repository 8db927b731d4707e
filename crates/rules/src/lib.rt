// Rule tables: rules between labels, and their closing into a table whose groups stand in a working order.
#![tactic(auto)]

mod building;
mod closing;
mod draft;
mod group;
mod groups;
mod label;
mod names;
mod orders;
mod reach;
mod relation;
mod rule;
mod rule_list;
mod rule_set;
mod table;
mod telling;

pub use draft::{AddFault, Draft};
pub use group::Group;
pub use label::read_label;
pub use relation::Relation;
pub use rule::{Rule, RuleWords};
pub use table::{CloseFault, Table};
