// The vocabulary that every other crate shares: numbers that are never taken for one another, and the refusals.
#![tactic(auto)]

mod numbers;
mod refusal;
mod worded;

pub use numbers::{LabelNo, Place, RuleNo};
pub use refusal::Refusal;
pub use worded::Worded;
