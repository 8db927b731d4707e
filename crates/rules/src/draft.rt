use crate::rule_list::RuleList;
use std::alloc::Global;
use terms::Refusal;

// Rules that were added one after the other.
#[derive(Drop)]
pub struct Draft {
    pub(crate) heap: Global,
    pub(crate) list: RuleList,
}

// Why a rule was not added. (Each error enum has want of memory as one more case, under its own name; so has `CloseFault`.)
#[derive(Clone, Copy, PartialEq, Eq, Debug)]
pub enum AddFault {
    Refused(Refusal),
    OutOfMemory,
}
