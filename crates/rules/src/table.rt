ghost use Rattle.std.specs.Prelude.{length};
ghost use Rattle.rules.specs.Keys.{InOrder, PartsTo};
ghost use Rattle.rules.specs.Reach.{leads_to};
ghost use Rattle.rules.specs.Words.{Free};

use crate::group::Group;
use crate::rule_list::RuleList;
use terms::RuleNo;

// A closed rule table. Whatever makes one has shown that its names are labels, numbered by first appearance, that its rules are within
// the limits, that no exclusive rule is in a ring, that `order` is a working order, and that `groups` are its groups.
#[derive(Drop)]
pub struct Table {
    pub(crate) list: RuleList,
    pub(crate) order: Vec<RuleNo>,
    pub(crate) groups: Vec<Group>,
    ghost free: { Free list.rules.items },
    ghost ordered: { InOrder (leads_to list.rules.items) (length list.rules.items) order.items },
    ghost parted: { PartsTo (leads_to list.rules.items) order.items (length list.rules.items) groups.items (length list.rules.items) },
}

// Why rules make no table.
#[derive(Clone, Copy, PartialEq, Eq, Debug)]
pub enum CloseFault {
    // the lowest exclusive rule that is in a ring
    Ringed(RuleNo),
    OutOfMemory,
}
