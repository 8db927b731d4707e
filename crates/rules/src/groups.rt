ghost use Rattle.std.specs.Prelude.{◌≡◌, ℕ, ◌<◌, ◌≤◌, true, false, length, IfOk};
ghost use Rattle.rules.specs.Keys.{one_group, PartsTo};
ghost use Rattle.rules.specs.Reach.{leads_to};
ghost use Rattle.rules.specs.Words.{at};

use crate::group::Group;
use crate::orders::index;
use crate::reach::Reach;
use std::alloc::{AllocError, Global};
use terms::RuleNo;

impl Reach<'_> {
    // The groups of an order of rules.
    pub(crate) fn groups(&self, heap: Global, order: &[RuleNo]) -> Result<Vec<Group>, AllocError>
        ensures { IfOk result (λ v. PartsTo (leads_to self.now.rules.now) order.now (length order.now) v.items (length order.now)) }
    {
        let mut groups = Vec::new(heap);
        let mut start = 0;
        for part in order.chunk_by(|a, b| self.one_group(index(*a), index(*b))) {
            let end = start + part.len();
            let first = index(part[0]);
            let ringed = self.leads(first, first);
            groups.push(Group { start, end, ringed })?;
            start = end;
        }
        Ok(groups)
    }
}
