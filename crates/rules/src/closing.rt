ghost use Rattle.std.specs.Prelude.{◌≡◌};
ghost use Rattle.rules.specs.declared.table.CloseFault.TheVariants.{OutOfMemory};
ghost use Rattle.rules.specs.Drafts.{drafted};
ghost use Rattle.rules.specs.Tables.{Closes};

use crate::draft::Draft;
use crate::reach::Reach;
use crate::table::{CloseFault, Table};
use std::alloc::AllocError;

impl Draft {
    // The table of the rules, unless an exclusive rule is in a ring.
    pub fn close(self) -> Result<Table, CloseFault>
        ensures { Closes (drafted self) result }
    {
        let reach = Reach::of(&self.list);
        if let Some(no) = reach.ringed_exclusive() {
            return Err(CloseFault::Ringed(no));
        }
        let order = reach.working_order(self.heap)?;
        let groups = reach.groups(self.heap, &order)?;
        Ok(Table {
            list: self.list,
            order,
            groups,
        })
    }
}

impl From<AllocError> for CloseFault {
    ghost from_gives = { λ _ r. r ≡ OutOfMemory };

    fn from(_e: AllocError) -> CloseFault {
        CloseFault::OutOfMemory
    }
}
