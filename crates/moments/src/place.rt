ghost use Rattle.std.specs.Prelude.{nat_lt};
ghost use Rattle.std.proofs.Common.{rules};

use crate::ordered::{Compared, Ordered};
use terms::Place;

impl Ordered for Place {
    ghost before = { λ p q. nat_lt p.0 q.0 };

    ghost total = { Prim.search rules };

    fn precedes(&self, other: &Place) -> bool {
        self < other
    }
}

impl Compared for Place {
    ghost agrees = { Prim.search rules };
}
