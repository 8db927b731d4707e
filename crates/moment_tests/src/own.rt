// Kinds that ask nothing of std: one counted down, in a row, and one whose text no `Display` prints.
ghost use Rattle.std.specs.Prelude.{[], ◌∷◌, true, false, nat_lt, refl};
ghost use Rattle.std.proofs.Common.{rules};

use moments::{Moment, Ordered, Row};
use std::alloc::{AllocError, Global};
use std::test::Fail;

// The higher number comes first.
#[derive(Clone, Copy)]
struct Countdown(u32);

impl Ordered for Countdown {
    ghost before = { λ a b. nat_lt b.0 a.0 };

    ghost total = { Prim.search rules };

    fn precedes(&self, other: &Countdown) -> bool {
        other.0 < self.0
    }
}

// A row kept by a struct of its own, over any kind.
#[derive(Drop)]
struct Keep<'a, T> {
    row: Row<'a, T>,
}

// The one moment of its kind.
#[derive(Clone, Copy)]
struct Once;

impl Ordered for Once {
    ghost before = { λ _ _. false };

    ghost total = { record { irreflexive = λ _. refl; connected = λ x y _ _. Prim.search rules; transitive = λ _ _ _ h _. h } };

    fn precedes(&self, _other: &Once) -> bool {
        false
    }
}

impl Moment for Once {
    ghost ranged = { λ _. true };

    ghost written = { λ _. 120 ∷ [] };

    ghost apart = { λ x y _ _ _. Prim.search rules };

    fn in_range(&self) -> bool {
        true
    }

    fn read(field: &[u8]) -> Option<Once> {
        if field == b"x".as_slice() {
            Some(Once)
        } else {
            None
        }
    }

    fn to_text(&self, heap: Global) -> Result<String, AllocError> {
        String::from_str(heap, "x")
    }
}

#[test]
fn counted_down(rt: HostRuntime) -> Result<(), Fail> {
    let mut slots = [Countdown(0); 3];
    let mut kept = Keep {
        row: Row::new(&mut slots),
    };
    for (n, new) in [(3, true), (5, true), (4, true), (5, false)] {
        assert_eq!(rt; kept.row.add(Countdown(n)), Ok(new));
    }
    for (i, n) in [5, 4, 3].iter().enumerate() {
        assert!(rt; kept.row.get(i).is_some_and(|x| x.0 == *n));
    }
    Ok(())
}

#[test]
fn own_text(rt: HostRuntime) -> Result<(), Fail> {
    let text = Once.to_text(rt.alloc())?;
    assert_eq!(rt; text.as_str(), "x");
    assert!(rt; Once::read(text.as_bytes()).is_some());
    assert!(rt; Once::read(b"y").is_none());
    Ok(())
}
