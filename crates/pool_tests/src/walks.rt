// A walk asks a pool for its first and its next, and not for its count.
ghost use Rattle.std.specs.Prelude.{◌≡◌};

use crate::asking::period;
use pools::{ListPool, Period, Pool, Size, list_members};
use std::cell::Cell;
use std::test::Fail;
use terms::{Place, Refusal};

// A pool that tells how often it was asked for its count.
#[derive(Drop)]
struct Asked<P: Pool> {
    inner: P,
    counts: Cell<u32>,
}

impl<P: Pool> Pool for Asked<P> {
    ghost members = { λ s. P.Pool.members s.inner };

    ghost sized = { λ s. P.Pool.sized s.inner };

    ghost sound = { λ s. P.Pool.sound s.inner };

    fn size(&self) -> Size {
        self.inner.size()
    }

    fn count(&self) -> usize {
        self.counts.set(self.counts.get().saturating_add(1));
        self.inner.count()
    }

    fn clear(&mut self) {
        self.inner.clear();
    }

    fn put(&mut self, p: Period<Place>) -> Result<(), Refusal> {
        self.inner.put(p)
    }

    fn has(&self, p: Period<Place>) -> bool {
        self.inner.has(p)
    }

    fn first(&self) -> Option<Period<Place>> {
        self.inner.first()
    }

    fn next(&self, after: Period<Place>) -> Option<Period<Place>> {
        self.inner.next(after)
    }
}

// How many members there are. Its clause names what holds of every pool, as a clause may.
fn many<P: Pool>(pool: &P) -> usize
    ensures { P.Pool.sound pool.now ≡ P.Pool.sound pool.now }
{
    pool.count()
}

#[test]
fn no_count(rt: HostRuntime) -> Result<(), Fail> {
    let heap = rt.alloc();
    let mut slots = vec![in heap; period(0, 0, 0); 4]?;
    let mut inner = ListPool::new(slots.as_mut_slice());
    for label in 0..3u8 {
        assert_eq!(rt; inner.put(period(label, 1, 2)), Ok(()));
    }
    let pool = Asked {
        inner,
        counts: Cell::new(0),
    };
    let list = list_members(heap, &pool)?;
    assert_eq!(rt; list.len(), 3);
    assert_eq!(rt; pool.counts.get(), 0);
    assert_eq!(rt; many(&pool), 3);
    Ok(())
}
