use pools::{Period, Pool};
use std::process::Abort;
use terms::{LabelNo, Place, Refusal};

// A period by its three numbers.
pub(crate) type Key = (u8, u16, u16);

pub(crate) fn period(label: u8, start: u16, end: u16) -> Period<Place> {
    Period {
        label: LabelNo(label),
        start: Place(start),
        end: Place(end),
    }
}

pub(crate) fn at(key: Key) -> Period<Place> {
    let (label, start, end) = key;
    period(label, start, end)
}

pub(crate) fn key_of(found: Option<Period<Place>>) -> Option<Key> {
    found.map(|p| (p.label.0, p.start.0, p.end.0))
}

// What is put in turn, and what that answers, in a pool with labels 0 and 1 and places 0 to 2, whatever its make.
const PUTS: [(Key, Result<(), Refusal>); 6] = [
    ((1, 0, 2), Ok(())),
    ((0, 1, 2), Ok(())),
    ((1, 0, 2), Ok(())),
    ((1, 2, 1), Err(Refusal::OffThePool)),
    ((40, 0, 0), Err(Refusal::OffThePool)),
    ((0, 0, 300), Err(Refusal::OffThePool)),
];

// Whether a period is a member then.
const MEMBERS: [(Key, bool); 6] = [
    ((1, 0, 2), true),
    ((0, 1, 2), true),
    ((1, 1, 2), false),
    ((0, 0, 2), false),
    ((1, 2, 1), false),
    ((40, 0, 300), false),
];

// Where `next` goes on then from members, from others and from periods off the pool.
const NEXT: [(Key, Option<Key>); 9] = [
    ((0, 1, 2), Some((1, 0, 2))),
    ((0, 0, 0), Some((0, 1, 2))),
    ((0, 1, 1), Some((0, 1, 2))),
    ((0, 2, 1), Some((1, 0, 2))),
    ((0, 500, 0), Some((1, 0, 2))),
    ((1, 0, 0), Some((1, 0, 2))),
    ((1, 0, 2), None),
    ((1, 0, 999), None),
    ((200, 0, 0), None),
];

pub(crate) fn any_make<P: Pool>(rt: &impl Abort, pool: &mut P) {
    assert_eq!(rt; pool.count(), 0);
    assert_eq!(rt; key_of(pool.first()), None);
    assert_eq!(rt; key_of(pool.next(period(0, 0, 0))), None);
    for (key, expected) in &PUTS {
        assert_eq!(rt; pool.put(at(*key)), *expected);
    }
    assert_eq!(rt; pool.count(), 2);
    assert_eq!(rt; key_of(pool.first()), Some((0, 1, 2)));
    for (key, expected) in &MEMBERS {
        assert_eq!(rt; pool.has(at(*key)), *expected);
    }
    for (key, expected) in &NEXT {
        assert_eq!(rt; key_of(pool.next(at(*key))), *expected);
    }
}

// A pool that takes nothing, for which each put answers what is expected.
pub(crate) fn no_room<P: Pool>(rt: &impl Abort, pool: &mut P, expected: Result<(), Refusal>) {
    assert_eq!(rt; pool.put(period(0, 0, 0)), expected);
    assert_eq!(rt; pool.put(period(0, 1, 0)), Err(Refusal::OffThePool));
    assert_eq!(rt; pool.count(), 0);
    assert_eq!(rt; pool.size().capacity, 0);
    assert!(rt; !pool.has(period(0, 0, 0)));
    assert_eq!(rt; key_of(pool.first()), None);
    assert_eq!(rt; key_of(pool.next(period(0, 0, 0))), None);
    pool.clear();
    assert_eq!(rt; pool.count(), 0);
}
