// One load of puts on both makes and on a set of the standard library, which has to agree with them answer for answer and member for member.
use crate::asking::{Key, at, period};
use pools::{GridPool, ListPool, Pool, list_members};
use std::alloc::Global;
use std::collections::BTreeSet;
use std::process::Abort;
use std::test::Fail;
use terms::Refusal;

// By another calculation: of these, 467 are off the pool, and the other 433 are 321 different periods.
const PUTS: usize = 900;

const DIFFERENT: usize = 321;

fn next_number(v: u32) -> u32 {
    v.wrapping_mul(1_664_525).wrapping_add(1_013_904_223)
}

// Few starts and ends, so that some periods come twice and many are off the pool.
fn drawn(v: u32) -> Key {
    let label = ((v >> 16) % 34) as u8;
    let start = ((v >> 8) % 6) as u16 * 40;
    let end = ((v >> 20) % 7) as u16 * 45;
    (label, start, end)
}

fn off(key: Key) -> bool {
    let (label, start, end) = key;
    label > 31 || end > 255 || start > end
}

// What a put has to answer where the set is what was put so far.
fn expected(set: &BTreeSet<Key>, key: Key, room: usize) -> Result<(), Refusal> {
    if off(key) {
        return Err(Refusal::OffThePool);
    }
    if !set.contains(&key) && set.len() == room {
        return Err(Refusal::Full);
    }
    Ok(())
}

// Puts the whole load, and keeps in a set what was accepted.
fn put_all<P: Pool>(
    rt: &impl Abort,
    heap: Global,
    pool: &mut P,
    room: usize,
) -> Result<BTreeSet<Key>, Fail> {
    let mut set = BTreeSet::new(heap);
    let mut v = 2026u32;
    for _ in 0..PUTS {
        v = next_number(v);
        let key = drawn(v);
        let answer = expected(&set, key, room);
        assert_eq!(rt; pool.put(at(key)), answer);
        if answer.is_ok() {
            let _new = set.insert(key)?;
        }
    }
    Ok(set)
}

// The members are those of the set, one for one and in its order.
fn same_members<P: Pool>(
    rt: &impl Abort,
    heap: Global,
    pool: &P,
    set: &BTreeSet<Key>,
) -> Result<(), Fail> {
    let members = list_members(heap, pool)?;
    assert_eq!(rt; members.len(), set.len());
    assert_eq!(rt; pool.count(), set.len());
    for (p, key) in members.iter().zip(set.iter()) {
        assert_eq!(rt; (p.label.0, p.start.0, p.end.0), *key);
    }
    Ok(())
}

// Of every period that can be drawn, a pool has those of the set.
fn same_has<P: Pool>(rt: &impl Abort, pool: &P, set: &BTreeSet<Key>) {
    for label in 0..34u8 {
        for start in 0..6u16 {
            for end in 0..7u16 {
                let key = (label, start * 40, end * 45);
                assert_eq!(rt; pool.has(at(key)), set.contains(&key));
            }
        }
    }
}

fn agrees<P: Pool>(
    rt: &impl Abort,
    heap: Global,
    pool: &mut P,
    room: usize,
    count: usize,
) -> Result<(), Fail> {
    let set = put_all(rt, heap, pool, room)?;
    assert_eq!(rt; set.len(), count);
    same_members(rt, heap, pool, &set)?;
    same_has(rt, pool, &set);
    Ok(())
}

#[test]
fn grid(rt: HostRuntime) -> Result<(), Fail> {
    let heap = rt.alloc();
    let mut words = vec![in heap; 0u32; 32896]?;
    let mut pool = GridPool::new(words.as_mut_slice(), 32, 256);
    agrees(&rt, heap, &mut pool, 1_052_672, DIFFERENT)
}

// With just as many slots as are wanted, and with one fewer.
#[test]
fn list(rt: HostRuntime) -> Result<(), Fail> {
    let heap = rt.alloc();
    for room in [DIFFERENT, DIFFERENT - 1] {
        let mut slots = vec![in heap; period(0, 0, 0); room]?;
        let mut pool = ListPool::new(slots.as_mut_slice());
        agrees(&rt, heap, &mut pool, room, room)?;
    }
    Ok(())
}
