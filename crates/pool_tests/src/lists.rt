// List pools of no slots, of one, of two, and of more than are used.
use crate::asking::{any_make, no_room, period};
use pools::{ListPool, Pool, Size};
use std::test::Fail;
use terms::Refusal;

#[test]
fn two_slots(rt: HostRuntime) {
    let mut slots = [period(9, 9, 9); 2];
    let mut pool = ListPool::new(&mut slots);
    any_make(&rt, &mut pool);
    assert_eq!(rt; pool.put(period(1, 1, 1)), Err(Refusal::Full));
    // off the pool comes before full, and a member is accepted in a full pool
    assert_eq!(rt; pool.put(period(32, 0, 0)), Err(Refusal::OffThePool));
    assert_eq!(rt; pool.put(period(0, 1, 2)), Ok(()));
    assert_eq!(rt; pool.count(), 2);
    pool.clear();
    assert_eq!(rt; pool.count(), 0);
    assert_eq!(rt; pool.put(period(31, 255, 255)), Ok(()));
    assert_eq!(rt; pool.put(period(31, 255, 256)), Err(Refusal::OffThePool));
}

#[test]
fn few_slots(rt: HostRuntime) {
    let mut none = [period(0, 0, 0); 0];
    let mut empty = ListPool::new(&mut none);
    no_room(&rt, &mut empty, Err(Refusal::Full));
    let mut one = [period(0, 0, 0); 1];
    let mut pool = ListPool::new(&mut one);
    let size = Size {
        labels: 32,
        places: 256,
        capacity: 1,
    };
    assert_eq!(rt; pool.size(), size);
    assert!(rt; !pool.has(period(0, 0, 0)));
    assert_eq!(rt; pool.put(period(3, 4, 5)), Ok(()));
    assert_eq!(rt; pool.put(period(3, 4, 4)), Err(Refusal::Full));
    assert_eq!(rt; pool.put(period(3, 4, 5)), Ok(()));
    assert_eq!(rt; pool.count(), 1);
}

// Of more than 4,096 slots, 4,096 are used.
#[test]
fn most_slots(rt: HostRuntime) -> Result<(), Fail> {
    let mut slots = vec![in rt.alloc(); period(0, 0, 0); 4100]?;
    let mut pool = ListPool::new(slots.as_mut_slice());
    assert_eq!(rt; pool.size().capacity, 4096);
    for label in 0..32u8 {
        for end in 0..128u16 {
            assert_eq!(rt; pool.put(period(label, 0, end)), Ok(()));
        }
    }
    assert_eq!(rt; pool.count(), 4096);
    assert_eq!(rt; pool.put(period(5, 1, 1)), Err(Refusal::Full));
    assert_eq!(rt; pool.put(period(5, 0, 127)), Ok(()));
    assert_eq!(rt; pool.count(), 4096);
    Ok(())
}
