// Grids: measures, bits and words, from one period to the most that there can be.
use crate::asking::{any_make, key_of, no_room, period};
use pools::{GridPool, Pool, Size, check_measure};
use std::test::Fail;
use terms::Refusal;

// Labels, places and words, and what is answered.
const MEASURES: [(usize, usize, usize, Result<(), Refusal>); 16] = [
    (1, 1, 1, Ok(())),
    (1, 1, 0, Err(Refusal::BadMeasure)),
    (0, 1, 9, Err(Refusal::BadMeasure)),
    (33, 1, 99, Err(Refusal::BadMeasure)),
    (usize::MAX, 1, 9, Err(Refusal::BadMeasure)),
    (32, 1, 1, Ok(())),
    (1, 0, 9, Err(Refusal::BadMeasure)),
    (1, 257, 99999, Err(Refusal::BadMeasure)),
    (1, usize::MAX, 9, Err(Refusal::BadMeasure)),
    // 32,896 bits to a label of 256 places
    (1, 256, 1028, Ok(())),
    (1, 256, 1027, Err(Refusal::BadMeasure)),
    (32, 256, 32896, Ok(())),
    (32, 256, 32895, Err(Refusal::BadMeasure)),
    (32, 256, 99999, Ok(())),
    // 12 bits, and 33
    (2, 3, 1, Ok(())),
    (11, 2, 1, Err(Refusal::BadMeasure)),
];

// A grid that is made where its measure is bad takes nothing and leaves the words alone.
#[test]
fn measures(rt: HostRuntime) -> Result<(), Fail> {
    for (labels, places, room, expected) in &MEASURES {
        assert_eq!(rt; check_measure(*labels, *places, *room), *expected);
        if expected.is_ok() {
            continue;
        }
        let mut words = vec![in rt.alloc(); 5u32; *room]?;
        {
            let mut pool = GridPool::new(words.as_mut_slice(), *labels, *places);
            no_room(&rt, &mut pool, Err(Refusal::OffThePool));
            assert_eq!(rt; pool.size().labels, 0);
            assert_eq!(rt; pool.size().places, 0);
        }
        for word in &words {
            assert_eq!(rt; *word, 5);
        }
    }
    Ok(())
}

#[test]
fn small(rt: HostRuntime) {
    let mut words = [7u32; 3];
    {
        let mut pool = GridPool::new(&mut words, 2, 3);
        let size = Size {
            labels: 2,
            places: 3,
            capacity: 12,
        };
        assert_eq!(rt; pool.size(), size);
        any_make(&rt, &mut pool);
        // off the pool, with the numbers of bits that are 1
        assert!(rt; !pool.has(period(0, 3, 3)) && !pool.has(period(0, 3, 1)));
        assert_eq!(rt; pool.put(period(0, 3, 3)), Err(Refusal::OffThePool));
        assert_eq!(rt; pool.put(period(2, 0, 0)), Err(Refusal::OffThePool));
        pool.clear();
        assert_eq!(rt; pool.count(), 0);
        assert_eq!(rt; pool.put(period(1, 1, 2)), Ok(()));
        assert_eq!(rt; pool.put(period(0, 0, 0)), Ok(()));
        assert_eq!(rt; pool.put(period(0, 0, 1)), Ok(()));
    }
    // bits 6 + 3 + 1, 0 and 1; the later words are never touched
    assert!(rt; words[0] == 1027);
    assert!(rt; words[1] == 7 && words[2] == 7);
}

#[test]
fn one_period(rt: HostRuntime) {
    let mut words = [u32::MAX; 2];
    {
        let mut pool = GridPool::new(&mut words, 1, 1);
        assert_eq!(rt; pool.put(period(0, 0, 0)), Ok(()));
        assert_eq!(rt; pool.put(period(0, 0, 0)), Ok(()));
        assert_eq!(rt; pool.put(period(0, 0, 1)), Err(Refusal::OffThePool));
        assert_eq!(rt; pool.count(), 1);
        assert_eq!(rt; key_of(pool.first()), Some((0, 0, 0)));
        assert_eq!(rt; key_of(pool.next(period(0, 0, 0))), None);
    }
    assert!(rt; words[0] == 1 && words[1] == u32::MAX);
}

#[test]
fn largest(rt: HostRuntime) -> Result<(), Fail> {
    let mut words = vec![in rt.alloc(); 9u32; 32897]?;
    {
        let mut pool = GridPool::new(words.as_mut_slice(), 32, 256);
        assert_eq!(rt; pool.size().capacity, 1_052_672);
        assert_eq!(rt; pool.put(period(31, 255, 255)), Ok(()));
        assert_eq!(rt; pool.put(period(32, 255, 255)), Err(Refusal::OffThePool));
        assert_eq!(rt; pool.put(period(31, 255, 256)), Err(Refusal::OffThePool));
        assert_eq!(rt; key_of(pool.first()), Some((31, 255, 255)));
        assert_eq!(rt; key_of(pool.next(period(0, 0, 0))), Some((31, 255, 255)));
        assert_eq!(rt; key_of(pool.next(period(31, 255, 255))), None);
    }
    assert!(rt; words.len() == 32897);
    assert!(rt; words[0] == 0 && words[32895] == 2_147_483_648 && words[32896] == 9);
    Ok(())
}
