// Rows of no slots, of one and of many, and rows of each ordered kind.
use crate::asking::period;
use moments::{Day, Ordered, Row, SheetStamp};
use std::process::Abort;
use std::test::Fail;
use terms::{Place, Refusal};

// What is added in turn, with what that answers.
type Adds = &'static [(u16, Result<bool, Refusal>)];

// Slots, what is added, what is kept then, and a thing that is not kept with the index where it belongs.
const CASES: [(usize, Adds, &[u16], (u16, usize)); 7] = [
    (0, &[(4, Err(Refusal::Full))], &[], (4, 0)),
    (
        1,
        &[
            (4, Ok(true)),
            (4, Ok(false)),
            (3, Err(Refusal::Full)),
            (5, Err(Refusal::Full)),
            (4, Ok(false)),
        ],
        &[4],
        (5, 1),
    ),
    (
        4,
        &[(4, Ok(true)), (3, Ok(true)), (2, Ok(true)), (1, Ok(true))],
        &[1, 2, 3, 4],
        (0, 0),
    ),
    (
        4,
        &[
            (1, Ok(true)),
            (2, Ok(true)),
            (3, Ok(true)),
            (4, Ok(true)),
            (5, Err(Refusal::Full)),
        ],
        &[1, 2, 3, 4],
        (5, 4),
    ),
    (
        5,
        &[
            (9, Ok(true)),
            (0, Ok(true)),
            (5, Ok(true)),
            (5, Ok(false)),
            (7, Ok(true)),
        ],
        &[0, 5, 7, 9],
        (6, 2),
    ),
    (
        3,
        &[
            (2, Ok(true)),
            (9, Ok(true)),
            (5, Ok(true)),
            (2, Ok(false)),
            (9, Ok(false)),
            (5, Ok(false)),
            (4, Err(Refusal::Full)),
        ],
        &[2, 5, 9],
        (4, 1),
    ),
    (
        8,
        &[
            (6, Ok(true)),
            (65535, Ok(true)),
            (0, Ok(true)),
            (65535, Ok(false)),
            (1, Ok(true)),
        ],
        &[0, 1, 6, 65535],
        (7, 3),
    ),
];

#[test]
fn places(rt: HostRuntime) {
    for (room, adds, kept, (absent, index)) in &CASES {
        let mut slots = [Place(77); 8];
        assert!(rt; *room <= 8);
        let mut row = Row::new(&mut slots[0..*room]);
        for (n, expected) in *adds {
            assert_eq!(rt; row.add(Place(*n)), *expected);
        }
        assert_eq!(rt; row.len(), kept.len());
        assert_eq!(rt; row.slot_count(), *room);
        for (i, n) in kept.iter().enumerate() {
            assert_eq!(rt; row.find(Place(*n)), Ok(i));
            assert_eq!(rt; row.get(i), Some(Place(*n)));
        }
        assert_eq!(rt; row.get(kept.len()), None);
        assert_eq!(rt; row.find(Place(*absent)), Err(*index));
    }
}

// Adds four things, given in order, in another turn; each is then found at its index and adds nothing any more.
fn serves<T: Ordered>(rt: &impl Abort, slots: &mut [T], sorted: &[T; 4]) -> Result<(), Fail> {
    let mut row = Row::new(slots);
    for i in [2, 0, 3, 1] {
        assert_eq!(rt; row.add(sorted[i]), Ok(true));
    }
    for (i, x) in sorted.iter().copied().enumerate() {
        assert!(rt; row.find(x) == Ok(i));
        let Some(y) = row.get(i) else {
            return Err(Fail::new("nothing there"));
        };
        assert!(rt; !x.precedes(&y) && !y.precedes(&x));
        assert_eq!(rt; row.add(x), Ok(false));
    }
    row.clear();
    assert!(rt; row.len() == 0 && row.slot_count() == 4);
    assert!(rt; row.find(sorted[0]) == Err(0));
    assert_eq!(rt; row.add(sorted[3]), Ok(true));
    assert!(rt; row.len() == 1);
    Ok(())
}

// (The tests of moments have such a function too; the two crates share no code.)
fn stamp(season: u16, sheet: u16, line: u8) -> SheetStamp {
    SheetStamp {
        season,
        sheet,
        line,
    }
}

#[test]
fn every_kind(rt: HostRuntime) -> Result<(), Fail> {
    serves(
        &rt,
        &mut [Day(0); 4],
        &[Day(3), Day(9), Day(10), Day(1_000_000)],
    )?;
    serves(
        &rt,
        &mut [stamp(0, 0, 0); 4],
        &[
            stamp(3, 70, 9),
            stamp(98, 2, 50),
            stamp(98, 10, 1),
            stamp(98, 10, 2),
        ],
    )?;
    serves(
        &rt,
        &mut [period(0, 0, 0); 4],
        &[
            period(0, 9, 9),
            period(1, 2, 8),
            period(1, 2, 9),
            period(1, 3, 3),
        ],
    )
}
