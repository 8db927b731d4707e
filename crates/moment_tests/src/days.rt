// A day is in range from 0 to 999999; its text is its number in decimal, with no leading zero.
use crate::kinds::{comes_before, reads, shows};
use moments::Day;
use std::test::Fail;

// A field, and the day that is read.
const READ: [(&[u8], Option<Day>); 39] = [
    // every length up to nine
    (b"", None),
    (b"0", Some(Day(0))),
    (b"9", Some(Day(9))),
    (b"10", Some(Day(10))),
    (b"365", Some(Day(365))),
    (b"4096", Some(Day(4096))),
    (b"98765", Some(Day(98_765))),
    (b"100000", Some(Day(100_000))),
    (b"999999", Some(Day(999_999))),
    (b"1000000", None),
    (b"9999999", None),
    (b"12345678", None),
    (b"123456789", None),
    // more than a number holds
    (b"4294967296", None),
    (b"4294967297", None),
    // leading zeros
    (b"00", None),
    (b"01", None),
    (b"012345", None),
    (b"000000", None),
    (b"0000001", None),
    // signs and spaces
    (b"+1", None),
    (b"-1", None),
    (b"-0", None),
    (b" 1", None),
    (b"1 ", None),
    (b"1 2", None),
    (b"1\n", None),
    // letters, and what stands beside the digits
    (b"a", None),
    (b"1a", None),
    (b"0x1", None),
    (b"1e3", None),
    (b"1.5", None),
    (b"1_000", None),
    (b"/", None),
    (b":", None),
    (b"\x00", None),
    (b"1\x00", None),
    (b"\xff", None),
    (b"5\xb9", None),
];

#[test]
fn read(rt: HostRuntime) {
    reads(&rt, |day| day, &READ);
}

// A day, whether it is in range, and its text. A day in range is read back.
const TEXTS: [(Day, bool, &str); 8] = [
    (Day(0), true, "0"),
    (Day(1), true, "1"),
    (Day(10), true, "10"),
    (Day(90_210), true, "90210"),
    (Day(999_998), true, "999998"),
    (Day(999_999), true, "999999"),
    (Day(1_000_000), false, "1000000"),
    (Day(4_294_967_295), false, "4294967295"),
];

#[test]
fn texts(rt: HostRuntime) -> Result<(), Fail> {
    shows(&rt, |day| day, &TEXTS)
}

// Two days, and whether the first comes before the second.
const ORDER: [(Day, Day, bool); 10] = [
    (Day(0), Day(0), false),
    (Day(0), Day(1), true),
    (Day(1), Day(0), false),
    // by number, and not by text
    (Day(9), Day(10), true),
    (Day(10), Day(9), false),
    (Day(999_999), Day(999_999), false),
    // out of range
    (Day(999_999), Day(1_000_000), true),
    (Day(1_000_000), Day(999_999), false),
    (Day(1_000_000), Day(4_294_967_295), true),
    (Day(4_294_967_295), Day(4_294_967_295), false),
];

#[test]
fn order(rt: HostRuntime) {
    comes_before(&rt, |day| day, &ORDER);
}
