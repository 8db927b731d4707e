// A stamp is in range with a season from 0 to 99, a sheet from 1 to 9999 and a line from 1 to 99; its text has two, four and two digits.
use crate::kinds::{comes_before, reads, shows};
use moments::SheetStamp;
use std::test::Fail;

// A field, and the season, sheet and line that are read.
const READ: [(&[u8], Option<(u16, u16, u8)>); 59] = [
    (b"98/0214/07", Some((98, 214, 7))),
    // the borders
    (b"00/0001/01", Some((0, 1, 1))),
    (b"99/9999/99", Some((99, 9_999, 99))),
    (b"00/9999/01", Some((0, 9_999, 1))),
    (b"99/0001/01", Some((99, 1, 1))),
    (b"00/0001/99", Some((0, 1, 99))),
    (b"00/0000/01", None),
    (b"98/0000/07", None),
    (b"00/0001/00", None),
    (b"98/0214/00", None),
    (b"00/0000/00", None),
    // each digit has its place
    (b"10/0020/30", Some((10, 20, 30))),
    (b"12/3456/78", Some((12, 3_456, 78))),
    (b"05/1000/10", Some((5, 1_000, 10))),
    // one digit short or more
    (b"8/0214/07", None),
    (b"98/214/07", None),
    (b"98/0214/7", None),
    (b"098/0214/07", None),
    (b"98/00214/07", None),
    (b"98/0214/007", None),
    (b"1998/0214/07", None),
    // shorter still
    (b"9", None),
    (b"98", None),
    (b"98/", None),
    (b"98/0", None),
    (b"98/02", None),
    (b"98/021", None),
    (b"98/0214", None),
    // ten bytes, with the slashes elsewhere
    (b"9/80214/07", None),
    (b"980/214/07", None),
    (b"98/021/407", None),
    (b"98/02140/7", None),
    // other separators
    (b"98-0214-07", None),
    (b"98-0214/07", None),
    (b"98/0214-07", None),
    (b"98:0214/07", None),
    (b"98/0214.07", None),
    (b"9800214007", None),
    (b"98 0214 07", None),
    // signs, spaces and letters
    (b" 8/0214/07", None),
    (b"+8/0214/07", None),
    (b"-8/0214/07", None),
    (b"98/ 214/07", None),
    (b"98/+214/07", None),
    (b"98/02 4/07", None),
    (b"98/0214/ 7", None),
    (b"98/0214/+7", None),
    (b"98/0214/7 ", None),
    (b"9a/0214/07", None),
    (b"98/021b/07", None),
    (b"98/0214/c7", None),
    (b"98/0214/0\x00", None),
    (b"\x00\x00/0001/01", None),
    (b"98/0\xff14/07", None),
    (b"98/0214/07\n", None),
    (b" 98/0214/07", None),
    (b"98/0214/", None),
    (b"//////////", None),
    (b"", None),
];

fn stamp(parts: (u16, u16, u8)) -> SheetStamp {
    let (season, sheet, line) = parts;
    SheetStamp {
        season,
        sheet,
        line,
    }
}

#[test]
fn read(rt: HostRuntime) {
    reads(&rt, stamp, &READ);
}

// A stamp, whether it is in range, and its text. A stamp in range is read back.
const TEXTS: [((u16, u16, u8), bool, &str); 14] = [
    ((98, 214, 7), true, "98/0214/07"),
    ((0, 1, 1), true, "00/0001/01"),
    ((99, 9_999, 99), true, "99/9999/99"),
    ((10, 20, 30), true, "10/0020/30"),
    // just out of range, in each part
    ((100, 1, 1), false, "100/0001/01"),
    ((0, 0, 1), false, "00/0000/01"),
    ((0, 10_000, 1), false, "00/10000/01"),
    ((0, 1, 0), false, "00/0001/00"),
    ((0, 1, 100), false, "00/0001/100"),
    ((99, 0, 99), false, "99/0000/99"),
    ((99, 9_999, 0), false, "99/9999/00"),
    ((0, 0, 0), false, "00/0000/00"),
    ((1998, 214, 7), false, "1998/0214/07"),
    ((65_535, 65_535, 255), false, "65535/65535/255"),
];

#[test]
fn texts(rt: HostRuntime) -> Result<(), Fail> {
    shows(&rt, stamp, &TEXTS)
}

// Two stamps, and whether the first comes before the second.
const ORDER: [((u16, u16, u8), (u16, u16, u8), bool); 14] = [
    ((98, 214, 7), (98, 214, 7), false),
    // by the line, if season and sheet are the same
    ((98, 214, 7), (98, 214, 8), true),
    ((98, 214, 8), (98, 214, 7), false),
    // by the sheet, whatever the line
    ((98, 214, 99), (98, 215, 1), true),
    ((98, 215, 1), (98, 214, 99), false),
    // by the season, whatever sheet and line
    ((97, 9_999, 99), (98, 1, 1), true),
    ((98, 1, 1), (97, 9_999, 99), false),
    ((97, 1, 9), (98, 1, 1), true),
    ((98, 1, 1), (97, 1, 9), false),
    // out of range
    ((99, 9_999, 99), (100, 0, 0), true),
    ((100, 0, 0), (99, 9_999, 99), false),
    ((0, 0, 0), (0, 0, 1), true),
    ((5, 10_000, 0), (5, 9_999, 255), false),
    ((65_535, 65_535, 255), (65_535, 65_535, 255), false),
];

#[test]
fn order(rt: HostRuntime) {
    comes_before(&rt, stamp, &ORDER);
}
