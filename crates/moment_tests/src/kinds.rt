// What is tried of every kind of moment, on a table of its own: `make` makes a moment of what stands for it there.
use moments::{Moment, Ordered};
use std::fmt::Debug;
use std::process::Abort;
use std::test::Fail;

// A field, and the moment that is read.
pub(crate) fn reads<P: Copy, K: Moment + PartialEq + Debug, F: Fn(P) -> K>(
    rt: &impl Abort,
    make: F,
    table: &[(&[u8], Option<P>)],
)
    requires { F.IsAlwaysCallable make }
{
    for (field, expected) in table {
        assert_eq!(rt; K::read(field), expected.map(&make));
    }
}

// A moment, whether it is in range, and its text. A moment in range is read back.
pub(crate) fn shows<P: Copy, K: Moment + PartialEq + Debug, F: Fn(P) -> K>(
    rt: &(impl Abort + AllocGlobal),
    make: F,
    table: &[(P, bool, &str)],
) -> Result<(), Fail>
    requires { F.IsAlwaysCallable make }
{
    for (key, ranged, text) in table {
        let moment = make(*key);
        assert_eq!(rt; moment.in_range(), *ranged);
        let written = moment.to_text(rt.alloc())?;
        assert_eq!(rt; written.as_str(), *text);
        let expected = if *ranged { Some(moment) } else { None };
        assert_eq!(rt; K::read(written.as_bytes()), expected);
    }
    Ok(())
}

// Two moments, and whether the first comes before the second.
pub(crate) fn comes_before<P: Copy, K: Ordered, F: Fn(P) -> K>(
    rt: &impl Abort,
    make: F,
    table: &[(P, P, bool)],
)
    requires { F.IsAlwaysCallable make }
{
    for (one, other, expected) in table {
        assert_eq!(rt; make(*one).precedes(&make(*other)), *expected);
    }
}
