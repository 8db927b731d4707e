ghost use Rattle.std.specs.Prelude.{◌≡◌, Bool};
ghost use Rattle.std.specs.Ordering.{is_lt};
ghost use Rattle.moments.specs.Order.{StrictTotalOrder};

// Values with a strict total order: of two values exactly one is true, that the first comes before the second, that they are the same,
// or that the second comes before the first; and what comes before a value that comes before a third comes before the third.
pub trait Ordered: Copy {
    // one value comes before another
    ghost before: { Self → Self → Bool };

    // Whether this value comes before the other.
    fn precedes(&self, other: &Self) -> bool
        ensures { result ≡ before self.now other.now };

    ghost total: { StrictTotalOrder before };
}

// Values whose comparisons by std, which a kind may derive, are their order.
pub trait Compared: Ordered + Ord {
    ghost agrees: { (x y : Self) → Self.before x y ≡ is_lt (Self.cmp x y) };
}
