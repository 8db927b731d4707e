ghost use Rattle.std.specs.Prelude.{◌≡◌, ℕ, Bool, true, List, Some, IfOk, string_bytes};
ghost use Rattle.moments.specs.Moments.{ReadAs};

use crate::ordered::Ordered;
use std::alloc::{AllocError, Global};
use std::fmt::Display;

// A kind of moment: its order, which of its values are in range, and their text.
pub trait Moment: Ordered {
    // whether a moment is in range
    ghost ranged: { Self → Bool };

    // the bytes of a moment's text
    ghost written: { Self → List ℕ };

    // A value may be made out of range; what takes moments in tests them by this.
    fn in_range(&self) -> bool
        ensures { result ≡ ranged self.now };

    // The moment in range whose text the field is; none if there is none.
    fn read(field: &[u8]) -> Option<Self>
        ensures { ReadAs ranged written field.now result };

    // The moment's text, which reads back as the same moment if it is in range.
    fn to_text(&self, heap: Global) -> Result<String, AllocError>
        ensures { IfOk result (λ t. string_bytes t ≡ written self.now) };

    // two moments in range with one text are the same
    ghost apart: { (x y : Self) → ranged x ≡ true → ranged y ≡ true → written x ≡ written y → x ≡ y };
}

// A kind of moment whose text `{}` prints.
pub trait Printed: Moment + Display {
    ghost shown: { (x : Self) → Self.output x ≡ Some (Self.written x) };
}
