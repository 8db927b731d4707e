ghost use Rattle.std.specs.Prelude.{◌≤◌, length};
ghost use Rattle.moments.specs.Digits.{NumberOf};

// The number that the digits write; none if a byte is no digit. The digits are few enough that the number fits.
pub(crate) fn number(digits: &[u8]) -> Option<u32>
    requires { length digits.now ≤ 9 }
    ensures { NumberOf digits.now result }
{
    // (A loop: tried as a `try_fold`, the sum has no bound that its closure knows.)
    let mut n = 0;
    for d in digits {
        n = n * 10 + char::from(*d).to_digit(10)?;
    }
    Some(n)
}
