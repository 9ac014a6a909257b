//! Quotients rounded to the nearest number, a half away from zero.

ghost use Rattle.std.specs.Prelude.{◌≡◌, ◌≢◌, ◌<◌, pos, if◌then◌else◌};
ghost use Rattle.abl_values.specs.Arithmetic.{decimal_in_range, rounded, rounded_quotient, rounded_whole, with_sign};

use crate::arithmetic::ArithFault;
use abl_base::Value;
use abl_base::limits::DECIMAL_SCALE;

/// The quotient of two natural numbers, rounded to the nearest one, a half up. (This project's
/// choice.)
pub fn rounded(n: u128, d: u128) -> u128
    requires { 0 < d }
    ensures { result ≡ rounded n d }
{
    let quotient = n / d;
    let rest = n % d;
    if rest < d - rest {
        quotient
    } else {
        quotient + 1
    }
}

/// A decimal as it is stored, rounded to a whole number.
pub(crate) fn rounded_whole(n: i128) -> i128
    ensures { result ≡ rounded_whole n }
{
    let magnitude = rounded(n.unsigned_abs(), DECIMAL_SCALE as u128) as i128;
    if n < 0 { -magnitude } else { magnitude }
}

/// The rounded quotient of two numbers as a decimal, where it is in range.
pub(crate) fn rounded_quotient_in_range(n: i128, d: i128) -> Result<Value, ArithFault>
    requires { d ≢ pos 0 }
    ensures { result ≡ decimal_in_range (rounded_quotient n d) }
{
    let magnitude = rounded(n.unsigned_abs(), d.unsigned_abs());
    signed_in_range((n < 0) != (d < 0), magnitude)
}

/// A decimal with this sign and magnitude, where it is in range.
fn signed_in_range(negative: bool, magnitude: u128) -> Result<Value, ArithFault>
    ensures { result ≡ decimal_in_range (with_sign negative magnitude) }
{
    if magnitude <= i128::MAX as u128 {
        let n = magnitude as i128;
        Ok(Value::Dec(if negative { -n } else { n }))
    } else if negative && magnitude == i128::MAX as u128 + 1 {
        Ok(Value::Dec(i128::MIN))
    } else {
        Err(ArithFault::Overflow)
    }
}
