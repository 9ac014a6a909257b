//! The numbers that a schema file spells without a leading zero.

ghost use Rattle.std.specs.Prelude.{◌≡◌};
ghost use Rattle.schema_lines.specs.Numbers.{is_number, long_number, small_number};

use abl_values::{is_digit, without_minus};
use text_values::{are_digits, whole_in};

/// Digits without a leading zero.
fn is_number(bytes: &[u8]) -> bool
    ensures { result ≡ is_number bytes.now }
{
    match bytes {
        [] => false,
        [only] => is_digit(*only),
        [first, ..] => are_digits(bytes) && *first != b'0',
    }
}

/// A number up to 2147483647, without a leading zero.
pub fn small_number(digits: &[u8]) -> Option<u32>
    ensures { result ≡ small_number digits.now }
{
    if !is_number(digits) {
        return None;
    }
    let n = whole_in(digits)?;
    if n < 2_147_483_648 {
        Some(n as u32)
    } else {
        None
    }
}

/// A number of 64 bits with or without `-`, without a leading zero.
pub fn long_number(text: &[u8]) -> Option<i64>
    ensures { result ≡ long_number text.now }
{
    if is_number(without_minus(text)) {
        whole_in(text)
    } else {
        None
    }
}
