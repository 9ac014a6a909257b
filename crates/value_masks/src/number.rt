//! Numbers under a mask.

ghost use Rattle.std.specs.Prelude.{◌≡◌, ◌≤◌, ◌-◌, ◌++◌, ◌∷◌, [], ◌&&◌, ◌||◌, not, nat_le, nat_lt, if◌then◌else◌, IfOk, OnOk, length, replicate, reverse};
ghost use Rattle.std.specs.Int.{is_negative};
ghost use Rattle.std.specs.List.{prefix_len};
ghost use Rattle.abl_values.specs.Masks.{is_digit_sign, without_minus};
ghost use Rattle.abl_values.specs.Digits.{has_minus};
ghost use Rattle.abl_values.specs.Texts.{after_point, last_digits};
ghost use Rattle.value_masks.specs.Put.{decimals_of, digit_count, is_before_point, laid, least_digits, number_under, room_of, whole_part, whole_under};

use crate::filled::{on_the_right, push_last_digits, push_times, question_marks};
use crate::rounding::Magnitude;
use abl_base::Bytes;
use abl_values::{is_digit_sign, without_minus};
use std::alloc::{AllocError, Global};

/// A number, as a decimal is stored, under a mask for numbers.
pub fn number_under(alloc: Global, mask: &[u8], n: i128) -> Result<Bytes, AllocError>
    ensures { IfOk result (λ bytes. bytes ≡ number_under mask.now n) }
{
    let magnitude = Magnitude::of(n.unsigned_abs(), decimals_of(mask));
    let negative = is_below_zero(n, magnitude);
    if !has_room(mask, magnitude.whole, negative) {
        return question_marks(alloc, mask.len());
    }
    let mut text = Vec::new(alloc);
    push_sign(&mut text, negative)?;
    push_magnitude(&mut text, mask, magnitude)?;
    on_the_right(alloc, text.as_slice(), mask.len())
}

/// Says whether a number with this rounded magnitude is negative and not rounded to 0.
fn is_below_zero(n: i128, magnitude: Magnitude) -> bool
    ensures { result ≡ (is_negative n && nat_lt 0 magnitude.units) }
{
    n < 0 && magnitude.units > 0
}

/// Says whether a mask has room for the digits before the point, and for a sign where there is one.
fn has_room(mask: &[u8], whole: u128, negative: bool) -> bool
    ensures { result ≡ (nat_le (digit_count whole) (room_of (whole_part mask.now))
        && (has_minus mask.now || not negative)) }
{
    digit_count(whole) <= room_of(whole_part(mask)) && (has_minus(mask) || !negative)
}

/// Writes `-` before a negative number.
fn push_sign(text: &mut Vec<u8>, negative: bool) -> Result<(), AllocError>
    ensures { OnOk result (text.new.items ≡ text.old.items ++ (if negative then 45 ∷ [] else [])) }
{
    if negative {
        text.push(b'-')?;
    }
    Ok(())
}

/// Writes a rounded magnitude under a mask.
fn push_magnitude(text: &mut Vec<u8>, mask: &[u8], magnitude: Magnitude) -> Result<(), AllocError>
    requires { magnitude.digits ≤ decimals_of mask.now }
    ensures { OnOk result (text.new.items ≡ text.old.items
        ++ (whole_under (whole_part mask.now) magnitude.whole
        ++ after_point (last_digits magnitude.digits magnitude.units
        ++ replicate (decimals_of mask.now - magnitude.digits) 48))) }
{
    push_whole(text, whole_part(mask), magnitude.whole)?;
    push_fraction(text, decimals_of(mask), magnitude)
}

/// Writes the point and the digits after it, and nothing where the mask has no decimals.
fn push_fraction(
    text: &mut Vec<u8>,
    decimals: usize,
    magnitude: Magnitude,
) -> Result<(), AllocError>
    requires { magnitude.digits ≤ decimals }
    ensures { OnOk result (text.new.items ≡ text.old.items
        ++ after_point (last_digits magnitude.digits magnitude.units
        ++ replicate (decimals - magnitude.digits) 48)) }
{
    if decimals == 0 {
        return Ok(());
    }
    text.push(b'.')?;
    push_last_digits(text, magnitude.digits, magnitude.units)?;
    push_times(text, b'0', decimals - magnitude.digits)
}

/// Writes a whole number under the part of a mask before the point.
fn push_whole(text: &mut Vec<u8>, part: &[u8], n: u128) -> Result<(), AllocError>
    ensures { OnOk result (text.new.items ≡ text.old.items ++ whole_under part.now n) }
{
    push_laid(text, part, least_digits(part).max(digit_count(n)), n)
}

/// Writes the last digits of a number under the part of a mask before the point.
fn push_laid(text: &mut Vec<u8>, part: &[u8], digits: usize, n: u128) -> Result<(), AllocError>
    ensures { OnOk result (text.new.items ≡ text.old.items
        ++ reverse (laid (reverse part.now) (reverse (last_digits digits n)))) }
{
    match u64::try_from(n) {
        Ok(small) => push_small_laid(text, part, digits, small),
        Err(_) => push_wide_laid(text, part, digits, n),
    }
}

/// Writes the last digits of a number of 64 bits under the part of a mask before the point, from the right: a
/// sign takes a digit, and a comma is written where a digit is left of it.
fn push_small_laid(text: &mut Vec<u8>, part: &[u8], digits: usize, n: u64) -> Result<(), AllocError>
    ensures { OnOk result (text.new.items ≡ text.old.items
        ++ reverse (laid (reverse part.now) (reverse (last_digits digits n)))) }
{
    if digits == 0 {
        return Ok(());
    }
    match part {
        [] => Ok(()),
        [front @ .., sign] => {
            if *sign == b',' {
                push_small_laid(text, front, digits, n)?;
                text.push(b',')?;
            } else {
                push_small_laid(text, front, digits - 1, n / 10)?;
                text.push(48 + (n % 10) as u8)?;
            }
            Ok(())
        }
    }
}

/// Does the same for a number of 128 bits.
fn push_wide_laid(text: &mut Vec<u8>, part: &[u8], digits: usize, n: u128) -> Result<(), AllocError>
    ensures { OnOk result (text.new.items ≡ text.old.items
        ++ reverse (laid (reverse part.now) (reverse (last_digits digits n)))) }
{
    if digits == 0 {
        return Ok(());
    }
    match part {
        [] => Ok(()),
        [front @ .., sign] => {
            if *sign == b',' {
                push_wide_laid(text, front, digits, n)?;
                text.push(b',')?;
            } else {
                push_wide_laid(text, front, digits - 1, n / 10)?;
                text.push(48 + (n % 10) as u8)?;
            }
            Ok(())
        }
    }
}

/// The number of digits of a number, none where it is 0.
fn digit_count(n: u128) -> usize
    ensures { result ≡ digit_count n }
{
    match u64::try_from(n) {
        Ok(small) => small_digit_count(small),
        Err(_) => wide_digit_count(n),
    }
}

/// The number of digits of a number of 64 bits.
fn small_digit_count(n: u64) -> usize
    ensures { result ≡ digit_count n }
{
    let mut count = 0;
    let mut rest = n;
    while rest > 0 {
        rest /= 10;
        count += 1;
    }
    count
}

/// The number of digits of a number of 128 bits.
fn wide_digit_count(n: u128) -> usize
    ensures { result ≡ digit_count n }
{
    let mut count = 0;
    let mut rest = n;
    while rest > 0 {
        rest /= 10;
        count += 1;
    }
    count
}

/// The mask begins with `-`.
fn has_minus(mask: &[u8]) -> bool
    ensures { result ≡ has_minus mask.now }
{
    match mask {
        [] => false,
        [first, ..] => *first == b'-',
    }
}

/// The number of bytes before a point.
fn len_before_point(bytes: &[u8]) -> usize
    ensures value { result ≡ prefix_len is_before_point bytes.now }
    ensures within { result ≤ length bytes.now }
{
    bytes.iter().take_while(|byte| **byte != b'.').count()
}

/// The part of a mask before the point, without the `-`.
fn whole_part(mask: &[u8]) -> &[u8]
    ensures { result.now ≡ whole_part mask.now }
{
    let unsigned = without_minus(mask);
    &unsigned[..len_before_point(unsigned)]
}

/// The number of decimals of a mask.
fn decimals_of(mask: &[u8]) -> usize
    ensures { result ≡ decimals_of mask.now }
{
    (mask.len() - len_before_point(mask)).saturating_sub(1)
}

/// The number of digits that a part of a mask has room for.
fn room_of(part: &[u8]) -> usize
    ensures { result ≡ room_of part.now }
{
    part.iter().filter(|byte| is_digit_sign(**byte)).count()
}

/// The least number of digits under a part of a mask.
fn least_digits(part: &[u8]) -> usize
    ensures { result ≡ least_digits part.now }
{
    part.iter().filter(|byte| **byte == b'9').count()
}
