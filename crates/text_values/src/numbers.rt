//! Texts that denote numbers.

ghost use Rattle.std.specs.Prelude.{◌≡◌, ◌≤◌, ◌<◌, ◌^◌, ◌↔◌, IfSome, IsSome, IsTrue, SomeIff, drop, length};
ghost use Rattle.abl_values.specs.Masks.{without_minus};
ghost use Rattle.abl_base.specs.declared.limits.TheConstants.{DECIMAL_PLACES};
ghost use Rattle.abl_values.specs.Arithmetic.{with_sign};
ghost use Rattle.abl_values.specs.Digits.{has_minus};
ghost use Rattle.text_values.specs.TextValues.{is_point_and_decimals, number_in, number_in_bits, scaled_of, whole_in};

use crate::digits::{all_digits, are_digits, digits_len, number_of};
use abl_base::limits::{DECIMAL_PLACES, DECIMAL_SCALE};

/// The whole number of 64 bits that a text denotes: an optional `-` and digits.
pub fn whole_in(text: &[u8]) -> Option<i64>
    ensures { result ≡ whole_in 63 text.now }
{
    i64::try_from(wide_whole_in(text)?).ok()
}

/// The whole number of 32 bits that a text denotes: an optional `-` and digits.
pub fn small_whole_in(text: &[u8]) -> Option<i32>
    ensures { result ≡ whole_in 31 text.now }
{
    i32::try_from(wide_whole_in(text)?).ok()
}

/// The whole number of 128 bits that a text denotes: an optional `-` and digits.
fn wide_whole_in(text: &[u8]) -> Option<i128>
    ensures { result ≡ whole_in 127 text.now }
{
    let (negative, digits) = sign_and_rest(text);
    if !are_digits(digits) {
        return None;
    }
    signed(negative, number_of(digits)?)
}

/// The number that a text denotes, as a decimal is stored: an optional `-`, digits, and an optional
/// point with at most `DECIMAL_PLACES` digits after it, in the range of stored decimals. INTEGER,
/// INT64 and DECIMAL of a text take the same texts. (This project's choice.)
#[tactic(auto, unfolding(crate::specs::TextValues::number_in))]
pub fn number_in(text: &[u8]) -> Option<i128>
    ensures { result ≡ number_in text.now }
{
    let (negative, rest) = sign_and_rest(text);
    let (before, after) = rest.split_at(digits_len(rest));
    if !are_digits(before) {
        return None;
    }
    signed(negative, scaled(before, decimals_of(after)?)?)
}

/// The digits after the point, at most `DECIMAL_PLACES`, and none without a point.
fn decimals_of(after: &[u8]) -> Option<&[u8]>
    ensures form { IsTrue (is_point_and_decimals after.now) ↔ IsSome result }
    ensures digits { IfSome result (λ decimals. decimals.now ≡ drop 1 after.now) }
    ensures few { IfSome result (λ decimals. length decimals.now ≤ DECIMAL_PLACES) }
{
    match after {
        [] => Some(after),
        [b'.', decimals @ ..] => {
            if all_digits(decimals) && decimals.len() <= DECIMAL_PLACES {
                Some(decimals)
            } else {
                None
            }
        }
        _ => None,
    }
}

/// Whether a text begins with `-`, and the text without it.
fn sign_and_rest(text: &[u8]) -> (bool, &[u8])
    ensures sign { result.0 ≡ has_minus text.now }
    ensures rest { result.1.now ≡ without_minus text.now }
{
    match text {
        [b'-', rest @ ..] => (true, rest),
        _ => (false, text),
    }
}

/// The digits before and after a point as a decimal is stored, where that is below 2^128.
#[tactic(auto, using(crate::proofs::Spelled::units_most))]
fn scaled(before: &[u8], after: &[u8]) -> Option<u128>
    requires { length after.now ≤ DECIMAL_PLACES }
    ensures { SomeIff result (scaled_of before.now after.now < 2 ^ 128) (scaled_of before.now after.now) }
{
    let whole = number_of(before)?.checked_mul(DECIMAL_SCALE as u128)?;
    let unit = 10u128.pow((DECIMAL_PLACES - after.len()) as u32);
    whole.checked_add(number_of(after)?.checked_mul(unit)?)
}

/// A number with this sign and magnitude, where it is in the range of 128 bits.
fn signed(negative: bool, magnitude: u128) -> Option<i128>
    ensures { result ≡ number_in_bits 127 (with_sign negative magnitude) }
{
    if magnitude <= i128::MAX as u128 {
        let n = magnitude as i128;
        Some(if negative { -n } else { n })
    } else if negative && magnitude == i128::MAX as u128 + 1 {
        Some(i128::MIN)
    } else {
        None
    }
}
