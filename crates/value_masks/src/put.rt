//! What PUT and STRING write of a value under a mask.

ghost use Rattle.std.specs.Prelude.{◌≡◌, ◌≤◌, ◌-◌, IfOk, IsTrue, length, take_while};
ghost use Rattle.std.specs.List.{prefix_len};
ghost use Rattle.abl_values.specs.Dates.{date_of_day};
ghost use Rattle.abl_values.specs.Masks.{is_date_mask, is_mask_word_byte, is_number_mask, is_text_mask, is_width, is_word_mask};
ghost use Rattle.abl_values.specs.Digits.{number_of};
ghost use Rattle.abl_values.specs.Order.{scaled};
ghost use Rattle.value_masks.specs.Put.{date_under, first_word, is_mask_for, is_within, number_under, on_the_left, put, second_word, text_width, unknown_under, width_of, word_for, word_width};

use crate::filled::{on_the_left, on_the_right, push_last_digits};
use crate::number::number_under;
use abl_base::limits::DECIMAL_SCALE;
use abl_base::{Bytes, Items, Kind, Value};
use abl_values::{date_parts, mask_fits};
use std::alloc::{AllocError, Global};

/// The text of a value under a mask for its kind; `?` takes a mask for any kind. A text is cut or
/// filled with blanks on the right; yes and no are the mask's two texts, filled to the longer; month
/// and day have two digits and the year its last two or all four. A number is rounded to the mask's
/// decimals, a half away from zero, and filled with blanks on the left; where it has more whole
/// digits than the mask has signs for them, or is negative and the mask has no `-`, all bytes are
/// `?`. An unknown is one `?`, on the right under a mask for numbers, else on the left. Out of memory
/// is the only error. (OpenEdge ABL Reference, Formats; the text of a number that does not fit, and
/// the place of `?`, are this project's choice.)
#[tactic(auto, unfolding(crate::specs::Put::put, abl_values::specs::Masks::mask_is_for))]
pub fn put_item(alloc: Global, value: &Value, mask: &[u8]) -> Result<Bytes, AllocError>
    requires { IsTrue (is_mask_for mask.now value.now) }
    ensures { IfOk result (λ bytes. bytes ≡ put mask.now value.now) }
{
    match value {
        Value::Text(text) => on_the_left(alloc, text.as_slice(), text_width(mask)),
        Value::Int(n) => number_under(alloc, mask, whole_units(i64::from(*n))),
        Value::Int64(n) => number_under(alloc, mask, whole_units(*n)),
        Value::Dec(n) => number_under(alloc, mask, *n),
        Value::Logical(yes) => on_the_left(alloc, word_for(mask, *yes), word_width(mask)),
        Value::Date(day) => date_under(alloc, mask, *day),
        Value::Unknown => unknown_under(alloc, mask),
    }
}

/// A whole number as a decimal is stored.
fn whole_units(n: i64) -> i128
    ensures { result ≡ scaled n }
{
    i128::from(n) * DECIMAL_SCALE as i128
}

/// The width of a text's mask: n of `x(n)`, or the length of a run of `x`.
fn text_width(mask: &[u8]) -> usize
    requires { IsTrue (is_text_mask mask.now) }
    ensures { result ≡ text_width mask.now }
{
    match mask {
        [_, second, width @ ..] if *second == b'(' => number_before_parenthesis(width),
        _ => mask.len(),
    }
}

/// The number that one to three digits before a parenthesis spell.
fn number_before_parenthesis(bytes: &[u8]) -> usize
    requires { IsTrue (is_width bytes.now) }
    ensures { result ≡ number_of (take_while is_within bytes.now) }
{
    match bytes {
        [a, _] => digit(*a),
        [a, b, _] => 10 * digit(*a) + digit(*b),
        [a, b, c, _] => 100 * digit(*a) + 10 * digit(*b) + digit(*c),
        _ => 0,
    }
}

/// The number of a digit.
fn digit(byte: u8) -> usize
    ensures { result ≡ byte - 48 }
{
    usize::from(byte.saturating_sub(b'0'))
}

/// The number of bytes before the first `/` of a mask.
fn first_word_len(mask: &[u8]) -> usize
    ensures value { result ≡ prefix_len is_mask_word_byte mask.now }
    ensures within { result ≤ length mask.now }
{
    mask.iter().take_while(|byte| **byte != b'/').count()
}

/// The text of a mask that denotes yes.
fn first_word(mask: &[u8]) -> &[u8]
    ensures { result.now ≡ first_word mask.now }
{
    &mask[..first_word_len(mask)]
}

/// The text of a mask that denotes no.
fn second_word(mask: &[u8]) -> &[u8]
    ensures { result.now ≡ second_word mask.now }
{
    match &mask[first_word_len(mask)..] {
        [] => &[],
        [_, word @ ..] => word,
    }
}

/// The text of a mask that denotes yes or no.
fn word_for(mask: &[u8], yes: bool) -> &[u8]
    ensures { result.now ≡ word_for mask.now yes }
{
    if yes {
        first_word(mask)
    } else {
        second_word(mask)
    }
}

/// The length of the longer text of a mask.
fn word_width(mask: &[u8]) -> usize
    ensures { result ≡ word_width mask.now }
{
    first_word(mask).len().max(second_word(mask).len())
}

/// The date of a day under `99/99/99` or `99/99/9999`.
fn date_under(alloc: Global, mask: &[u8], day: i32) -> Result<Bytes, AllocError>
    requires { IsTrue (is_date_mask mask.now) }
    ensures { IfOk result (λ bytes. bytes ≡ date_under mask.now (date_of_day day)) }
{
    let (month, day_of_month, year) = date_parts(day);
    let mut bytes = Vec::new(alloc);
    push_last_digits(&mut bytes, 2, month as u128)?;
    bytes.push(b'/')?;
    push_last_digits(&mut bytes, 2, day_of_month as u128)?;
    bytes.push(b'/')?;
    push_last_digits(&mut bytes, mask.len() - 6, year as u128)?;
    Ok(Items::from_vec(bytes))
}

/// One question mark under a mask for any kind.
#[tactic(auto, unfolding(abl_values::specs::Masks::mask_is_for))]
fn unknown_under(alloc: Global, mask: &[u8]) -> Result<Bytes, AllocError>
    ensures { IfOk result (λ bytes. bytes ≡ unknown_under mask.now) }
{
    if mask_fits(mask, Kind::Decimal) {
        on_the_right(alloc, b"?", width(mask))
    } else {
        on_the_left(alloc, b"?", width(mask))
    }
}

/// The number of bytes that every value under the mask takes.
#[tactic(auto, unfolding(abl_values::specs::Masks::mask_is_for))]
fn width(mask: &[u8]) -> usize
    ensures { result ≡ width_of mask.now }
{
    if mask_fits(mask, Kind::Character) {
        text_width(mask)
    } else if mask_fits(mask, Kind::Logical) {
        word_width(mask)
    } else {
        mask.len()
    }
}
