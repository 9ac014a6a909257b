//! The masks and initial values of fields.

ghost use Rattle.std.specs.Prelude.{◌≡◌, ◌≤◌, length, IfOk};
ghost use Rattle.abl_values.specs.Masks.{after_run, is_mask_word_byte};
ghost use Rattle.schema_lines.specs.Lines.{run};
ghost use Rattle.schema_lines.specs.Initials.{day_spelt, default_mask, initial_given, integer_value, is_character, is_unknown, logical_spelt, long_value, mask_of, second_word, text_value, value_spelt, whole_spelt, whole_units};
ghost use Rattle.text_values.specs.TextValues.{number_in};

use crate::item::Given;
use crate::lines::front_of;
use abl_base::limits::DECIMAL_SCALE;
use abl_base::{Bytes, Items, Kind, MAX_TEXT_BYTES, Value};
use abl_values::{mask_fits, same_bytes, same_name};
use std::alloc::{AllocError, Global};
use text_values::{date_in, number_in, truth_in};

/// The mask of a field without a usable FORMAT.
fn default_mask(kind: Kind) -> &'static [u8]
    ensures { result.now ≡ default_mask kind }
{
    match kind {
        Kind::Character => b"x(8)",
        Kind::Integer | Kind::Int64 => b"->,>>>,>>9",
        Kind::Decimal => b"->>,>>9.99",
        Kind::Logical => b"yes/no",
        Kind::Date => b"99/99/99",
    }
}

/// The FORMAT where it is a mask of the kind, else the kind's default; a field of an unsupported
/// kind has none.
pub fn mask_of(kind: Option<Kind>, format: &[u8]) -> &[u8]
    ensures { result.now ≡ mask_of kind format.now }
{
    match kind {
        None => &[],
        Some(kind) => {
            if mask_fits(format, kind) {
                format
            } else {
                default_mask(kind)
            }
        }
    }
}

/// The word of a mask `a/b` before its `/`.
fn first_word(mask: &[u8]) -> &[u8]
    ensures { result.now ≡ run is_mask_word_byte mask.now }
{
    front_of(mask, after_letters(mask))
}

/// The mask from its `/` on.
fn after_letters(mask: &[u8]) -> &[u8]
    ensures rest { result.now ≡ after_run is_mask_word_byte mask.now }
    ensures within { length result.now ≤ length mask.now }
{
    let mut rest = mask;
    while let [first, tail @ ..] = rest {
        if !is_mask_word_byte(*first) {
            break;
        }
        rest = tail;
    }
    rest
}

/// All bytes but `/`.
fn is_mask_word_byte(byte: u8) -> bool
    ensures { result ≡ is_mask_word_byte byte }
{
    byte != b'/'
}

/// The word of a mask `a/b` after its `/`.
fn second_word(mask: &[u8]) -> &[u8]
    ensures { result.now ≡ second_word (after_run is_mask_word_byte mask.now) }
{
    match after_letters(mask) {
        [] => &[],
        [_, rest @ ..] => rest,
    }
}

/// The value of a word of the mask, in any case; else of a word that denotes yes or no.
fn logical_spelt(mask: &[u8], text: &[u8]) -> Option<Value>
    ensures { result ≡ logical_spelt mask.now text.now }
{
    if same_name(text, first_word(mask)) {
        Some(Value::Logical(true))
    } else if same_name(text, second_word(mask)) {
        Some(Value::Logical(false))
    } else {
        truth_in(text).map(Value::Logical)
    }
}

/// The whole number that the text spells, whose decimals must be zeros.
fn whole_spelt(text: &[u8]) -> Option<i128>
    ensures { result ≡ whole_spelt (number_in text.now) }
{
    whole_units(number_in(text)?)
}

/// The number of units as a whole number, where it is one.
fn whole_units(units: i128) -> Option<i128>
    ensures { result ≡ whole_units units }
{
    if units % DECIMAL_SCALE as i128 == 0 {
        Some(units / DECIMAL_SCALE as i128)
    } else {
        None
    }
}

fn integer_spelt(text: &[u8]) -> Option<Value>
    ensures { result ≡ integer_value (whole_spelt (number_in text.now)) }
{
    match i32::try_from(whole_spelt(text)?) {
        Ok(n) => Some(Value::Int(n)),
        Err(_) => None,
    }
}

fn long_spelt(text: &[u8]) -> Option<Value>
    ensures { result ≡ long_value (whole_spelt (number_in text.now)) }
{
    match i64::try_from(whole_spelt(text)?) {
        Ok(n) => Some(Value::Int64(n)),
        Err(_) => None,
    }
}

/// The value of a date; TODAY is `?`, since a schema has no day.
fn day_spelt(text: &[u8]) -> Option<Value>
    ensures { result ≡ day_spelt text.now }
{
    if same_name(text, b"today") {
        Some(Value::Unknown)
    } else {
        date_in(text).map(Value::Date)
    }
}

/// The text as a value, where it has at most `MAX_TEXT_BYTES` bytes.
fn text_value(text: &Bytes) -> Result<Option<Value>, AllocError>
    ensures { IfOk result (λ value. value ≡ text_value text.now) }
{
    if text.len() <= MAX_TEXT_BYTES {
        Ok(Some(Value::Text(text.copy()?)))
    } else {
        Ok(None)
    }
}

/// The value of the kind that the text spells.
fn value_spelt(kind: Kind, mask: &[u8], text: &Bytes) -> Result<Option<Value>, AllocError>
    ensures { IfOk result (λ value. value ≡ value_spelt kind mask.now text.now) }
{
    match kind {
        Kind::Character => text_value(text),
        Kind::Integer => Ok(integer_spelt(text.as_slice())),
        Kind::Int64 => Ok(long_spelt(text.as_slice())),
        Kind::Decimal => Ok(number_in(text.as_slice()).map(Value::Dec)),
        Kind::Logical => Ok(logical_spelt(mask, text.as_slice())),
        Kind::Date => Ok(day_spelt(text.as_slice())),
    }
}

/// Says whether the text is `?`, which between quotation marks is a text where the kind is
/// CHARACTER.
fn is_unknown(kind: Kind, given: &Given) -> bool
    ensures { result ≡ is_unknown kind given.now }
{
    same_bytes(given.text.as_slice(), b"?") && !(given.quoted && is_character(kind))
}

fn is_character(kind: Kind) -> bool
    ensures { result ≡ is_character kind }
{
    match kind {
        Kind::Character => true,
        _ => false,
    }
}

/// The value that INITIAL gives a field of this kind and mask; none where it does not fit. Out of
/// memory is the only error.
#[tactic(auto, unfolding(crate::specs::Initials::initial_given))]
pub fn initial_given(
    kind: Kind,
    mask: &[u8],
    given: &Option<Given>,
) -> Result<Option<Value>, AllocError>
    ensures { IfOk result (λ value. value ≡ initial_given kind mask.now given.now) }
{
    match given {
        None => Ok(None),
        Some(given) => {
            if is_unknown(kind, given) {
                Ok(Some(Value::Unknown))
            } else {
                value_spelt(kind, mask, &given.text)
            }
        }
    }
}
