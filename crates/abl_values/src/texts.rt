//! The text that EXPORT writes of a value.

ghost use Rattle.std.specs.Prelude.{◌≡◌, ◌≤◌, ◌++◌, ◌∷◌, ◌/◌, ◌%◌, [], length, pos, codes, IfOk, OnOk};
ghost use Rattle.std.specs.Fmt.{decimal, signed_decimal};
ghost use Rattle.abl_values.specs.Order.{without_trailing};
ghost use Rattle.abl_values.specs.Dates.{date_of_day};
ghost use Rattle.abl_values.specs.Texts.{after_point, date_text, decimal_text, doubled, doubled_byte, export_text, last_digits, magnitude_text, year_text};

use crate::dates::date_parts;
use crate::order::trimmed;
use abl_base::limits::{DECIMAL_SCALE, FIRST_SHORT_YEAR, LAST_SHORT_YEAR};
use abl_base::{Bytes, Items, Value};
use std::alloc::{AllocError, Global};

/// The text that EXPORT writes of a value: a text in `"` with inner ones doubled, `yes` or `no`, a
/// date as `mm/dd/yy` in the years 1950 to 2049 and else as `mm/dd/yyyy`, `?`, and a number in
/// digits, a decimal without trailing zeros. Out of memory is the only error. (OpenEdge ABL
/// Reference, EXPORT; the form of dates is this project's choice.)
pub fn export_value(alloc: Global, value: &Value) -> Result<Bytes, AllocError>
    ensures { IfOk result (λ bytes. bytes ≡ export_text value.now) }
{
    let mut bytes = Vec::new(alloc);
    push_export(alloc, &mut bytes, value)?;
    Ok(Items::from_vec(bytes))
}

/// Writes the text that EXPORT writes of a value.
#[tactic(auto, unfolding(crate::specs::Texts::export_text, crate::specs::Texts::plain_text))]
pub(crate) fn push_export(
    alloc: Global,
    bytes: &mut Vec<u8>,
    value: &Value,
) -> Result<(), AllocError>
    ensures { OnOk result (bytes.new.items ≡ bytes.old.items ++ export_text value.now) }
{
    match value {
        Value::Text(text) => push_quoted(bytes, text.as_slice()),
        Value::Int(n) => push_number(alloc, bytes, i64::from(*n)),
        Value::Int64(n) => push_number(alloc, bytes, *n),
        Value::Dec(n) => push_decimal(alloc, bytes, *n),
        Value::Logical(true) => bytes.extend_from_slice(b"yes"),
        Value::Logical(false) => bytes.extend_from_slice(b"no"),
        Value::Date(day) => push_date(bytes, *day),
        Value::Unknown => bytes.extend_from_slice(b"?"),
    }
}

/// Writes a text in quotation marks, with inner ones doubled.
fn push_quoted(bytes: &mut Vec<u8>, text: &[u8]) -> Result<(), AllocError>
    ensures { OnOk result (bytes.new.items ≡ bytes.old.items ++ 34 ∷ doubled text.now ++ 34 ∷ []) }
{
    bytes.push(b'"')?;
    for byte in text {
        push_doubled(bytes, *byte)?;
    }
    bytes.push(b'"')?;
    Ok(())
}

/// Writes a byte of a text, a quotation mark twice.
fn push_doubled(bytes: &mut Vec<u8>, byte: u8) -> Result<(), AllocError>
    ensures { OnOk result (bytes.new.items ≡ bytes.old.items ++ doubled_byte byte) }
{
    if byte == b'"' {
        bytes.extend_from_slice(b"\"\"")
    } else {
        bytes.extend_from_slice(&[byte])
    }
}

/// Writes a whole number in digits.
pub(crate) fn push_number(alloc: Global, bytes: &mut Vec<u8>, n: i64) -> Result<(), AllocError>
    ensures { OnOk result (bytes.new.items ≡ bytes.old.items ++ signed_decimal n) }
{
    let text = format!(in alloc; "{n}")?;
    bytes.extend_from_slice(text.as_bytes())
}

/// Writes a decimal, as it is stored, in digits.
fn push_decimal(alloc: Global, bytes: &mut Vec<u8>, n: i128) -> Result<(), AllocError>
    ensures { OnOk result (bytes.new.items ≡ bytes.old.items ++ decimal_text n) }
{
    if n < 0 {
        bytes.push(b'-')?;
    }
    push_magnitude(alloc, bytes, n.unsigned_abs())
}

/// Writes the magnitude of a decimal in digits.
fn push_magnitude(alloc: Global, bytes: &mut Vec<u8>, n: u128) -> Result<(), AllocError>
    ensures { OnOk result (bytes.new.items ≡ bytes.old.items ++ magnitude_text n) }
{
    let whole = n / DECIMAL_SCALE as u128;
    let text = format!(in alloc; "{whole}")?;
    bytes.extend_from_slice(text.as_bytes())?;
    push_fraction(alloc, bytes, (n % DECIMAL_SCALE as u128) as u64)
}

/// Writes a point and ten decimals without trailing zeros, and no bare point.
fn push_fraction(alloc: Global, bytes: &mut Vec<u8>, n: u64) -> Result<(), AllocError>
    ensures { OnOk result (bytes.new.items
        ≡ bytes.old.items ++ after_point (without_trailing 48 (last_digits 10 n))) }
{
    let mut digits = Vec::new(alloc);
    push_last_digits(&mut digits, 10, n)?;
    push_after_point(bytes, trimmed(digits.as_slice(), b'0'))
}

/// Writes a point and the digits, and nothing where there are none.
fn push_after_point(bytes: &mut Vec<u8>, digits: &[u8]) -> Result<(), AllocError>
    ensures { OnOk result (bytes.new.items ≡ bytes.old.items ++ after_point digits.now) }
{
    match digits {
        [] => Ok(()),
        [_, ..] => {
            bytes.push(b'.')?;
            bytes.extend_from_slice(digits)
        }
    }
}

/// Writes the last digits of a number, with zeros on the left.
fn push_last_digits(bytes: &mut Vec<u8>, digits: u8, n: u64) -> Result<(), AllocError>
    ensures { OnOk result (bytes.new.items ≡ bytes.old.items ++ last_digits digits n) }
{
    if digits == 0 {
        return Ok(());
    }
    push_last_digits(bytes, digits - 1, n / 10)?;
    bytes.push(48 + (n % 10) as u8)?;
    Ok(())
}

/// Writes a date.
fn push_date(bytes: &mut Vec<u8>, day: i32) -> Result<(), AllocError>
    ensures { OnOk result (bytes.new.items ≡ bytes.old.items ++ date_text (date_of_day day)) }
{
    let (month, day_of_month, year) = date_parts(day);
    push_last_digits(bytes, 2, month as u64)?;
    bytes.push(b'/')?;
    push_last_digits(bytes, 2, day_of_month as u64)?;
    bytes.push(b'/')?;
    push_year(bytes, year as u64)
}

/// Writes a year with two digits from 1950 to 2049, else with four.
fn push_year(bytes: &mut Vec<u8>, year: u64) -> Result<(), AllocError>
    ensures { OnOk result (bytes.new.items ≡ bytes.old.items ++ year_text year) }
{
    let digits = if FIRST_SHORT_YEAR as u64 <= year && year <= LAST_SHORT_YEAR as u64 {
        2
    } else {
        4
    };
    push_last_digits(bytes, digits, year)
}
