//! Literals among the productions of Primary.

ghost use Rattle.std.specs.Prelude.{◌≡◌, IfOk, IfSome, pos, true, false};
ghost use Rattle.abl_base.specs.declared.value.Value.TheVariants as value;
ghost use Rattle.syntax_reader.specs.Expressions.{IsConstant};
ghost use Rattle.syntax_reader.specs.Days.{IsDated, dated};
ghost use Rattle.syntax_reader.specs.Nodes.{IsScaled, IsWhole};
ghost use Rattle.syntax_reader.specs.Views.{source_of};

use crate::nodes::{ReadFault, Reader, place, text, uses};
use abl_base::{Place, Value};
use abl_values::date_of;
use parse_tree::production::{
    PRIMARY_DATE_LITERAL, PRIMARY_DECIMAL_NUMBER, PRIMARY_FALSE, PRIMARY_NO, PRIMARY_QUESTION_MARK,
    PRIMARY_TEXT_LITERAL, PRIMARY_TRUE, PRIMARY_WHOLE_NUMBER, PRIMARY_YES,
};
use parse_tree::{CivilDate, Meaning};

/// The value of a whole number.
pub(crate) fn whole(reader: &Reader<'_>, k: usize) -> Result<u64, ReadFault>
    ensures { IfOk result (λ x. IsWhole (source_of reader.now) k x) }
{
    let Some(token) = reader.tokens.get(k) else {
        return Err(ReadFault::Malformed);
    };
    match &token.meaning {
        Meaning::Whole(x) => Ok(*x),
        _ => Err(ReadFault::Malformed),
    }
}

/// The value of a decimal number times 10^10.
pub(crate) fn scaled(reader: &Reader<'_>, k: usize) -> Result<u128, ReadFault>
    ensures { IfOk result (λ x. IsScaled (source_of reader.now) k x) }
{
    let Some(token) = reader.tokens.get(k) else {
        return Err(ReadFault::Malformed);
    };
    match &token.meaning {
        Meaning::Scaled(x) => Ok(*x),
        _ => Err(ReadFault::Malformed),
    }
}

/// The value of the day that a date names.
fn dated(date: CivilDate) -> Option<Value>
    ensures { result ≡ dated date }
{
    match date_of(
        i64::from(date.month),
        i64::from(date.day),
        i64::from(date.year),
    ) {
        Some(day) => Some(Value::Date(day)),
        None => None,
    }
}

/// The value of a date literal.
pub(crate) fn date_value(reader: &Reader<'_>, k: usize) -> Result<Value, ReadFault>
    ensures { IfOk result (λ v. IsDated (source_of reader.now) k v) }
{
    let Some(token) = reader.tokens.get(k) else {
        return Err(ReadFault::Malformed);
    };
    match &token.meaning {
        Meaning::Day(date) => {
            let found = dated(*date);
            match found {
                Some(value) => Ok(value),
                None => Err(ReadFault::Malformed),
            }
        }
        _ => Err(ReadFault::Malformed),
    }
}

/// A whole number as a value.
fn whole_value(x: u64) -> Result<Value, ReadFault>
    ensures { IfOk result (λ v. v ≡ value.Int64 (pos x)) }
{
    match i64::try_from(x) {
        Ok(n) => Ok(Value::Int64(n)),
        Err(_) => Err(ReadFault::Malformed),
    }
}

/// A decimal number times 10^10 as a value.
fn scaled_value(x: u128) -> Result<Value, ReadFault>
    ensures { IfOk result (λ v. v ≡ value.Dec (pos x)) }
{
    match i128::try_from(x) {
        Ok(n) => Ok(Value::Dec(n)),
        Err(_) => Err(ReadFault::Malformed),
    }
}

/// A number, a text or a date, and None where the node is none.
fn measured(reader: &Reader<'_>, n: usize) -> Result<Option<(Value, Place)>, ReadFault>
    ensures { IfOk result (λ found. IfSome found (λ r. IsConstant (source_of reader.now) n r.0 r.1)) }
{
    if let Some(k) = uses(reader, n, PRIMARY_WHOLE_NUMBER) {
        let x = whole(reader, k)?;
        let at = place(reader, k)?;
        let value = whole_value(x)?;
        return Ok(Some((value, at)));
    }
    if let Some(k) = uses(reader, n, PRIMARY_TEXT_LITERAL) {
        let word = text(reader, k)?;
        return Ok(Some((Value::Text(word.spelling), word.at)));
    }
    if let Some(k) = uses(reader, n, PRIMARY_DECIMAL_NUMBER) {
        let x = scaled(reader, k)?;
        let at = place(reader, k)?;
        let value = scaled_value(x)?;
        return Ok(Some((value, at)));
    }
    if let Some(k) = uses(reader, n, PRIMARY_DATE_LITERAL) {
        let value = date_value(reader, k)?;
        let at = place(reader, k)?;
        return Ok(Some((value, at)));
    }
    Ok(None)
}

/// A literal, and None where the node is none.
pub(crate) fn constant(reader: &Reader<'_>, n: usize) -> Result<Option<(Value, Place)>, ReadFault>
    ensures { IfOk result (λ found. IfSome found (λ r. IsConstant (source_of reader.now) n r.0 r.1)) }
{
    if let Some(k) = uses(reader, n, PRIMARY_YES) {
        let at = place(reader, k)?;
        return Ok(Some((Value::Logical(true), at)));
    }
    if let Some(k) = uses(reader, n, PRIMARY_NO) {
        let at = place(reader, k)?;
        return Ok(Some((Value::Logical(false), at)));
    }
    if let Some(k) = uses(reader, n, PRIMARY_TRUE) {
        let at = place(reader, k)?;
        return Ok(Some((Value::Logical(true), at)));
    }
    if let Some(k) = uses(reader, n, PRIMARY_FALSE) {
        let at = place(reader, k)?;
        return Ok(Some((Value::Logical(false), at)));
    }
    if let Some(k) = uses(reader, n, PRIMARY_QUESTION_MARK) {
        let at = place(reader, k)?;
        return Ok(Some((Value::Unknown, at)));
    }
    measured(reader, n)
}
