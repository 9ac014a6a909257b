//! Operators, functions and the names that AVAILABLE and LOCKED test.

ghost use Rattle.std.specs.Prelude.{◌≡◌, IfOk};
ghost use Rattle.syntax_reader.specs.Expressions.{IsComparison, IsFunction, IsOperator, IsTestedName};
ghost use Rattle.syntax_reader.specs.Views.{source_of};

use crate::nodes::{ReadFault, Reader, name, needs, place, uses};
use abl_base::Place;
use bound_tree::Binary;
use parse_tree::production::{
    COMPARISON_BEGINS, COMPARISON_EQ, COMPARISON_EQUALS, COMPARISON_GE, COMPARISON_GREATER,
    COMPARISON_GREATER_OR_EQUAL, COMPARISON_GT, COMPARISON_LE, COMPARISON_LESS,
    COMPARISON_LESS_OR_EQUAL, COMPARISON_LT, COMPARISON_NE, COMPARISON_NOT_EQUAL, FUNCTION_DATE,
    FUNCTION_DAY, FUNCTION_DECIMAL, FUNCTION_ENTRY, FUNCTION_INT64, FUNCTION_INTEGER,
    FUNCTION_LENGTH, FUNCTION_MONTH, FUNCTION_NUM_ENTRIES, FUNCTION_SUBSTRING, FUNCTION_YEAR,
    PLUS_OR_MINUS_MINUS, PLUS_OR_MINUS_PLUS, PRODUCT_SIGN_MODULO, PRODUCT_SIGN_SLASH,
    PRODUCT_SIGN_STAR, TESTED_NAME_LEFT_PARENTHESIS, TESTED_NAME_NAME,
};
use syntax_tree::{Function, Word};

/// The operator of a comparison, and its place.
pub(crate) fn comparison(reader: &Reader<'_>, n: usize) -> Result<(Binary, Place), ReadFault>
    ensures { IfOk result (λ r. IsComparison (source_of reader.now) n r.0 r.1) }
{
    if let Some(k) = uses(reader, n, COMPARISON_EQUALS) {
        let at = place(reader, k)?;
        return Ok((Binary::Equal, at));
    }
    if let Some(k) = uses(reader, n, COMPARISON_NOT_EQUAL) {
        let at = place(reader, k)?;
        return Ok((Binary::Unequal, at));
    }
    if let Some(k) = uses(reader, n, COMPARISON_LESS) {
        let at = place(reader, k)?;
        return Ok((Binary::Less, at));
    }
    if let Some(k) = uses(reader, n, COMPARISON_GREATER) {
        let at = place(reader, k)?;
        return Ok((Binary::Greater, at));
    }
    if let Some(k) = uses(reader, n, COMPARISON_LESS_OR_EQUAL) {
        let at = place(reader, k)?;
        return Ok((Binary::AtMost, at));
    }
    if let Some(k) = uses(reader, n, COMPARISON_GREATER_OR_EQUAL) {
        let at = place(reader, k)?;
        return Ok((Binary::AtLeast, at));
    }
    if let Some(k) = uses(reader, n, COMPARISON_BEGINS) {
        let at = place(reader, k)?;
        return Ok((Binary::Begins, at));
    }
    spelled_comparison(reader, n)
}

/// A comparison that is a keyword of two letters.
fn spelled_comparison(reader: &Reader<'_>, n: usize) -> Result<(Binary, Place), ReadFault>
    ensures { IfOk result (λ r. IsComparison (source_of reader.now) n r.0 r.1) }
{
    if let Some(k) = uses(reader, n, COMPARISON_EQ) {
        let at = place(reader, k)?;
        return Ok((Binary::Equal, at));
    }
    if let Some(k) = uses(reader, n, COMPARISON_NE) {
        let at = place(reader, k)?;
        return Ok((Binary::Unequal, at));
    }
    if let Some(k) = uses(reader, n, COMPARISON_LT) {
        let at = place(reader, k)?;
        return Ok((Binary::Less, at));
    }
    if let Some(k) = uses(reader, n, COMPARISON_GT) {
        let at = place(reader, k)?;
        return Ok((Binary::Greater, at));
    }
    if let Some(k) = uses(reader, n, COMPARISON_LE) {
        let at = place(reader, k)?;
        return Ok((Binary::AtMost, at));
    }
    if let Some(k) = uses(reader, n, COMPARISON_GE) {
        let at = place(reader, k)?;
        return Ok((Binary::AtLeast, at));
    }
    Err(ReadFault::Malformed)
}

/// The sign `+` or `-`, and its place.
pub(crate) fn plus_or_minus(reader: &Reader<'_>, n: usize) -> Result<(Binary, Place), ReadFault>
    ensures { IfOk result (λ r. IsOperator (source_of reader.now) n r.0 r.1) }
{
    if let Some(k) = uses(reader, n, PLUS_OR_MINUS_PLUS) {
        let at = place(reader, k)?;
        return Ok((Binary::Add, at));
    }
    if let Some(k) = uses(reader, n, PLUS_OR_MINUS_MINUS) {
        let at = place(reader, k)?;
        return Ok((Binary::Subtract, at));
    }
    Err(ReadFault::Malformed)
}

/// `*`, `/` or MODULO, and its place.
pub(crate) fn product_sign(reader: &Reader<'_>, n: usize) -> Result<(Binary, Place), ReadFault>
    ensures { IfOk result (λ r. IsOperator (source_of reader.now) n r.0 r.1) }
{
    if let Some(k) = uses(reader, n, PRODUCT_SIGN_STAR) {
        let at = place(reader, k)?;
        return Ok((Binary::Multiply, at));
    }
    if let Some(k) = uses(reader, n, PRODUCT_SIGN_SLASH) {
        let at = place(reader, k)?;
        return Ok((Binary::Divide, at));
    }
    if let Some(k) = uses(reader, n, PRODUCT_SIGN_MODULO) {
        let at = place(reader, k)?;
        return Ok((Binary::Modulo, at));
    }
    Err(ReadFault::Malformed)
}

/// A function.
pub(crate) fn function(reader: &Reader<'_>, n: usize) -> Result<Function, ReadFault>
    ensures { IfOk result (λ r. IsFunction (source_of reader.now) n r) }
{
    if let Some(k) = uses(reader, n, FUNCTION_INTEGER) {
        return Ok(Function::Integer);
    }
    if let Some(k) = uses(reader, n, FUNCTION_INT64) {
        return Ok(Function::Int64);
    }
    if let Some(k) = uses(reader, n, FUNCTION_DECIMAL) {
        return Ok(Function::Decimal);
    }
    if let Some(k) = uses(reader, n, FUNCTION_SUBSTRING) {
        return Ok(Function::Substring);
    }
    if let Some(k) = uses(reader, n, FUNCTION_LENGTH) {
        return Ok(Function::Length);
    }
    if let Some(k) = uses(reader, n, FUNCTION_ENTRY) {
        return Ok(Function::Entry);
    }
    other_function(reader, n)
}

/// NUM-ENTRIES or a function of dates.
fn other_function(reader: &Reader<'_>, n: usize) -> Result<Function, ReadFault>
    ensures { IfOk result (λ r. IsFunction (source_of reader.now) n r) }
{
    if let Some(k) = uses(reader, n, FUNCTION_NUM_ENTRIES) {
        return Ok(Function::NumEntries);
    }
    if let Some(k) = uses(reader, n, FUNCTION_DATE) {
        return Ok(Function::Date);
    }
    if let Some(k) = uses(reader, n, FUNCTION_YEAR) {
        return Ok(Function::Year);
    }
    if let Some(k) = uses(reader, n, FUNCTION_MONTH) {
        return Ok(Function::Month);
    }
    if let Some(k) = uses(reader, n, FUNCTION_DAY) {
        return Ok(Function::Day);
    }
    Err(ReadFault::Malformed)
}

/// The name of a buffer, in parentheses or not.
pub(crate) fn tested_name(reader: &Reader<'_>, n: usize) -> Result<Word, ReadFault>
    ensures { IfOk result (λ r. IsTestedName (source_of reader.now) n r) }
{
    if let Some(k) = uses(reader, n, TESTED_NAME_NAME) {
        let word = name(reader, k)?;
        return Ok(word);
    }
    let k = needs(reader, n, TESTED_NAME_LEFT_PARENTHESIS)?;
    let word = name(reader, k + 1)?;
    Ok(word)
}
