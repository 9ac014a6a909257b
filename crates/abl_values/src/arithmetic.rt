//! The operators on values. Where a rule below has no other source, it is this project's choice.

ghost use Rattle.std.specs.Prelude.{◌≡◌, ◌++◌, ◌+ℤ◌, ◌-ℤ◌, ◌*ℤ◌, pos};
ghost use Rattle.abl_values.specs.Arithmetic.{date_in_range, decimal_in_range, decimal_product, decimal_quotient, difference, difference_of, IsUnlessNoMemory, operand, product, product_of, quotient, quotient_of, remainder, remainder_of, sum, sum_of, text_in_range, whole_in_range, whole_remainder};
ghost use Rattle.abl_values.specs.Arithmetic.{day, decimal, whole};
ghost use Rattle.abl_values.specs.Order.{scaled};

use crate::dates::is_day;
use crate::rounding::{rounded_quotient_in_range, rounded_whole};
use abl_base::limits::DECIMAL_SCALE;
use abl_base::{Items, MAX_TEXT_BYTES, Value};
use std::alloc::Global;

/// Why an operator has no value.
#[derive(Clone, Copy, Debug, PartialEq, Eq)]
pub enum ArithFault {
    /// The result leaves its range.
    Overflow,
    /// There is no memory for the text.
    NoMemory,
}

/// The sum of two numbers, the text of two texts one after the other, or the day a number of days
/// after a date. An operand `?` gives `?`, and so do operands of kinds that no program adds.
/// Overflow comes exactly where whole numbers leave 64 bits, decimals as they are stored leave 128
/// bits, a day leaves the years 1 to 9999, or a text passes 30,000 bytes. (OpenEdge ABL Reference,
/// the operators `+`.)
#[tactic(auto, unfolding(crate::specs::Arithmetic::sum_of))]
pub fn add(alloc: Global, a: &Value, b: &Value) -> Result<Value, ArithFault>
    ensures { IsUnlessNoMemory result (sum_of a.now b.now) }
{
    match a {
        Value::Text(s) => match b {
            Value::Text(t) => joined(alloc, s.as_slice(), t.as_slice()),
            Value::Int(_)
            | Value::Int64(_)
            | Value::Dec(_)
            | Value::Logical(_)
            | Value::Date(_)
            | Value::Unknown => Ok(Value::Unknown),
        },
        Value::Int(n) => add_to_whole(i64::from(*n), b),
        Value::Int64(n) => add_to_whole(*n, b),
        Value::Dec(n) => add_to_decimal(*n, b),
        Value::Date(day) => add_to_day(*day, b),
        Value::Logical(_) | Value::Unknown => Ok(Value::Unknown),
    }
}

/// The difference of two numbers, the day a number of days before a date, or the days from one date to
/// another. An operand `?` gives `?`, and so do operands of kinds that no program subtracts.
/// Overflow comes exactly where it does at `add`. (OpenEdge ABL Reference, the operators `-`.)
#[tactic(auto, unfolding(crate::specs::Arithmetic::difference_of))]
pub fn subtract(a: &Value, b: &Value) -> Result<Value, ArithFault>
    ensures { result ≡ difference_of a.now b.now }
{
    match a {
        Value::Int(n) => subtract_from_whole(i64::from(*n), b),
        Value::Int64(n) => subtract_from_whole(*n, b),
        Value::Dec(n) => subtract_from_decimal(*n, b),
        Value::Date(day) => subtract_from_day(*day, b),
        Value::Text(_) | Value::Logical(_) | Value::Unknown => Ok(Value::Unknown),
    }
}

/// The product of two numbers. A decimal one is rounded to ten decimals, a half away from zero. An
/// operand `?` gives `?`, and so do operands of kinds that no program multiplies. Overflow comes
/// exactly where whole numbers leave 64 bits, or the product of two decimals as they are stored
/// leaves 128 bits. (OpenEdge ABL Reference, the operator `*`.)
#[tactic(auto, unfolding(crate::specs::Arithmetic::product_of))]
pub fn multiply(a: &Value, b: &Value) -> Result<Value, ArithFault>
    ensures { result ≡ product_of a.now b.now }
{
    match a {
        Value::Int(n) => multiply_whole(i64::from(*n), b),
        Value::Int64(n) => multiply_whole(*n, b),
        Value::Dec(n) => multiply_decimal(*n, b),
        Value::Text(_) | Value::Logical(_) | Value::Date(_) | Value::Unknown => Ok(Value::Unknown),
    }
}

/// The quotient of two numbers, always a decimal, rounded to ten decimals, a half away from zero.
/// An operand `?` gives `?`, and so do a zero divisor and operands of kinds that no program
/// divides. Overflow comes exactly where the divisor is not zero and the dividend as it is stored
/// times 10^10 leaves 128 bits. (OpenEdge ABL Reference, the operator `/`.)
#[tactic(auto, unfolding(crate::specs::Arithmetic::quotient_of))]
pub fn divide(a: &Value, b: &Value) -> Result<Value, ArithFault>
    ensures { result ≡ quotient_of a.now b.now }
{
    match a {
        Value::Int(n) => divide_decimal(scaled(i64::from(*n)), b),
        Value::Int64(n) => divide_decimal(scaled(*n), b),
        Value::Dec(n) => divide_decimal(*n, b),
        Value::Text(_) | Value::Logical(_) | Value::Date(_) | Value::Unknown => Ok(Value::Unknown),
    }
}

/// The remainder of two whole numbers, with the sign of the dividend. An operand `?` gives `?`, and
/// so do a zero divisor and operands that are no whole numbers. It never overflows. (OpenEdge ABL
/// Reference, the operator `MODULO`; the sign is this project's choice.)
#[tactic(auto, unfolding(crate::specs::Arithmetic::remainder_of))]
pub fn modulo(a: &Value, b: &Value) -> Result<Value, ArithFault>
    ensures { result ≡ remainder_of a.now b.now }
{
    match a {
        Value::Int(n) => remainder_of_whole(i64::from(*n), b),
        Value::Int64(n) => remainder_of_whole(*n, b),
        Value::Text(_) | Value::Dec(_) | Value::Logical(_) | Value::Date(_) | Value::Unknown => Ok(
            Value::Unknown,
        ),
    }
}

/// Two texts as one.
fn joined(alloc: Global, s: &[u8], t: &[u8]) -> Result<Value, ArithFault>
    ensures { IsUnlessNoMemory result (text_in_range (s.now ++ t.now)) }
{
    if s.len() > MAX_TEXT_BYTES || t.len() > MAX_TEXT_BYTES - s.len() {
        return Err(ArithFault::Overflow);
    }
    let Ok(mut text) = Vec::with_capacity(alloc, s.len() + t.len()) else {
        return Err(ArithFault::NoMemory);
    };
    match text.extend_from_slice(s) {
        Ok(()) => match text.extend_from_slice(t) {
            Ok(()) => Ok(Value::Text(Items::from_vec(text))),
            Err(_) => Err(ArithFault::NoMemory),
        },
        Err(_) => Err(ArithFault::NoMemory),
    }
}

/// A whole number plus a value.
fn add_to_whole(x: i64, b: &Value) -> Result<Value, ArithFault>
    ensures { result ≡ sum (whole x) (operand b.now) }
{
    match b {
        Value::Int(y) => whole_in_range(i128::from(x) + i128::from(*y)),
        Value::Int64(y) => whole_in_range(i128::from(x) + i128::from(*y)),
        Value::Dec(y) => decimal_sum(scaled(x), *y),
        Value::Text(_) | Value::Logical(_) | Value::Date(_) | Value::Unknown => Ok(Value::Unknown),
    }
}

/// A decimal plus a value.
fn add_to_decimal(x: i128, b: &Value) -> Result<Value, ArithFault>
    ensures { result ≡ sum (decimal x) (operand b.now) }
{
    match b {
        Value::Int(y) => decimal_sum(x, scaled(i64::from(*y))),
        Value::Int64(y) => decimal_sum(x, scaled(*y)),
        Value::Dec(y) => decimal_sum(x, *y),
        Value::Text(_) | Value::Logical(_) | Value::Date(_) | Value::Unknown => Ok(Value::Unknown),
    }
}

/// A date plus a value.
fn add_to_day(x: i32, b: &Value) -> Result<Value, ArithFault>
    ensures { result ≡ sum (day x) (operand b.now) }
{
    match b {
        Value::Int(y) => date_in_range(i128::from(x) + i128::from(*y)),
        Value::Int64(y) => date_in_range(i128::from(x) + i128::from(*y)),
        Value::Text(_) | Value::Dec(_) | Value::Logical(_) | Value::Date(_) | Value::Unknown => Ok(
            Value::Unknown,
        ),
    }
}

/// A whole number less a value.
fn subtract_from_whole(x: i64, b: &Value) -> Result<Value, ArithFault>
    ensures { result ≡ difference (whole x) (operand b.now) }
{
    match b {
        Value::Int(y) => whole_in_range(i128::from(x) - i128::from(*y)),
        Value::Int64(y) => whole_in_range(i128::from(x) - i128::from(*y)),
        Value::Dec(y) => decimal_difference(scaled(x), *y),
        Value::Text(_) | Value::Logical(_) | Value::Date(_) | Value::Unknown => Ok(Value::Unknown),
    }
}

/// A decimal less a value.
fn subtract_from_decimal(x: i128, b: &Value) -> Result<Value, ArithFault>
    ensures { result ≡ difference (decimal x) (operand b.now) }
{
    match b {
        Value::Int(y) => decimal_difference(x, scaled(i64::from(*y))),
        Value::Int64(y) => decimal_difference(x, scaled(*y)),
        Value::Dec(y) => decimal_difference(x, *y),
        Value::Text(_) | Value::Logical(_) | Value::Date(_) | Value::Unknown => Ok(Value::Unknown),
    }
}

/// A date less a value.
fn subtract_from_day(x: i32, b: &Value) -> Result<Value, ArithFault>
    ensures { result ≡ difference (day x) (operand b.now) }
{
    match b {
        Value::Int(y) => days_before(x, i64::from(*y)),
        Value::Int64(y) => days_before(x, *y),
        Value::Date(y) => whole_in_range(i128::from(x) - i128::from(*y)),
        Value::Text(_) | Value::Dec(_) | Value::Logical(_) | Value::Unknown => Ok(Value::Unknown),
    }
}

/// A whole number times a value.
fn multiply_whole(x: i64, b: &Value) -> Result<Value, ArithFault>
    ensures { result ≡ product (whole x) (operand b.now) }
{
    match b {
        Value::Int(y) => whole_product(x, i64::from(*y)),
        Value::Int64(y) => whole_product(x, *y),
        Value::Dec(y) => decimal_product(scaled(x), *y),
        Value::Text(_) | Value::Logical(_) | Value::Date(_) | Value::Unknown => Ok(Value::Unknown),
    }
}

/// A decimal times a value.
fn multiply_decimal(x: i128, b: &Value) -> Result<Value, ArithFault>
    ensures { result ≡ product (decimal x) (operand b.now) }
{
    match b {
        Value::Int(y) => decimal_product(x, scaled(i64::from(*y))),
        Value::Int64(y) => decimal_product(x, scaled(*y)),
        Value::Dec(y) => decimal_product(x, *y),
        Value::Text(_) | Value::Logical(_) | Value::Date(_) | Value::Unknown => Ok(Value::Unknown),
    }
}

/// A decimal divided by a value.
fn divide_decimal(x: i128, b: &Value) -> Result<Value, ArithFault>
    ensures { result ≡ quotient (decimal x) (operand b.now) }
{
    match b {
        Value::Int(y) => decimal_quotient(x, scaled(i64::from(*y))),
        Value::Int64(y) => decimal_quotient(x, scaled(*y)),
        Value::Dec(y) => decimal_quotient(x, *y),
        Value::Text(_) | Value::Logical(_) | Value::Date(_) | Value::Unknown => Ok(Value::Unknown),
    }
}

/// The remainder of a whole number by a value.
fn remainder_of_whole(x: i64, b: &Value) -> Result<Value, ArithFault>
    ensures { result ≡ remainder (whole x) (operand b.now) }
{
    match b {
        Value::Int(y) => whole_remainder(x, i64::from(*y)),
        Value::Int64(y) => whole_remainder(x, *y),
        Value::Text(_) | Value::Dec(_) | Value::Logical(_) | Value::Date(_) | Value::Unknown => Ok(
            Value::Unknown,
        ),
    }
}

/// A whole number as a decimal is stored.
pub(crate) fn scaled(n: i64) -> i128
    ensures { result ≡ scaled n }
{
    i128::from(n) * DECIMAL_SCALE as i128
}

/// A whole number that must stay in its range.
pub(crate) fn whole_in_range(n: i128) -> Result<Value, ArithFault>
    ensures { result ≡ whole_in_range n }
{
    match i64::try_from(n) {
        Ok(n) => Ok(Value::Int64(n)),
        Err(_) => Err(ArithFault::Overflow),
    }
}

/// A day that must stay in the years 1 to 9999.
pub(crate) fn date_in_range(day: i128) -> Result<Value, ArithFault>
    ensures { result ≡ date_in_range day }
{
    match i32::try_from(day) {
        Ok(day) if is_day(i64::from(day)) => Ok(Value::Date(day)),
        _ => Err(ArithFault::Overflow),
    }
}

/// The day a number of days before another.
fn days_before(day: i32, days: i64) -> Result<Value, ArithFault>
    ensures { result ≡ date_in_range (day -ℤ days) }
{
    date_in_range(i128::from(day) - i128::from(days))
}

/// The sum of two decimals.
fn decimal_sum(x: i128, y: i128) -> Result<Value, ArithFault>
    ensures { result ≡ decimal_in_range (x +ℤ y) }
{
    match x.checked_add(y) {
        Some(n) => Ok(Value::Dec(n)),
        None => Err(ArithFault::Overflow),
    }
}

/// The difference of two decimals.
fn decimal_difference(x: i128, y: i128) -> Result<Value, ArithFault>
    ensures { result ≡ decimal_in_range (x -ℤ y) }
{
    match x.checked_sub(y) {
        Some(n) => Ok(Value::Dec(n)),
        None => Err(ArithFault::Overflow),
    }
}

/// The product of two whole numbers.
fn whole_product(x: i64, y: i64) -> Result<Value, ArithFault>
    ensures { result ≡ whole_in_range (x *ℤ y) }
{
    match x.checked_mul(y) {
        Some(n) => Ok(Value::Int64(n)),
        None => Err(ArithFault::Overflow),
    }
}

/// The product of two decimals.
fn decimal_product(x: i128, y: i128) -> Result<Value, ArithFault>
    ensures { result ≡ decimal_product x y }
{
    match x.checked_mul(y) {
        Some(n) => Ok(Value::Dec(rounded_whole(n))),
        None => Err(ArithFault::Overflow),
    }
}

/// The quotient of two decimals.
fn decimal_quotient(x: i128, y: i128) -> Result<Value, ArithFault>
    ensures { result ≡ decimal_quotient x y }
{
    if y == 0 {
        return Ok(Value::Unknown);
    }
    match x.checked_mul(DECIMAL_SCALE as i128) {
        Some(n) => rounded_quotient_in_range(n, y),
        None => Err(ArithFault::Overflow),
    }
}

/// The remainder of two whole numbers.
fn whole_remainder(x: i64, y: i64) -> Result<Value, ArithFault>
    ensures { result ≡ whole_remainder x y }
{
    if y == 0 {
        return Ok(Value::Unknown);
    }
    if y == -1 {
        return Ok(Value::Int64(0));
    }
    Ok(Value::Int64(x % y))
}
