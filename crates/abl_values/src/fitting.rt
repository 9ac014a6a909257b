//! Values made to fit a kind.

ghost use Rattle.std.specs.Prelude.{◌≡◌};
ghost use Rattle.abl_values.specs.Arithmetic.{IsUnlessNoMemory, text_in_range};
ghost use Rattle.abl_values.specs.Fit.{default_initial, fitted, small_in_range};

use crate::arithmetic::{ArithFault, date_in_range, scaled, whole_in_range};
use crate::rounding::rounded_whole;
use abl_base::{Items, Kind, MAX_TEXT_BYTES, Value};
use std::alloc::Global;

/// The value as a target of the kind takes it. `?` fits every kind, and a number every kind of
/// number: a decimal that goes into a whole kind is rounded, a half away from zero. A value of
/// another kind, which no program stores, gives `?`. Overflow comes exactly where the value leaves
/// the range of the kind: 32 bits, 64 bits, 128 bits of a stored decimal, 30,000 bytes of a text,
/// or the years 1 to 9999. (OpenEdge ABL Reference, Assignment; the rounding is this project's
/// choice.)
#[tactic(auto, unfolding(crate::specs::Fit::fitted))]
pub fn fit(alloc: Global, v: &Value, kind: Kind) -> Result<Value, ArithFault>
    ensures { IsUnlessNoMemory result (fitted v.now kind) }
{
    match v {
        Value::Text(text) => fit_text(alloc, text.as_slice(), kind),
        Value::Int(n) => fit_whole(i64::from(*n), kind),
        Value::Int64(n) => fit_whole(*n, kind),
        Value::Dec(n) => fit_decimal(*n, kind),
        Value::Logical(b) => match kind {
            Kind::Logical => Ok(Value::Logical(*b)),
            Kind::Character | Kind::Integer | Kind::Int64 | Kind::Decimal | Kind::Date => {
                Ok(Value::Unknown)
            }
        },
        Value::Date(day) => match kind {
            Kind::Date => date_in_range(i128::from(*day)),
            Kind::Character | Kind::Integer | Kind::Int64 | Kind::Decimal | Kind::Logical => {
                Ok(Value::Unknown)
            }
        },
        Value::Unknown => Ok(Value::Unknown),
    }
}

/// The initial value of a field or variable without INITIAL: empty, 0, no, and `?` for a DATE.
pub fn default_initial(alloc: Global, kind: Kind) -> Value
    ensures { result ≡ default_initial kind }
{
    match kind {
        Kind::Character => Value::Text(Items::empty(alloc)),
        Kind::Integer => Value::Int(0),
        Kind::Int64 => Value::Int64(0),
        Kind::Decimal => Value::Dec(0),
        Kind::Logical => Value::Logical(false),
        Kind::Date => Value::Unknown,
    }
}

/// A text as a target of the kind takes it.
#[tactic(auto, unfolding(crate::specs::Fit::fitted))]
fn fit_text(alloc: Global, text: &[u8], kind: Kind) -> Result<Value, ArithFault>
    ensures { IsUnlessNoMemory result (fitted (Value.Text text.now) kind) }
{
    match kind {
        Kind::Character => kept_text(alloc, text),
        Kind::Integer | Kind::Int64 | Kind::Decimal | Kind::Logical | Kind::Date => {
            Ok(Value::Unknown)
        }
    }
}

/// A text that must not be too long.
fn kept_text(alloc: Global, text: &[u8]) -> Result<Value, ArithFault>
    ensures { IsUnlessNoMemory result (text_in_range text.now) }
{
    if text.len() > MAX_TEXT_BYTES {
        return Err(ArithFault::Overflow);
    }
    match Items::of(alloc, text) {
        Ok(kept) => Ok(Value::Text(kept)),
        Err(_) => Err(ArithFault::NoMemory),
    }
}

/// A whole number as a target of the kind takes it.
#[tactic(auto, unfolding(crate::specs::Fit::fitted))]
fn fit_whole(n: i64, kind: Kind) -> Result<Value, ArithFault>
    ensures { result ≡ fitted (Value.Int64 n) kind }
{
    match kind {
        Kind::Integer => small_in_range(i128::from(n)),
        Kind::Int64 => Ok(Value::Int64(n)),
        Kind::Decimal => Ok(Value::Dec(scaled(n))),
        Kind::Character | Kind::Logical | Kind::Date => Ok(Value::Unknown),
    }
}

/// A decimal as a target of the kind takes it.
#[tactic(auto, unfolding(crate::specs::Fit::fitted))]
fn fit_decimal(n: i128, kind: Kind) -> Result<Value, ArithFault>
    ensures { result ≡ fitted (Value.Dec n) kind }
{
    match kind {
        Kind::Integer => small_in_range(rounded_whole(n)),
        Kind::Int64 => whole_in_range(rounded_whole(n)),
        Kind::Decimal => Ok(Value::Dec(n)),
        Kind::Character | Kind::Logical | Kind::Date => Ok(Value::Unknown),
    }
}

/// A number that must stay in 32 bits.
fn small_in_range(n: i128) -> Result<Value, ArithFault>
    ensures { result ≡ small_in_range n }
{
    match i32::try_from(n) {
        Ok(n) => Ok(Value::Int(n)),
        Err(_) => Err(ArithFault::Overflow),
    }
}
