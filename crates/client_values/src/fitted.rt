//! A value as a variable takes it.

ghost use Rattle.std.specs.Prelude.{◌≡◌, Result};
ghost use Rattle.abl_base.specs.declared.value.Value.{Value};
ghost use Rattle.abl_values.specs.declared.arithmetic.ArithFault.{ArithFault};
ghost use Rattle.abl_values.specs.Arithmetic.{IsUnlessNoMemory, sum_of, text_in_range};
ghost use Rattle.block_meaning.specs.Values.{fit as fits, or_range};
ghost use Rattle.client_values.specs.Ends.{Evaluates};

use abl_base::{Bytes, Kind, MAX_TEXT_BYTES, Value};
use abl_values::{ArithFault, add, fit};
use evaluator::EvalFault;
use expression_meaning::RunFault;
use std::alloc::Global;

/// The value as a variable of the kind takes it; a text is moved and not copied. An overflow is a
/// fault of range.
pub fn fitted(alloc: Global, value: Value, kind: Kind) -> Result<Value, EvalFault>
    ensures { Evaluates result (fits kind value) }
{
    match value {
        Value::Text(text) => fitted_text(text, kind),
        other => in_range(fit(alloc, &other, kind)),
    }
}

/// A text as a variable of the kind takes it.
#[tactic(auto, unfolding(abl_values::specs::Fit::fitted))]
fn fitted_text(text: Bytes, kind: Kind) -> Result<Value, EvalFault>
    ensures { Evaluates result (fits kind (Value.Text text)) }
{
    match kind {
        Kind::Character => kept_text(text),
        Kind::Integer | Kind::Int64 | Kind::Decimal | Kind::Logical | Kind::Date => {
            Ok(Value::Unknown)
        }
    }
}

/// A text that must not be too long.
fn kept_text(text: Bytes) -> Result<Value, EvalFault>
    ensures { Evaluates result (or_range (text_in_range text)) }
{
    if text.len() > MAX_TEXT_BYTES {
        return Err(EvalFault::Fault(RunFault::Range));
    }
    Ok(Value::Text(text))
}

/// The sum of the loop variable and BY.
pub fn next_value(alloc: Global, value: &Value, by: &Value) -> Result<Value, EvalFault>
    ensures { Evaluates result (or_range (sum_of value.now by.now)) }
{
    in_range(add(alloc, value, by))
}

/// An overflow is a fault of range.
fn in_range(outcome: Result<Value, ArithFault>) -> Result<Value, EvalFault>
    ensures { (expected : Result Value ArithFault) → IsUnlessNoMemory outcome expected → Evaluates result (or_range expected) }
{
    match outcome {
        Ok(value) => Ok(value),
        Err(ArithFault::Overflow) => Err(EvalFault::Fault(RunFault::Range)),
        Err(ArithFault::NoMemory) => Err(EvalFault::NoMemory),
    }
}
