//! INTEGER, INT64, DECIMAL and STRING (OpenEdge ABL Reference, each by its name).

ghost use Rattle.std.specs.Prelude.{Ok};
ghost use Rattle.text_values.specs.TextValues.{number_in};
ghost use Rattle.value_formats.specs.Masked.{masked};
ghost use Rattle.expression_meaning.specs.Functions.{as_masked, as_text, converted};
ghost use Rattle.evaluator.specs.Gives.{Gives};

use crate::arguments::is_unknown;
use crate::fault::{EvalFault, ranged};
use abl_base::{Kind, Value};
use abl_values::fit;
use expression_meaning::RunFault;
use std::alloc::Global;
use value_formats::{masked, number_in, plain};

/// A number, or the number that a text denotes, as a number of the kind.
pub(crate) fn converted(alloc: Global, kind: Kind, value: &Value) -> Result<Value, EvalFault>
    ensures { Gives result (converted number_in kind value.now) }
{
    match value {
        Value::Text(text) => match number_in(text.as_slice()) {
            Some(n) => ranged(fit(alloc, &Value::Dec(n), kind)),
            None => Err(EvalFault::Fault(RunFault::Convert)),
        },
        _ => ranged(fit(alloc, value, kind)),
    }
}

/// STRING(value).
pub(crate) fn as_text(alloc: Global, value: &Value) -> Result<Value, EvalFault>
    ensures { Gives result (Ok (as_text value.now)) }
{
    if is_unknown(value) {
        return Ok(Value::Unknown);
    }
    Ok(Value::Text(plain(alloc, value)?))
}

/// STRING(value, mask).
pub(crate) fn as_masked(alloc: Global, value: &Value, mask: &[u8]) -> Result<Value, EvalFault>
    ensures { Gives result (Ok (as_masked masked mask.now value.now)) }
{
    if is_unknown(value) {
        return Ok(Value::Unknown);
    }
    Ok(Value::Text(masked(alloc, mask, value)?))
}
