//! DATE, YEAR, MONTH and DAY (OpenEdge ABL Reference, each by its name).

ghost use Rattle.std.specs.Prelude.{◌≡◌};
ghost use Rattle.expression_meaning.specs.Functions.{date_of, day_in, of_date, whole_in};
ghost use Rattle.evaluator.specs.Gives.{Gives};

use crate::arguments::{day_in, whole_in};
use crate::fault::EvalFault;
use abl_base::Value;
use abl_values::date_parts;
use expression_meaning::RunFault;

/// DATE(month, day, year).
pub(crate) fn date_of(month: &Value, day: &Value, year: &Value) -> Result<Value, EvalFault>
    ensures { Gives result (date_of (whole_in month.now) (whole_in day.now) (whole_in year.now)) }
{
    match (whole_in(month), whole_in(day), whole_in(year)) {
        (Some(month), Some(day), Some(year)) => match abl_values::date_of(month, day, year) {
            Some(day) => Ok(Value::Date(day)),
            None => Err(EvalFault::Fault(RunFault::Argument)),
        },
        _ => Ok(Value::Unknown),
    }
}

/// YEAR(date).
pub(crate) fn year_of(value: &Value) -> Value
    ensures { result ≡ of_date (λ d. d.year) (day_in value.now) }
{
    match day_in(value) {
        Some(day) => Value::Int64(date_parts(day).2),
        None => Value::Unknown,
    }
}

/// MONTH(date).
pub(crate) fn month_of(value: &Value) -> Value
    ensures { result ≡ of_date (λ d. d.month) (day_in value.now) }
{
    match day_in(value) {
        Some(day) => Value::Int64(date_parts(day).0),
        None => Value::Unknown,
    }
}

/// DAY(date).
pub(crate) fn day_of_month(value: &Value) -> Value
    ensures { result ≡ of_date (λ d. d.day) (day_in value.now) }
{
    match day_in(value) {
        Some(day) => Value::Int64(date_parts(day).1),
        None => Value::Unknown,
    }
}
