//! An argument of a function, by its kind.

ghost use Rattle.std.specs.Prelude.{◌≡◌, MatchOption, Some, None};
ghost use Rattle.expression_meaning.specs.Functions.{day_in, text_in, whole_in};
ghost use Rattle.expression_meaning.specs.Operators.{is_unknown};

use abl_base::Value;

/// Whether the value is `?`.
pub(crate) fn is_unknown(value: &Value) -> bool
    ensures { result ≡ is_unknown value.now }
{
    matches!(value, Value::Unknown)
}

/// A text.
pub(crate) fn text_in(value: &Value) -> Option<&[u8]>
    ensures { MatchOption result (text_in value.now ≡ None) (λ text. text_in value.now ≡ Some text.now) }
{
    match value {
        Value::Text(text) => Some(text.as_slice()),
        _ => None,
    }
}

/// A whole number.
pub(crate) fn whole_in(value: &Value) -> Option<i64>
    ensures { result ≡ whole_in value.now }
{
    match value {
        Value::Int(n) => Some(i64::from(*n)),
        Value::Int64(n) => Some(*n),
        _ => None,
    }
}

/// The day of a date.
pub(crate) fn day_in(value: &Value) -> Option<i32>
    ensures { result ≡ day_in value.now }
{
    match value {
        Value::Date(day) => Some(*day),
        _ => None,
    }
}
