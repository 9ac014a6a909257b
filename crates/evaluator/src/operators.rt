//! Comparisons, signs, NOT, AND, OR and conditions (OpenEdge ABL Reference, each operator by its
//! name).

ghost use Rattle.std.specs.Prelude.{◌≡◌, Ok, false};
ghost use Rattle.expression_meaning.specs.Operators.{and_then, at_least, at_most, compared_as, equals, greater, holds, is_unknown, less, negative, opposite, or_else, positive};
ghost use Rattle.evaluator.specs.Gives.{Gives, held_value, is_no};

use crate::arguments::is_unknown;
use crate::fault::{EvalFault, ranged};
use crate::held::Held;
use abl_base::Value;
use abl_values::{add, compare, subtract};
use std::alloc::Global;
use std::cmp::Ordering;

/// `=`: `?` equals `?` and nothing else.
pub(crate) fn equals(a: &Value, b: &Value) -> bool
    ensures { result ≡ equals a.now b.now }
{
    matches!(compare(a, b), Ordering::Equal)
}

/// `<`.
pub(crate) fn less(a: &Value, b: &Value) -> Value
    ensures { result ≡ less a.now b.now }
{
    compared(a, b, false, matches!(compare(a, b), Ordering::Less))
}

/// `>`.
pub(crate) fn greater(a: &Value, b: &Value) -> Value
    ensures { result ≡ greater a.now b.now }
{
    compared(a, b, false, matches!(compare(a, b), Ordering::Greater))
}

/// `<=`: yes between `?` and `?`, and `?` where one side alone is `?`.
pub fn at_most(a: &Value, b: &Value) -> Value
    ensures { result ≡ at_most a.now b.now }
{
    compared(
        a,
        b,
        true,
        matches!(compare(a, b), Ordering::Less | Ordering::Equal),
    )
}

/// `>=`: yes between `?` and `?`, and `?` where one side alone is `?`.
pub fn at_least(a: &Value, b: &Value) -> Value
    ensures { result ≡ at_least a.now b.now }
{
    compared(
        a,
        b,
        true,
        matches!(compare(a, b), Ordering::Greater | Ordering::Equal),
    )
}

/// A comparison by order that is `both` where both sides are `?`, and `?` where one is.
fn compared(a: &Value, b: &Value, both: bool, holds: bool) -> Value
    ensures { result ≡ compared_as (is_unknown a.now) (is_unknown b.now) both holds }
{
    match (is_unknown(a), is_unknown(b)) {
        (true, true) => Value::Logical(both),
        (false, false) => Value::Logical(holds),
        (true, false) | (false, true) => Value::Unknown,
    }
}

/// The sign `+`.
pub(crate) fn positive(alloc: Global, value: &Value) -> Result<Value, EvalFault>
    ensures { Gives result (positive value.now) }
{
    ranged(add(alloc, &Value::Int64(0), value))
}

/// The sign `-`.
pub(crate) fn negative(value: &Value) -> Result<Value, EvalFault>
    ensures { Gives result (negative value.now) }
{
    ranged(subtract(&Value::Int64(0), value))
}

/// NOT.
pub(crate) fn opposite(value: &Value) -> Value
    ensures { result ≡ opposite value.now }
{
    match value {
        Value::Logical(yes) => Value::Logical(!*yes),
        _ => Value::Unknown,
    }
}

/// Whether a condition holds, as of IF, WHILE and WHERE: it is yes. `?` counts as no.
pub fn holds(value: &Value) -> bool
    ensures { result ≡ holds value.now }
{
    match value {
        Value::Logical(yes) => *yes,
        _ => false,
    }
}

/// Whether the value is no.
pub(crate) fn is_no(value: &Value) -> bool
    ensures { result ≡ is_no value.now }
{
    matches!(value, Value::Logical(false))
}

/// Whether the value is yes.
pub(crate) fn is_yes(value: &Value) -> bool
    ensures { result ≡ holds value.now }
{
    matches!(value, Value::Logical(true))
}

/// AND of two values, where the first is not no.
pub(crate) fn conjunction<'a>(a: &Value, b: Held<'a>) -> Held<'a>
    ensures { is_no a.now ≡ false → and_then a.now (Ok (held_value b.entry)) ≡ Ok (held_value result) }
{
    match a {
        Value::Logical(_) => b,
        _ => Held::Own(Value::Unknown),
    }
}

/// OR of two values, where the first is not yes.
pub(crate) fn disjunction<'a>(a: &Value, b: Held<'a>) -> Held<'a>
    ensures { holds a.now ≡ false → or_else a.now (Ok (held_value b.entry)) ≡ Ok (held_value result) }
{
    match a {
        Value::Logical(_) => b,
        _ => Held::Own(Value::Unknown),
    }
}
