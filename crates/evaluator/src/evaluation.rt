//! What an expression gives (OpenEdge ABL Reference, Expressions).

ghost use Rattle.std.specs.Prelude.{◌≡◌, IfOk, Ok, Err};
ghost use Rattle.bound_tree.specs.Bound.{expr_of};
ghost use Rattle.expression_meaning.specs.declared.fault.RunFault.{RunFault};
ghost use Rattle.abl_base.specs.text_forms.TextForms.{TextForms};
ghost use Rattle.expression_meaning.specs.Evaluate.{as_kind, evaluate, field_or, literal, one_of, three_of, two_of};
ghost use Rattle.abl_base.specs.declared.value.Value.TheVariants.{Logical, Text};
ghost use Rattle.expression_meaning.specs.Operators.{Given};
ghost use Rattle.evaluator.specs.Chains.{chain_from, linked};
ghost use Rattle.evaluator.specs.Forms.{AreForms, the_forms};
ghost use Rattle.evaluator.specs.Gives.{Gives, Holds, held_value};

use crate::conversions::{as_masked, as_text, converted};
use crate::dates::{date_of, day_of_month, month_of, year_of};
use crate::entries::{entry, num_entries};
use crate::fault::{EvalFault, ranged};
use crate::held::Held;
use crate::operators::{
    at_least, at_most, conjunction, disjunction, equals, greater, holds, is_no, is_yes, less,
    negative, opposite, positive,
};
use crate::surroundings::Surroundings;
use crate::texts::{begins, length, substring};
use abl_base::{Items, Kind, MAX_TEXT_BYTES, Value};
use abl_values::{add, divide, fit, modulo, multiply, subtract};
use bound_tree::{Binary, Expr, Link, Operator, Ternary, Unary};
use expression_meaning::RunFault;
use std::alloc::Global;

/// What the expression gives in these surroundings: its value, or the fault that comes first from
/// left to right. Out of memory may come instead.
pub fn evaluate<S: Surroundings>(
    alloc: Global,
    surroundings: &S,
    expression: &Expr,
) -> Result<Value, EvalFault>
    ensures value { IfOk result (λ v. (forms : TextForms) → AreForms forms
        → evaluate forms (S.env surroundings.now) (expr_of expression.now) ≡ Ok v) }
    ensures fault { (fault : RunFault) → result ≡ Err (EvalFault.Fault fault) → (forms : TextForms) → AreForms forms
        → evaluate forms (S.env surroundings.now) (expr_of expression.now) ≡ Err fault }
{
    value_of(alloc, surroundings, expression)
}

/// What the expression gives, as a value of its own.
fn value_of<S: Surroundings>(
    alloc: Global,
    surroundings: &S,
    expression: &Expr,
) -> Result<Value, EvalFault>
    ensures { Gives result (evaluate the_forms (S.env surroundings.now) (expr_of expression.now)) }
{
    Ok(held(alloc, surroundings, expression)?.into_value()?)
}

/// What the expression gives. A value that is only read is not copied.
#[cycle(evaluation)]
fn held<'a, S: Surroundings>(
    alloc: Global,
    surroundings: &'a S,
    expression: &'a Expr,
) -> Result<Held<'a>, EvalFault>
    ensures { Holds result (evaluate the_forms (S.env surroundings.now) (expr_of expression.now)) }
{
    match expression {
        Expr::Literal(value) => literal(value),
        Expr::Variable(variable) => Ok(Held::Lent(surroundings.variable(*variable))),
        Expr::Field { buffer, field, .. } => field_of(surroundings, *buffer, *field),
        Expr::Unary(operator, a) => {
            let a = held(alloc, surroundings, a)?;
            own(one_of(alloc, *operator, a.value()))
        }
        Expr::Chain { first, rest } => {
            let start = held(alloc, surroundings, first)?;
            links(alloc, surroundings, start, rest)
        }
        Expr::Ternary(operator, a, b, c) => {
            let a = held(alloc, surroundings, a)?;
            let b = held(alloc, surroundings, b)?;
            let c = held(alloc, surroundings, c)?;
            own(three_of(alloc, *operator, a.value(), b.value(), c.value()))
        }
        Expr::If {
            test,
            then_value,
            else_value,
            kind,
        } => {
            let test = held(alloc, surroundings, test)?;
            if holds(test.value()) {
                as_kind(alloc, *kind, held(alloc, surroundings, then_value)?)
            } else {
                as_kind(alloc, *kind, held(alloc, surroundings, else_value)?)
            }
        }
        Expr::Masked { value, mask } => {
            let value = held(alloc, surroundings, value)?;
            own(as_masked(alloc, value.value(), mask.as_slice()))
        }
        Expr::Available(buffer) => Ok(truth(surroundings.available(*buffer))),
        Expr::Locked(buffer) => Ok(truth(surroundings.locked(*buffer))),
        Expr::Retry => Ok(truth(surroundings.retry())),
        Expr::ErrorStatus => Ok(truth(surroundings.error_status())),
        Expr::ReturnValue => own(text(alloc, surroundings.return_value())),
    }
}

/// What the links of a chain make of its first value, from the left.
#[cycle(evaluation)]
fn links<'a, S: Surroundings>(
    alloc: Global,
    surroundings: &'a S,
    first: Held<'a>,
    rest: &'a [Link],
) -> Result<Held<'a>, EvalFault>
    ensures { Holds result (chain_from (S.env surroundings.now) (Ok (held_value first.entry)) rest.now) }
{
    let mut value = first;
    for link in rest {
        value = linked(alloc, surroundings, value, link)?;
    }
    Ok(value)
}

/// What a link makes of its left value and its right operand, which AND and OR skip where the left
/// value decides.
#[cycle(evaluation)]
fn linked<'a, S: Surroundings>(
    alloc: Global,
    surroundings: &'a S,
    left: Held<'a>,
    link: &'a Link,
) -> Result<Held<'a>, EvalFault>
    ensures { Holds result (linked link.now.operator (held_value left.entry) (evaluate the_forms (S.env surroundings.now) (expr_of link.now.operand))) }
{
    match link.operator {
        Operator::Binary(operator) => {
            let right = held(alloc, surroundings, &link.operand)?;
            own(two_of(alloc, operator, left.value(), right.value()))
        }
        Operator::And => {
            if is_no(left.value()) {
                return Ok(left);
            }
            Ok(conjunction(left.value(), held(alloc, surroundings, &link.operand)?))
        }
        Operator::Or => {
            if is_yes(left.value()) {
                return Ok(left);
            }
            Ok(disjunction(left.value(), held(alloc, surroundings, &link.operand)?))
        }
    }
}

/// A new value.
fn own<'a>(made: Result<Value, EvalFault>) -> Result<Held<'a>, EvalFault>
    ensures { (given : Given) → Gives made given → Holds result given }
{
    match made {
        Ok(value) => Ok(Held::Own(value)),
        Err(fault) => Err(fault),
    }
}

/// A LOGICAL.
fn truth<'a>(yes: bool) -> Held<'a>
    ensures { held_value result ≡ Logical yes }
{
    Held::Own(Value::Logical(yes))
}

/// A text.
fn text(alloc: Global, bytes: &[u8]) -> Result<Value, EvalFault>
    ensures { Gives result (Ok (Text bytes.now)) }
{
    Ok(Value::Text(Items::of(alloc, bytes)?))
}

/// A literal. A text above the longest one is out of range.
fn literal(value: &Value) -> Result<Held<'_>, EvalFault>
    ensures { Holds result (literal value.now) }
{
    match value {
        Value::Text(text) if text.len() > MAX_TEXT_BYTES => {
            Err(EvalFault::Fault(RunFault::Range))
        }
        _ => Ok(Held::Lent(value)),
    }
}

/// A field of the record in a buffer, which may be empty.
fn field_of<S: Surroundings>(
    surroundings: &S,
    buffer: u32,
    field: u16,
) -> Result<Held<'_>, EvalFault>
    ensures { Holds result (field_or ((S.env surroundings.now).field buffer field) buffer) }
{
    match surroundings.field(buffer, field) {
        Some(value) => Ok(Held::Lent(value)),
        None => Err(EvalFault::Fault(RunFault::EmptyBuffer(buffer))),
    }
}

/// What an operator or function makes of one value.
fn one_of(alloc: Global, operator: Unary, v: &Value) -> Result<Value, EvalFault>
    ensures { Gives result (one_of the_forms operator v.now) }
{
    match operator {
        Unary::Positive => positive(alloc, v),
        Unary::Negative => negative(v),
        Unary::Not => Ok(opposite(v)),
        Unary::ToInteger => converted(alloc, Kind::Integer, v),
        Unary::ToInt64 => converted(alloc, Kind::Int64, v),
        Unary::ToDecimal => converted(alloc, Kind::Decimal, v),
        Unary::ToText => as_text(alloc, v),
        Unary::Length => Ok(length(v)),
        Unary::Year => Ok(year_of(v)),
        Unary::Month => Ok(month_of(v)),
        Unary::Day => Ok(day_of_month(v)),
    }
}

/// What an operator or function makes of two values.
fn two_of(alloc: Global, operator: Binary, a: &Value, b: &Value) -> Result<Value, EvalFault>
    ensures { Gives result (two_of operator a.now b.now) }
{
    match operator {
        Binary::Add => ranged(add(alloc, a, b)),
        Binary::Subtract => ranged(subtract(a, b)),
        Binary::Multiply => ranged(multiply(a, b)),
        Binary::Divide => ranged(divide(a, b)),
        Binary::Modulo => ranged(modulo(a, b)),
        Binary::Equal => Ok(Value::Logical(equals(a, b))),
        Binary::Unequal => Ok(Value::Logical(!equals(a, b))),
        Binary::Less => Ok(less(a, b)),
        Binary::Greater => Ok(greater(a, b)),
        Binary::AtMost => Ok(at_most(a, b)),
        Binary::AtLeast => Ok(at_least(a, b)),
        Binary::Begins => Ok(begins(a, b)),
        Binary::NumEntries => num_entries(a, b),
    }
}

/// What a function makes of three values.
fn three_of(
    alloc: Global,
    operator: Ternary,
    a: &Value,
    b: &Value,
    c: &Value,
) -> Result<Value, EvalFault>
    ensures { Gives result (three_of operator a.now b.now c.now) }
{
    match operator {
        Ternary::Substring => substring(alloc, a, b, c),
        Ternary::Entry => entry(alloc, a, b, c),
        Ternary::DateOf => date_of(a, b, c),
    }
}

/// A branch of IF as a value of the kind of both.
fn as_kind<'a>(alloc: Global, kind: Option<Kind>, value: Held<'a>) -> Result<Held<'a>, EvalFault>
    ensures { Holds result (as_kind kind (held_value value.entry)) }
{
    match kind {
        Some(kind) => own(ranged(fit(alloc, value.value(), kind))),
        None => Ok(value),
    }
}
