//! The values of a bracket.

ghost use Rattle.std.specs.Prelude.{◌≡◌, map, IfOk, Result};
ghost use Rattle.abl_base.specs.declared.value.Value.{Value};
ghost use Rattle.abl_values.specs.declared.arithmetic.ArithFault.{ArithFault};
ghost use Rattle.abl_values.specs.Arithmetic.{IsUnlessNoMemory};
ghost use Rattle.abl_values.specs.Fit.{fitted};
ghost use Rattle.bound_tree.specs.Bound.{bracket_value_of};
ghost use Rattle.block_meaning.specs.Reads.{bracket_of, equal_or};

use abl_base::{Items, Kind, Row, Value};
use abl_values::{ArithFault, compare, fit};
use bound_tree::BracketValue;
use std::alloc::{AllocError, Global};
use std::cmp::Ordering;

/// The values by which a search is bracketed, from the values of the bracket's expressions: each is
/// the equal value of the kind of its index component, or stays as it is where there is none.
/// Values beyond the bracket are dropped. Out of memory is the only error. (This project's choice.)
pub fn bracket_values(
    alloc: Global,
    bracket: &[BracketValue],
    values: Row,
) -> Result<Row, AllocError>
    ensures { IfOk result (λ row. row ≡ bracket_of (map bracket_value_of bracket.now) values) }
{
    let mut given = values.into_vec();
    given.reverse();
    let mut row = Vec::with_capacity(alloc, given.len())?;
    for part in bracket {
        match given.pop() {
            None => return Ok(Items::from_vec(row)),
            Some(value) => row.push(equal_or(alloc, value, part.kind)?)?,
        }
    }
    Ok(Items::from_vec(row))
}

/// The equal value of the kind, or the value itself where there is none. A text is equal to texts
/// alone, so it stays.
#[tactic(auto, using(crate::proofs::EqualValues::text_stays))]
fn equal_or(alloc: Global, value: Value, kind: Kind) -> Result<Value, AllocError>
    ensures { IfOk result (λ v. v ≡ equal_or (fitted value kind) value) }
{
    match value {
        Value::Text(text) => Ok(Value::Text(text)),
        other => equal_number(alloc, other, kind),
    }
}

/// The same for a value that needs no memory.
fn equal_number(alloc: Global, value: Value, kind: Kind) -> Result<Value, AllocError>
    ensures { IfOk result (λ v. v ≡ equal_or (fitted value kind) value) }
{
    match fit(alloc, &value, kind) {
        Ok(fitted) => Ok(equal_of(fitted, value)),
        Err(ArithFault::Overflow) => Ok(value),
        Err(ArithFault::NoMemory) => Err(AllocError),
    }
}

/// The first value where the two are equal, else the second.
fn equal_of(fitted: Value, value: Value) -> Value
    ensures { result ≡ equal_or (Result.Ok fitted) value }
{
    match compare(&fitted, &value) {
        Ordering::Equal => fitted,
        Ordering::Less | Ordering::Greater => value,
    }
}
