//! Assignments.

ghost use Rattle.std.specs.Prelude.{◌≡◌, ◌<◌, ◌^◌, IfOk, map, [], ◌∷◌};
ghost use Rattle.syntax_tree.specs.Typed.{pair_of, right_side_of, statement_of};
ghost use Rattle.syntax_reader.specs.Plain.{ArePairs, IsAssignment, IsPair, IsQuiet, IsRightSide, IsTarget};
ghost use Rattle.syntax_reader.specs.Views.{source_of};

use crate::expression::expression;
use crate::nodes::{ReadFault, Reader, name, needs, place, qualified, uses, word_there};
use parse_tree::production::{
    ASSIGNMENT_ASSIGN, ASSIGNMENT_TARGET, ASSIGNMENTS_NONE, ASSIGNMENTS_TARGET,
    NO_ERROR_WORD_NO_ERROR, NO_ERROR_WORD_NONE, RIGHT_SIDE_EXPRESSION,
    RIGHT_SIDE_SEQUENCE_FUNCTION, SEQUENCE_FUNCTION_CURRENT_VALUE, SEQUENCE_FUNCTION_NEXT_VALUE,
    TARGET_NAME, TARGET_QUALIFIED_NAME,
};
use std::alloc::Global;
use syntax_tree::{Named, Pair, RightSide, Statement};

/// Whether NO-ERROR ends a statement.
pub(crate) fn quiet(reader: &Reader<'_>, n: usize) -> Result<bool, ReadFault>
    ensures is { IfOk result (λ r. IsQuiet (source_of reader.now) n r) }
    ensures room { IfOk result (λ r. n < 2 ^ 62) }
{
    word_there(reader, n, NO_ERROR_WORD_NO_ERROR, NO_ERROR_WORD_NONE)
}

/// The variable or field to the left of `=`.
pub(crate) fn target(reader: &Reader<'_>, n: usize) -> Result<Named, ReadFault>
    ensures { IfOk result (λ r. IsTarget (source_of reader.now) n r) }
{
    if let Some(k) = uses(reader, n, TARGET_NAME) {
        let word = name(reader, k)?;
        return Ok(Named::Plain(word));
    }
    let k = needs(reader, n, TARGET_QUALIFIED_NAME)?;
    let named = qualified(reader, k)?;
    Ok(named)
}

/// The right side of an assignment.
fn right_side(alloc: Global, reader: &Reader<'_>, n: usize) -> Result<(RightSide, usize), ReadFault>
    ensures is { IfOk result (λ r. IsRightSide (source_of reader.now) n r.1 (right_side_of r.0)) }
    ensures after { IfOk result (λ r. n < r.1) }
{
    if let Some(k) = uses(reader, n, RIGHT_SIDE_EXPRESSION) {
        let (value, end) = expression(alloc, reader, n + 1)?;
        return Ok((RightSide::Value(value), end));
    }
    let k = needs(reader, n, RIGHT_SIDE_SEQUENCE_FUNCTION)?;
    let at = place(reader, k)?;
    let sequence = name(reader, k + 2)?;
    if let Some(j) = uses(reader, n + 1, SEQUENCE_FUNCTION_NEXT_VALUE) {
        return Ok((RightSide::NextValue { at, sequence }, n + 2));
    }
    let j = needs(reader, n + 1, SEQUENCE_FUNCTION_CURRENT_VALUE)?;
    Ok((RightSide::CurrentValue { at, sequence }, n + 2))
}

/// target = right.
fn pair(alloc: Global, reader: &Reader<'_>, n: usize) -> Result<(Pair, usize), ReadFault>
    requires { n < 2 ^ 63 }
    ensures is { IfOk result (λ r. IsPair (source_of reader.now) n r.1 (pair_of r.0)) }
    ensures after { IfOk result (λ r. n < r.1) }
{
    let target = target(reader, n)?;
    let (right, end) = right_side(alloc, reader, n + 1)?;
    Ok((Pair { target, right }, end))
}

/// The pairs of an ASSIGN.
fn pairs(alloc: Global, reader: &Reader<'_>, begun: usize) -> Result<(Vec<Pair>, usize), ReadFault>
    ensures is { IfOk result (λ r. ArePairs (source_of reader.now) begun r.1 (map pair_of r.0.items)) }
    ensures after { IfOk result (λ r. begun < r.1) }
{
    let mut found = Vec::new(alloc);
    let mut n = begun;
    while let Some(k) = uses(reader, n, ASSIGNMENTS_TARGET) {
        let (one, end) = pair(alloc, reader, n + 1)?;
        found.push(one)?;
        n = end;
    }
    let k = needs(reader, n, ASSIGNMENTS_NONE)?;
    Ok((found, n + 1))
}

/// A pair as a list.
fn alone(alloc: Global, pair: Pair) -> Result<Vec<Pair>, ReadFault>
    ensures { IfOk result (λ r. map pair_of r.items ≡ pair_of pair ∷ []) }
{
    let mut pairs = Vec::new(alloc);
    pairs.push(pair)?;
    Ok(pairs)
}

/// An assignment, with ASSIGN or without.
pub(crate) fn assignment(
    alloc: Global,
    reader: &Reader<'_>,
    n: usize,
) -> Result<(Statement, usize), ReadFault>
    ensures is { IfOk result (λ r. IsAssignment (source_of reader.now) n r.1 (statement_of r.0)) }
    ensures after { IfOk result (λ r. n < r.1) }
{
    if let Some(k) = uses(reader, n, ASSIGNMENT_TARGET) {
        let (one, next) = pair(alloc, reader, n + 1)?;
        let quiet = quiet(reader, next)?;
        let pairs = alone(alloc, one)?;
        return Ok((Statement::Assign { pairs, quiet }, next + 1));
    }
    let k = needs(reader, n, ASSIGNMENT_ASSIGN)?;
    let (pairs, next) = pairs(alloc, reader, n + 1)?;
    let quiet = quiet(reader, next)?;
    Ok((Statement::Assign { pairs, quiet }, next + 1))
}
