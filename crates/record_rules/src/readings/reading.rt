//! The values of a bracket, and WHERE.

ghost use Rattle.std.specs.Prelude.{◌≡◌, Bool, map};
ghost use Rattle.evaluator.specs.Forms.{AreForms};
ghost use Rattle.bound_tree.specs.Bound.{bracket_value_of, maybe_expr_of, reading_of};
ghost use Rattle.block_meaning.specs.Program.{Program};
ghost use Rattle.block_meaning.specs.State.{State};
ghost use Rattle.block_meaning.specs.Values.{env_of, values_now};
ghost use Rattle.record_rules.specs.readings.Reading.{Brackets, EvaluatesAll, Tests};

use crate::bracket_values;
use abl_base::{Items, Row};
use bound_tree::{BracketValue, Expr, Reading};
use evaluator::{EvalFault, Surroundings, evaluate, holds};
use std::alloc::Global;

/// Whether WHERE holds in these surroundings, in which the buffer shows the record; yes where there
/// is none, and no where its value is `?` (OpenEdge ABL Reference, Record phrase, WHERE). Refuses
/// with the fault of the expression; else out of memory is the only refusal.
pub fn passes<S: Surroundings>(
    alloc: Global,
    surroundings: &S,
    test: &Option<Expr>,
) -> Result<bool, EvalFault>
    ensures { (p : Program) (retry : Bool) (s : State) → AreForms p.forms → env_of retry s ≡ S.env surroundings.now → Tests result p (maybe_expr_of test.now) retry s }
{
    match test {
        None => Ok(true),
        Some(test) => Ok(holds(&evaluate(alloc, surroundings, test)?)),
    }
}

/// The values by which a search is bracketed: those of the bracket's expressions, from left to
/// right, each as the equal value of the kind of its index component. Refuses with the fault of the
/// first expression that has one; else out of memory is the only refusal. (This project's choice.)
pub fn bracket_row<S: Surroundings>(
    alloc: Global,
    surroundings: &S,
    reading: &Reading,
) -> Result<Row, EvalFault>
    ensures { (p : Program) (retry : Bool) (s : State) → AreForms p.forms → env_of retry s ≡ S.env surroundings.now → Brackets result p (reading_of reading.now) retry s }
{
    let values = values_of(alloc, surroundings, &reading.bracket)?;
    Ok(bracket_values(alloc, &reading.bracket, values)?)
}

/// The values of the bracket's expressions.
fn values_of<S: Surroundings>(
    alloc: Global,
    surroundings: &S,
    bracket: &[BracketValue],
) -> Result<Row, EvalFault>
    ensures { (p : Program) (retry : Bool) (s : State) → AreForms p.forms → env_of retry s ≡ S.env surroundings.now → EvaluatesAll result (values_now p (map (λ x. x.value) (map bracket_value_of bracket.now)) retry s) }
{
    let mut values = Vec::with_capacity(alloc, bracket.len())?;
    for part in bracket {
        values.reserve(1)?;
        values.push_reserved(evaluate(alloc, surroundings, &part.value)?);
    }
    Ok(Items::from_vec(values))
}
