//! Assignments to variables, from left to right (OpenEdge ABL Reference, Assignment statement and
//! ASSIGN statement). A fault leaves what was assigned before it.

ghost use Rattle.std.specs.Prelude.{◌≡◌, [], ℕ, List, Option, Bool, true, map};
ghost use Rattle.abl_base.specs.declared.value.Value.{Value};
ghost use Rattle.bound_tree.specs.declared.statement.Target.TheVariants as target;
ghost use Rattle.bound_tree.specs.Bound.{assignment_of};
ghost use Rattle.database_protocol.specs.declared.answer.Answer.{Answer};
ghost use Rattle.block_meaning.specs.Program.{Program};
ghost use Rattle.block_meaning.specs.State.{State};
ghost use Rattle.block_meaning.specs.Changes.{assigns_each, assigns_one, buffer_first, buffers_in, stored};
ghost use Rattle.block_meaning.specs.Streams.{pairs_of};
ghost use Rattle.client_values.specs.Given.{first_buffer, pair_of};
ghost use Rattle.client_values.specs.Ends.{Assigns, Ends};
ghost use Rattle.client_values.specs.Reads.{Reads};
ghost use Rattle.client_values.specs.Variables.{AreEven, HasSameShape, state_with};

use crate::fitted::fitted;
use crate::value::{Status, value_of};
use abl_base::Value;
use bound_tree::{Assignment, Right, Target, Variable};
use client_memory::Memory;
use evaluator::EvalFault;
use std::alloc::Global;

/// Whether all targets are variables.
pub fn are_variables(pairs: &[Assignment]) -> bool
    ensures { result ≡ true → buffers_in (map assignment_of pairs.now) ≡ [] }
{
    for pair in pairs {
        if !is_variable(&pair.target) {
            return false;
        }
    }
    true
}

/// Whether the target is a variable.
fn is_variable(target: &Target) -> bool
    ensures { result ≡ true → (bs : List ℕ) → buffer_first target.now bs ≡ bs }
{
    match target {
        Target::Variable(_) => true,
        Target::Field { .. } => false,
    }
}

/// Whether all targets of an IMPORT are variables.
pub fn are_variable_targets(targets: &[Option<Target>]) -> bool
    ensures { result ≡ true → (values : List (Option Value)) → buffers_in (pairs_of targets.now values) ≡ [] }
{
    for target in targets {
        if !is_variable_or_none(target) {
            return false;
        }
    }
    true
}

/// Whether the target of an IMPORT is a variable or `^`.
fn is_variable_or_none(target: &Option<Target>) -> bool
    ensures { result ≡ true → (bs : List ℕ) → first_buffer target.now bs ≡ bs }
{
    match target {
        None => true,
        Some(target) => is_variable(target),
    }
}

/// Assigns the value to the variable: the value is made to fit the variable's kind, and moved.
pub fn assign_value(
    alloc: Global,
    memory: &mut Memory,
    variable: Variable,
    value: Value,
) -> Result<(), EvalFault>
    ensures shape { HasSameShape memory.old memory.new }
    ensures assigns { (rest : State) (ns : List ℕ) → AreEven ns memory.old → Assigns result (stored (target.Variable variable) value (state_with rest ns memory.old)) (state_with rest ns memory.new) }
{
    let value = fitted(alloc, value, variable.kind)?;
    memory.set(variable, value)?;
    Ok(())
}

/// Assigns the value of an expression to a variable. Another target or right side belongs to
/// `client_records`, and is answered as out of memory.
fn assign_pair(
    alloc: Global,
    memory: &mut Memory,
    pair: &Assignment,
    status: &Status<'_>,
) -> Result<(), EvalFault>
    ensures shape { HasSameShape memory.old memory.new }
    ensures assigns { (p : Program) (rest : State) (ns : List ℕ) (ans : List Answer) → Reads p rest ns memory.old status.now.error status.now.returned.now → Ends result (assigns_one p (assignment_of pair.now).target (assignment_of pair.now).right status.now.retry (state_with rest ns memory.old) ans) (state_with rest ns memory.new) ans }
{
    let Target::Variable(variable) = pair.target else {
        return Err(EvalFault::NoMemory);
    };
    let Right::Value(expression) = &pair.right else {
        return Err(EvalFault::NoMemory);
    };
    let value = value_of(alloc, memory, expression, status)?;
    assign_value(alloc, memory, variable, value)
}

/// Assigns the values of expressions to variables.
pub fn assign_pairs(
    alloc: Global,
    memory: &mut Memory,
    pairs: &[Assignment],
    status: &Status<'_>,
) -> Result<(), EvalFault>
    ensures shape { HasSameShape memory.old memory.new }
    ensures assigns { (p : Program) (rest : State) (ns : List ℕ) (ans : List Answer) → Reads p rest ns memory.old status.now.error status.now.returned.now → Ends result (assigns_each p (map assignment_of pairs.now) status.now.retry (state_with rest ns memory.old) ans) (state_with rest ns memory.new) ans }
{
    for pair in pairs {
        assign_pair(alloc, memory, pair, status)?;
    }
    Ok(())
}

/// Assigns values to variables, as IMPORT does: a target of `^` (None), or one without a value, stays.
pub fn assign_values(
    alloc: Global,
    memory: &mut Memory,
    targets: &[Option<Target>],
    values: Vec<Option<Value>>,
) -> Result<(), EvalFault>
    ensures shape { HasSameShape memory.old memory.new }
    ensures assigns { (p : Program) (rest : State) (ns : List ℕ) (retry : Bool) (ans : List Answer) → AreEven ns memory.old → Ends result (assigns_each p (pairs_of targets.now values.items) retry (state_with rest ns memory.old) ans) (state_with rest ns memory.new) ans }
{
    let mut values = values;
    values.reverse();
    for target in targets {
        match values.pop() {
            None => return Ok(()),
            Some(value) => assign_given(alloc, memory, target, value)?,
        }
    }
    Ok(())
}

/// Assigns a value to a target, where there are both.
fn assign_given(
    alloc: Global,
    memory: &mut Memory,
    target: &Option<Target>,
    value: Option<Value>,
) -> Result<(), EvalFault>
    ensures shape { HasSameShape memory.old memory.new }
    ensures assigns { (p : Program) (rest : State) (ns : List ℕ) (retry : Bool) (ans : List Answer) → AreEven ns memory.old → Ends result (assigns_each p (pair_of target.now value) retry (state_with rest ns memory.old) ans) (state_with rest ns memory.new) ans }
{
    match target {
        Some(Target::Variable(variable)) => match value {
            Some(value) => assign_value(alloc, memory, *variable, value),
            None => Ok(()),
        },
        Some(Target::Field { .. }) => match value {
            Some(_) => Err(EvalFault::NoMemory),
            None => Ok(()),
        },
        None => Ok(()),
    }
}
