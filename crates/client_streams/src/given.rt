//! Assigning the values of a line.

ghost use Rattle.std.specs.Prelude.{◌≡◌, ◌∷◌, ◌++◌, [], ℕ, List, Bool, Option, IfOk, OnOk, map, reverse, true};
ghost use Rattle.abl_base.specs.declared.value.Value.{Value};
ghost use Rattle.bound_tree.specs.declared.statement.Target.{Target};
ghost use Rattle.block_meaning.specs.Changes.{assigns_each, buffers_in};
ghost use Rattle.block_meaning.specs.Program.{Program};
ghost use Rattle.block_meaning.specs.State.{State};
ghost use Rattle.block_meaning.specs.Streams.{pairs_of};
ghost use Rattle.database_protocol.specs.declared.answer.Answer.{Answer};
ghost use Rattle.client_machine.specs.Config.{given_of, instr_at};
ghost use Rattle.client_values.specs.Ends.{Ends};
ghost use Rattle.client_values.specs.Given.{pair_of};
ghost use Rattle.client_values.specs.Variables.{AreEven, HasSameShape, state_with};
ghost use Rattle.client_streams.specs.Imports.{targets_in};

use crate::inputs::targets_at;
use abl_base::Value;
use block_code::Instr;
use bound_tree::{Stmt, Target};
use client_machine::machine::Machine;
use client_machine::mode::changes::GivenValue;
use client_values::assign::{are_variable_targets, assign_values};
use evaluator::EvalFault;
use std::alloc::{AllocError, Global};

/// Whether all targets of the IMPORT at the place are variables.
pub(crate) fn are_variables_at(machine: &Machine, place: usize) -> bool
    ensures { result ≡ true → (values : List (Option Value)) → buffers_in (pairs_of (targets_in (instr_at machine.now.code.instrs.items place)) values) ≡ [] }
{
    match targets_at(machine, place) {
        Some(targets) => are_variable_targets(targets),
        None => false,
    }
}

/// Assigns the values to the targets of the IMPORT at the place, which are variables.
pub(crate) fn assign_at(
    machine: &mut Machine,
    place: usize,
    values: Vec<Option<Value>>,
) -> Result<(), EvalFault>
    ensures moved { machine.new ≡ record machine.old { memory = machine.new.memory } }
    ensures shape { HasSameShape machine.old.memory machine.new.memory }
    ensures assigns { (p : Program) (rest : State) (ns : List ℕ) (retry : Bool) (ans : List Answer) → AreEven ns machine.old.memory → Ends result (assigns_each p (pairs_of (targets_in (instr_at machine.old.code.instrs.items place)) values.items) retry (state_with rest ns machine.old.memory) ans) (state_with rest ns machine.new.memory) ans }
{
    match machine.code.instrs.get(place) {
        Some(
            Instr::Simple {
                stmt: Stmt::Import { targets, .. },
                ..
            },
        ) => assign_values(
            machine.alloc,
            &mut machine.memory,
            targets.as_slice(),
            values,
        ),
        _ => Err(EvalFault::NoMemory),
    }
}

/// The values with their targets, the last one first. A target of `^` (None) takes no value, and one
/// without a value is left out.
pub(crate) fn given_values(
    alloc: Global,
    targets: &[Option<Target>],
    values: Vec<Option<Value>>,
) -> Result<Vec<GivenValue>, AllocError>
    ensures { IfOk result (λ given. map given_of (reverse given.items) ≡ pairs_of targets.now values.items) }
{
    let mut values = values;
    values.reverse();
    let mut given = Vec::new(alloc);
    for target in targets {
        give_next(&mut given, *target, &mut values)?;
    }
    given.reverse();
    Ok(given)
}

/// The next value, which is the last one, goes to the target.
fn give_next(
    given: &mut Vec<GivenValue>,
    target: Option<Target>,
    values: &mut Vec<Option<Value>>,
) -> Result<(), AllocError>
    ensures { OnOk result ((ts : List (Option Target)) → map given_of given.new.items ++ pairs_of ts (reverse values.new.items) ≡ map given_of given.old.items ++ pairs_of (target ∷ ts) (reverse values.old.items)) }
{
    match values.pop() {
        None => Ok(()),
        Some(value) => push_given(given, target, value),
    }
}

/// The value goes to the target, where there are both.
fn push_given(
    given: &mut Vec<GivenValue>,
    target: Option<Target>,
    value: Option<Value>,
) -> Result<(), AllocError>
    ensures { OnOk result (map given_of given.new.items ≡ map given_of given.old.items ++ pair_of target value) }
{
    match target {
        Some(target) => match value {
            Some(value) => {
                given.push(GivenValue { target, value })?;
                Ok(())
            }
            None => Ok(()),
        },
        None => Ok(()),
    }
}
