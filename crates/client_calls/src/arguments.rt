//! The values that the arguments of a RUN pass in.

ghost use Rattle.std.specs.Prelude.{◌≡◌, ℕ, List, map};
ghost use Rattle.bound_tree.specs.Bound.{argument_of};
ghost use Rattle.block_meaning.specs.Program.{Program};
ghost use Rattle.block_meaning.specs.State.{State};
ghost use Rattle.block_meaning.specs.Meaning.{argument_value as value_passed, argument_values as values_passed};
ghost use Rattle.client_values.specs.Ends.{Evaluates};
ghost use Rattle.client_values.specs.Reads.{Reads};
ghost use Rattle.client_values.specs.Variables.{state_with};
ghost use Rattle.client_calls.specs.Calls.{EvaluatesAll};

use abl_base::{Row, Value};
use bound_tree::{Argument, Variable};
use client_memory::Memory;
use client_values::fitted::fitted;
use client_values::value::{Status, value_of};
use evaluator::EvalFault;
use std::alloc::Global;

/// The value that an argument passes to the parameter, made to fit its kind; OUTPUT passes none, and
/// has the unknown value here.
fn argument_value(
    alloc: Global,
    memory: &Memory,
    argument: &Argument,
    parameter: Variable,
    status: &Status<'_>,
) -> Result<Value, EvalFault>
    ensures { (p : Program) (rest : State) (ns : List ℕ) → Reads p rest ns memory.now status.now.error status.now.returned.now → Evaluates result (value_passed p (argument_of argument.now) parameter.kind status.now.retry (state_with rest ns memory.now)) }
{
    match argument {
        Argument::Input(expression) => {
            let value = value_of(alloc, memory, expression, status)?;
            fitted(alloc, value, parameter.kind)
        }
        Argument::InputOutput(variable) => {
            let unknown = Value::Unknown;
            let value = memory.get(*variable, &unknown).copy()?;
            fitted(alloc, value, parameter.kind)
        }
        Argument::Output(_) => Ok(Value::Unknown),
    }
}

/// The values that the arguments pass to the parameters, from left to right; the first fault ends
/// this.
pub fn argument_values(
    alloc: Global,
    memory: &Memory,
    arguments: &[Argument],
    parameters: &[Variable],
    status: &Status<'_>,
) -> Result<Row, EvalFault>
    ensures { (p : Program) (rest : State) (ns : List ℕ) → Reads p rest ns memory.now status.now.error status.now.returned.now → EvaluatesAll result (values_passed p (map argument_of arguments.now) parameters.now status.now.retry (state_with rest ns memory.now)) }
{
    let mut values = Vec::new(alloc);
    for (argument, parameter) in arguments.iter().zip(parameters) {
        let value = argument_value(alloc, memory, argument, *parameter, status)?;
        values.reserve(1)?;
        values.push_reserved(value);
    }
    Ok(Row::from_vec(values))
}
