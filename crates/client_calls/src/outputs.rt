//! What a procedure that ends gives back.

ghost use Rattle.std.specs.Prelude.{◌≡◌, IfOk, OnOk, map};
ghost use Rattle.bound_tree.specs.Bound.{argument_of};
ghost use Rattle.client_memory.specs.Memory.{IsOuter, ended};
ghost use Rattle.client_calls.specs.Calls.{getter_of, own_value, output_of, outputs_of, all_set};

use abl_base::Value;
use bound_tree::{Argument, Variable};
use client_memory::memory::Memory;
use std::alloc::{AllocError, Global};

/// A variable of the caller, and the value that it gets.
#[derive(Drop)]
pub struct Output {
    pub variable: Variable,
    pub value: Value,
}

/// The variable that an argument names to get a value.
fn getter(argument: &Argument) -> Option<Variable>
    ensures { result ≡ getter_of (argument_of argument.now) }
{
    match argument {
        Argument::Input(_) => None,
        Argument::Output(variable) | Argument::InputOutput(variable) => Some(*variable),
    }
}

/// The value of a variable of the innermost procedure.
fn own_value(memory: &Memory, variable: Variable) -> Result<Value, AllocError>
    ensures { IfOk result (λ value. value ≡ own_value variable memory.now) }
{
    let unknown = Value::Unknown;
    let own = Variable {
        external: false,
        undoable: variable.undoable,
        number: variable.number,
        kind: variable.kind,
    };
    memory.get(own, &unknown).copy()
}

/// The values of the OUTPUT and INPUT-OUTPUT parameters of the innermost procedure, each with the
/// caller's variable that gets it.
fn outputs(
    alloc: Global,
    memory: &Memory,
    arguments: &[Argument],
    parameters: &[Variable],
) -> Result<Vec<Output>, AllocError>
    ensures { IfOk result (λ outputs. map output_of outputs.items ≡ outputs_of (map argument_of arguments.now) parameters.now memory.now) }
{
    let mut outputs = Vec::new(alloc);
    for (argument, parameter) in arguments.iter().zip(parameters) {
        if let Some(variable) = getter(argument) {
            let value = own_value(memory, *parameter)?;
            outputs.push(Output { variable, value })?;
        }
    }
    Ok(outputs)
}

/// Gives variables values.
fn set_all(memory: &mut Memory, outputs: Vec<Output>) -> Result<(), AllocError>
    ensures { OnOk result (memory.new ≡ all_set (map output_of outputs.items) memory.old) }
{
    for output in outputs {
        memory.set(output.variable, output.value)?;
    }
    Ok(())
}

/// Ends the innermost procedure, in which no level is open: the OUTPUT and INPUT-OUTPUT parameters
/// are copied to the caller's variables, and the frame goes. Out of memory is the only error.
pub fn close_frame(
    alloc: Global,
    memory: &mut Memory,
    arguments: &[Argument],
    parameters: &[Variable],
) -> Result<(), AllocError>
    ensures { OnOk result (IsOuter memory.old → memory.new ≡ all_set (outputs_of (map argument_of arguments.now) parameters.now memory.old) (ended memory.old)) }
{
    let outputs = outputs(alloc, memory, arguments, parameters)?;
    memory.end();
    set_all(memory, outputs)
}
