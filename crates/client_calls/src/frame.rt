//! The frame of a procedure that begins.

ghost use Rattle.std.specs.Prelude.{◌≡◌, ℕ, List, IfOk, OnOk, map};
ghost use Rattle.block_meaning.specs.State.{Buffer};
ghost use Rattle.bound_tree.specs.Bound.{argument_of};
ghost use Rattle.block_meaning.specs.Frames.{set_in};
ghost use Rattle.block_meaning.specs.Meaning.{params_set};
ghost use Rattle.client_calls.specs.Calls.{frame_with, passes, Opens};

use abl_base::{Row, Value, copy_row};
use block_code::ProcedureCode;
use bound_tree::{Argument, Variable};
use client_memory::buffers::Buffers;
use client_memory::memory::Memory;
use client_memory::slots::Slots;
use std::alloc::AllocError;

/// The variables of a procedure that begins.
#[derive(Drop)]
pub struct NewFrame {
    pub undoable: Slots,
    pub no_undo: Slots,
}

impl NewFrame {
    /// Gives a variable of the procedure a value.
    fn set(&mut self, variable: Variable, value: Value)
        ensures { (n : ℕ) (bs : List Buffer) → frame_with n self.new.undoable self.new.no_undo bs ≡ set_in variable.undoable variable.number value (frame_with n self.old.undoable self.old.no_undo bs) }
    {
        if variable.undoable {
            let _ = self.undoable.replace(variable.number as usize, value);
        } else {
            let _ = self.no_undo.replace(variable.number as usize, value);
        }
    }

    /// Gives the INPUT and INPUT-OUTPUT parameters their values, which are moved.
    fn pass(&mut self, arguments: &[Argument], parameters: &[Variable], values: Row)
        ensures { (n : ℕ) (bs : List Buffer) → frame_with n self.new.undoable self.new.no_undo bs ≡ params_set (map argument_of arguments.now) parameters.now values (frame_with n self.old.undoable self.old.no_undo bs) }
    {
        let mut values = values.into_vec().into_iter();
        for (argument, parameter) in arguments.iter().zip(parameters) {
            let Some(value) = values.next() else {
                return;
            };
            if is_passed(argument) {
                self.set(*parameter, value);
            }
        }
    }
}

/// Whether an argument passes a value in.
fn is_passed(argument: &Argument) -> bool
    ensures { result ≡ passes (argument_of argument.now) }
{
    match argument {
        Argument::Input(_) | Argument::InputOutput(_) => true,
        Argument::Output(_) => false,
    }
}

/// Slots with these values.
fn slots_of(values: &Row) -> Result<Slots, AllocError>
    ensures { IfOk result (λ slots. slots ≡ values.now) }
{
    Ok(Slots::new(copy_row(values)?.into_vec()))
}

/// Opens the procedure's own frame: initial values, the INPUT and INPUT-OUTPUT parameters given, and
/// empty buffers. Out of memory is the only error.
pub fn open_frame(
    memory: &mut Memory,
    procedure: &ProcedureCode,
    arguments: &[Argument],
    values: Row,
) -> Result<(), AllocError>
    ensures { OnOk result (Opens procedure.now (map argument_of arguments.now) values memory.old memory.new) }
{
    let mut frame = NewFrame {
        undoable: slots_of(&procedure.undoable)?,
        no_undo: slots_of(&procedure.no_undo)?,
    };
    frame.pass(arguments, &procedure.parameters, values);
    let NewFrame { undoable, no_undo } = frame;
    let buffers = Buffers::new(*procedure.buffers.allocator(), &procedure.buffers)?;
    memory.begin(undoable, no_undo, buffers)
}
