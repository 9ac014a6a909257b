//! How a step of a reading ends: the machine asks for an operation, executes a task, or completes.

ghost use Rattle.std.specs.Prelude.{◌≡◌, ◌∷◌, OnOk, OnErr, Some, None, reverse};
ghost use Rattle.block_meaning.specs.State as state;
ghost use Rattle.flat_machine.specs.Flat as flat;
ghost use Rattle.client_output.specs.Written.{IsUnchanged};
ghost use Rattle.client_machine.specs.declared.mode.Completion.{Completion};
ghost use Rattle.client_machine.specs.declared.mode.Mode.{Mode};
ghost use Rattle.client_machine.specs.Config.{complaint_in, read_answer_of};
ghost use Rattle.client_machine.specs.KeepsFrom.{KeepsFrom};
ghost use Rattle.client_machine.specs.Machine.{stack_in};
ghost use Rattle.client_machine.specs.Order.{IsNotOnLevels};
ghost use Rattle.client_finds.specs.Steps.{instrs_in};

use client_machine::machine::Machine;
use client_machine::mode::reads::ReadAnswer;
use client_machine::mode::{Completion, LineFault, Mode, OnAnswer, StackEntry};
use database_protocol::{Cursor, Op, StopWhy};
use std::alloc::AllocError;

/// Asks for an operation, which costs a unit, or stops the client. A reading asks for none on
/// levels.
pub(crate) fn ask(machine: &mut Machine, op: Op, on_answer: ReadAnswer)
    requires { IsNotOnLevels op }
    ensures { KeepsFrom (λ p s. flat.ask op (read_answer_of (instrs_in machine.old) on_answer) (stack_in machine.old) s) machine.old machine.new }
{
    machine.ask(op, OnAnswer::Read(on_answer));
}

/// The statement or header has this fault.
pub(crate) fn fail(machine: &mut Machine, fault: LineFault)
    ensures { KeepsFrom (λ p s. flat.fault (complaint_in fault) (stack_in machine.old) s) machine.old machine.new }
{
    machine.set_mode(Mode::Unwind(Completion::Faults(Some(fault))));
}

/// The task completes normally.
pub(crate) fn complete(machine: &mut Machine)
    ensures { KeepsFrom (λ p s. flat.config (flat.Unwind state.Normal) (stack_in machine.old) s) machine.old machine.new }
{
    machine.set_mode(Mode::Unwind(Completion::Normal));
}

/// The record at the cursor is found.
pub(crate) fn find(machine: &mut Machine, cursor: Cursor)
    ensures { KeepsFrom (λ p s. flat.config (flat.Unwind (state.Found cursor)) (stack_in machine.old) s) machine.old machine.new }
{
    machine.set_mode(Mode::Unwind(Completion::Found(cursor)));
}

/// The record that was found is lost.
pub(crate) fn lose(machine: &mut Machine)
    ensures { KeepsFrom (λ p s. flat.config (flat.Unwind state.Lost) (stack_in machine.old) s) machine.old machine.new }
{
    machine.set_mode(Mode::Unwind(Completion::Lost));
}

/// There is no further record.
pub(crate) fn find_none(machine: &mut Machine)
    ensures { KeepsFrom (λ p s. flat.config (flat.Unwind state.NotFound) (stack_in machine.old) s) machine.old machine.new }
{
    machine.set_mode(Mode::Unwind(Completion::NotFound));
}

/// No unit is left.
pub(crate) fn stop(machine: &mut Machine)
    ensures { KeepsFrom (λ p s. flat.config (flat.Unwind (state.Stops state.out_of_units)) (stack_in machine.old) s) machine.old machine.new }
{
    machine.set_mode(Mode::Unwind(Completion::Stops(StopWhy::Budget)));
}

/// Pushes an entry of the stack.
pub(crate) fn push(machine: &mut Machine, entry: StackEntry) -> Result<(), AllocError>
    ensures moved { OnOk result (machine.new ≡ record machine.old { stack = machine.new.stack }) }
    ensures top { OnOk result (reverse machine.new.stack.items ≡ entry ∷ reverse machine.old.stack.items) }
    ensures err { OnErr result (IsUnchanged machine.old.output machine.new.output) }
{
    machine.stack.push(entry)?;
    Ok(())
}
