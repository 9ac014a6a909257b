//! CREATE (OpenEdge ABL Reference, CREATE statement).

ghost use Rattle.std.specs.Prelude.{◌≡◌, OnErr, OnOk};
ghost use Rattle.client_machine.specs.Step.{KeepsTask};
ghost use Rattle.client_machine.specs.declared.mode.Task.{Task};
ghost use Rattle.client_machine.specs.declared.mode.changes.ChangeTask.{ChangeTask};
ghost use Rattle.client_output.specs.Written.{IsUnchanged};

use crate::completions::complete;
use crate::memory::new_record;
use client_machine::machine::Machine;
use client_machine::mode::changes::ChangeTask;
use client_machine::mode::ends::EndTask;
use client_machine::mode::{Mode, StackEntry, Task};
use client_memory::Place;
use std::alloc::AllocError;

/// CREATE: the old record of the buffer is inserted if it is pending, and released; then the buffer
/// holds a new one.
pub(crate) fn creates(machine: &mut Machine, buffer: u32) -> Result<(), AllocError>
    ensures ok { OnOk result (KeepsTask (Task.Change (ChangeTask.Creates buffer)) machine.old machine.new) }
    ensures err { OnErr result (IsUnchanged machine.old.output machine.new.output) }
{
    machine
        .stack
        .push(StackEntry::Then(Task::Change(ChangeTask::Begun(buffer))))?;
    machine
        .stack
        .push(StackEntry::Then(Task::End(EndTask::Drops(buffer))))?;
    machine.set_mode(Mode::Execute(Task::End(EndTask::EntersOne(Place::own(buffer as usize)))));
    Ok(())
}

/// The buffer holds a new pending record with the initial values of its table. The machine counts it.
pub(crate) fn begun(machine: &mut Machine, buffer: u32) -> Result<(), AllocError>
    ensures ok { OnOk result (KeepsTask (Task.Change (ChangeTask.Begun buffer)) machine.old machine.new) }
    ensures err { OnErr result (IsUnchanged machine.old.output machine.new.output) }
{
    let Some(made) = machine.made.checked_add(1) else {
        return Err(AllocError);
    };
    new_record(machine, buffer, made)?;
    machine.made = made;
    complete(machine);
    Ok(())
}
