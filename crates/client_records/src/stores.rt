//! The end of a statement that changes records: each changed buffer is stored, or has its values from
//! before the statement again (OpenEdge ABL Reference, ASSIGN statement).

ghost use Rattle.std.specs.Prelude.{◌≡◌, OnErr, OnOk};
ghost use Rattle.client_machine.specs.AnswerClass.{IsOfAnswerClass, KeepsAnswer};
ghost use Rattle.client_machine.specs.Order.{IsNoFault};
ghost use Rattle.client_machine.specs.Step.{KeepsEntry, KeepsTask};
ghost use Rattle.client_machine.specs.declared.answers.AnswerClass.{AnswerClass};
ghost use Rattle.client_machine.specs.declared.mode.Completion.{Completion};
ghost use Rattle.client_machine.specs.declared.mode.Mode.{Mode};
ghost use Rattle.client_machine.specs.declared.mode.OnAnswer.{OnAnswer};
ghost use Rattle.client_machine.specs.declared.mode.StackEntry.{StackEntry};
ghost use Rattle.client_machine.specs.declared.mode.Task.{Task};
ghost use Rattle.client_machine.specs.declared.mode.changes.ChangeAnswer.{ChangeAnswer};
ghost use Rattle.client_machine.specs.declared.mode.changes.ChangeEntry.{ChangeEntry};
ghost use Rattle.client_machine.specs.declared.mode.changes.ChangeTask.{ChangeTask};
ghost use Rattle.client_machine.specs.declared.mode.ends.EndTask.{EndTask};
ghost use Rattle.client_output.specs.Written.{IsUnchanged};

use crate::completions::{complain, complete};
use crate::memory::{restore, store_step, table};
use buffer_steps::changes::StoreStep;
use client_machine::machine::Machine;
use client_machine::mode::changes::ChangeAnswer;
use client_machine::mode::ends::EndTask;
use client_machine::mode::{Completion, LineFault, Mode, OnAnswer, Task};
use client_memory::{Content, Place};
use database_protocol::{Answer, Op};
use record_rules::refusal_in;
use std::alloc::AllocError;

/// A changed buffer is stored: a row by Put, and a pending record once each unique index has an
/// assigned component.
pub(crate) fn settles_one(machine: &mut Machine, buffer: u32) -> Result<(), AllocError>
    ensures ok { OnOk result (KeepsTask (Task.Change (ChangeTask.SettlesOne buffer)) machine.old machine.new) }
    ensures err { OnErr result (IsUnchanged machine.old.output machine.new.output) }
{
    let table = table(machine, buffer);
    match store_step(machine, buffer)? {
        StoreStep::Nothing => {
            complete(machine);
            Ok(())
        }
        StoreStep::Inserts => {
            insert(machine, buffer);
            Ok(())
        }
        StoreStep::Fails(complaint) => {
            complain(machine, complaint);
            Ok(())
        }
        StoreStep::Asks(op) => {
            machine.ask(op, OnAnswer::Change(ChangeAnswer::WasPut { buffer, table }));
            Ok(())
        }
    }
}

/// The pending record in the buffer is inserted next.
fn insert(machine: &mut Machine, buffer: u32)
    ensures { machine.new ≡ record machine.old { mode = Mode.Execute (Task.End (EndTask.EntersOne (record { out = 0; number = buffer }))) } }
{
    machine.set_mode(Mode::Execute(Task::End(EndTask::EntersOne(Place::own(buffer as usize)))));
}

/// After Put: a refusal is a fault.
pub(crate) fn was_put(
    machine: &mut Machine,
    op: Op,
    answer: Answer,
    buffer: u32,
    table: u16,
) -> Result<(), AllocError>
    requires { IsOfAnswerClass AnswerClass.Done answer }
    ensures ok { OnOk result (KeepsAnswer op (OnAnswer.Change (ChangeAnswer.WasPut buffer table)) answer machine.old machine.new) }
    ensures err { OnErr result (IsUnchanged machine.old.output machine.new.output) }
{
    let _ = op;
    match refusal_in(buffer, table, &answer) {
        Some(complaint) => {
            complain(machine, complaint);
            Ok(())
        }
        None => {
            complete(machine);
            Ok(())
        }
    }
}

/// A completion reaches the content of a buffer before the statement: a fault restores it.
pub(crate) fn as_before(
    machine: &mut Machine,
    buffer: u32,
    content: Content,
    completion: Completion,
) -> Result<(), AllocError>
    ensures ok { OnOk result (KeepsEntry (StackEntry.Change (ChangeEntry.AsBefore buffer content)) completion machine.old machine.new) }
    ensures err { OnErr result (IsUnchanged machine.old.output machine.new.output) }
{
    match completion {
        Completion::Faults(fault) => restores(machine, buffer, content, fault),
        _ => passes_by(machine, buffer, content, completion),
    }
}

/// The same for a fault.
fn restores(
    machine: &mut Machine,
    buffer: u32,
    content: Content,
    fault: Option<LineFault>,
) -> Result<(), AllocError>
    ensures ok { OnOk result (KeepsEntry (StackEntry.Change (ChangeEntry.AsBefore buffer content)) (Completion.Faults fault) machine.old machine.new) }
    ensures err { OnErr result (IsUnchanged machine.old.output machine.new.output) }
{
    restore(machine, buffer, content);
    machine.set_mode(Mode::Unwind(Completion::Faults(fault)));
    Ok(())
}

/// The same for another completion, which passes by.
fn passes_by(
    machine: &mut Machine,
    buffer: u32,
    content: Content,
    completion: Completion,
) -> Result<(), AllocError>
    requires other { IsNoFault completion }
    ensures ok { OnOk result (KeepsEntry (StackEntry.Change (ChangeEntry.AsBefore buffer content)) completion machine.old machine.new) }
    ensures err { OnErr result (IsUnchanged machine.old.output machine.new.output) }
{
    let _ = (buffer, content);
    machine.set_mode(Mode::Unwind(completion));
    Ok(())
}
