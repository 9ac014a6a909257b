//! DELETE (OpenEdge ABL Reference, DELETE statement).

ghost use Rattle.std.specs.Prelude.{◌≡◌, OnErr, OnOk};
ghost use Rattle.client_machine.specs.AnswerClass.{IsOfAnswerClass, KeepsAnswer};
ghost use Rattle.client_machine.specs.Step.{KeepsTask};
ghost use Rattle.client_machine.specs.declared.answers.AnswerClass.{AnswerClass};
ghost use Rattle.client_machine.specs.declared.mode.OnAnswer.{OnAnswer};
ghost use Rattle.client_machine.specs.declared.mode.Task.{Task};
ghost use Rattle.client_machine.specs.declared.mode.changes.ChangeAnswer.{ChangeAnswer};
ghost use Rattle.client_machine.specs.declared.mode.changes.ChangeTask.{ChangeTask};
ghost use Rattle.client_output.specs.Written.{IsUnchanged};

use crate::completions::{complain, complete};
use crate::locks::lock;
use crate::memory::{begin_delete, hold};
use abl_base::RowId;
use buffer_steps::changes::DeleteStep;
use client_machine::machine::Machine;
use client_machine::mode::changes::{ChangeAnswer, ChangeTask};
use client_machine::mode::{OnAnswer, StackEntry, Task};
use client_memory::Content;
use database_protocol::{Answer, Op};
use record_rules::is_gone;
use record_rules::lines::Complaint;
use std::alloc::AllocError;

/// DELETE: an empty buffer is a fault, a pending record is dropped, and a row is locked exclusively
/// and then deleted.
pub(crate) fn deletes(machine: &mut Machine, buffer: u32) -> Result<(), AllocError>
    ensures ok { OnOk result (KeepsTask (Task.Change (ChangeTask.Deletes buffer)) machine.old machine.new) }
    ensures err { OnErr result (IsUnchanged machine.old.output machine.new.output) }
{
    match begin_delete(machine, buffer) {
        DeleteStep::NoRecord => {
            complain(machine, Complaint::NoRecord(buffer));
            Ok(())
        }
        DeleteStep::Dropped => {
            complete(machine);
            Ok(())
        }
        DeleteStep::Row { table, row } => {
            machine.stack.push(StackEntry::Then(Task::Change(ChangeTask::DeletesRow {
                buffer,
                table,
                row,
            })))?;
            lock(machine, buffer)
        }
    }
}

/// The row is deleted.
pub(crate) fn deletes_row(
    machine: &mut Machine,
    buffer: u32,
    table: u16,
    row: RowId,
) -> Result<(), AllocError>
    ensures ok { OnOk result (KeepsTask (Task.Change (ChangeTask.DeletesRow buffer table row)) machine.old machine.new) }
    ensures err { OnErr result (IsUnchanged machine.old.output machine.new.output) }
{
    machine.ask(
        Op::Delete { table, row },
        OnAnswer::Change(ChangeAnswer::WasDeleted(buffer)),
    );
    Ok(())
}

/// After Delete: the buffer is empty, unless another client has deleted the row before.
pub(crate) fn was_deleted(
    machine: &mut Machine,
    op: Op,
    answer: Answer,
    buffer: u32,
) -> Result<(), AllocError>
    requires { IsOfAnswerClass AnswerClass.Done answer }
    ensures ok { OnOk result (KeepsAnswer op (OnAnswer.Change (ChangeAnswer.WasDeleted buffer)) answer machine.old machine.new) }
    ensures err { OnErr result (IsUnchanged machine.old.output machine.new.output) }
{
    let _ = op;
    if is_gone(&answer) {
        complain(machine, Complaint::Gone(buffer));
        return Ok(());
    }
    hold(machine, buffer, Content::Empty);
    complete(machine);
    Ok(())
}
