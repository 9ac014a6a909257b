//! The tasks, entries and answers of changes.

ghost use Rattle.std.specs.Prelude.{◌≡◌, OnErr, OnOk};
ghost use Rattle.client_machine.specs.AnswerClass.{IsOfAnswerClass, KeepsAnswer};
ghost use Rattle.client_machine.specs.Step.{KeepsEntry, KeepsTask};
ghost use Rattle.client_machine.specs.declared.answers.AnswerClass.{AnswerClass};
ghost use Rattle.client_machine.specs.declared.mode.OnAnswer.{OnAnswer};
ghost use Rattle.client_machine.specs.declared.mode.StackEntry.{StackEntry};
ghost use Rattle.client_machine.specs.declared.mode.Task.{Task};
ghost use Rattle.client_machine.specs.declared.mode.changes.ChangeEntry.{ChangeEntry};
ghost use Rattle.client_output.specs.Written.{IsUnchanged};

use crate::assigns::{assigns, assigns_each, was_counted};
use crate::creates::{begun, creates};
use crate::deletes::{deletes, deletes_row, was_deleted};
use crate::locks::{locks_one, was_upgraded};
use crate::stores::{as_before, settles_one, was_put};
use client_machine::machine::Machine;
use client_machine::mode::Completion;
use client_machine::mode::changes::{ChangeAnswer, ChangeEntry, ChangeTask};
use client_memory::Content;
use database_protocol::{Answer, Op};
use std::alloc::AllocError;

/// Executes a task of a change. Out of memory is the only error.
pub fn execute(machine: &mut Machine, task: ChangeTask) -> Result<(), AllocError>
    ensures ok { OnOk result (KeepsTask (Task.Change task) machine.old machine.new) }
    ensures err { OnErr result (IsUnchanged machine.old.output machine.new.output) }
{
    match task {
        ChangeTask::Assigns { pairs, retry } => assigns(machine, pairs, retry),
        ChangeTask::AssignsEach { pairs, retry } => assigns_each(machine, pairs, retry),
        ChangeTask::LocksOne(buffer) => locks_one(machine, buffer),
        ChangeTask::SettlesOne(buffer) => settles_one(machine, buffer),
        ChangeTask::Creates(buffer) => creates(machine, buffer),
        ChangeTask::Begun(buffer) => begun(machine, buffer),
        ChangeTask::Deletes(buffer) => deletes(machine, buffer),
        ChangeTask::DeletesRow { buffer, table, row } => deletes_row(machine, buffer, table, row),
    }
}

/// A completion reaches an entry of a change, which was taken off the stack. Out of memory is the only
/// error.
pub fn unwind_to(
    machine: &mut Machine,
    entry: ChangeEntry,
    completion: Completion,
) -> Result<(), AllocError>
    ensures ok { OnOk result (KeepsEntry (StackEntry.Change entry) completion machine.old machine.new) }
    ensures err { OnErr result (IsUnchanged machine.old.output machine.new.output) }
{
    let Before { buffer, content } = before_in(entry);
    as_before(machine, buffer, content, completion)
}

/// The content of a buffer before a statement.
#[derive(Drop)]
struct Before {
    buffer: u32,
    content: Content,
}

/// What an entry of a change holds.
fn before_in(entry: ChangeEntry) -> Before
    ensures { ChangeEntry.AsBefore result.buffer result.content ≡ entry }
{
    match entry {
        ChangeEntry::AsBefore { buffer, content } => Before { buffer, content },
    }
}

/// Takes the answer to an operation of a change. Out of memory is the only error.
pub fn answer(
    machine: &mut Machine,
    op: Op,
    on_answer: ChangeAnswer,
    answer: Answer,
) -> Result<(), AllocError>
    requires { IsOfAnswerClass AnswerClass.Done answer }
    ensures ok { OnOk result (KeepsAnswer op (OnAnswer.Change on_answer) answer machine.old machine.new) }
    ensures err { OnErr result (IsUnchanged machine.old.output machine.new.output) }
{
    match on_answer {
        ChangeAnswer::WasCounted(target) => was_counted(machine, op, answer, target),
        ChangeAnswer::WasUpgraded {
            buffer,
            row,
            values,
            made,
        } => was_upgraded(machine, op, answer, buffer, row, values, made),
        ChangeAnswer::WasPut { buffer, table } => was_put(machine, op, answer, buffer, table),
        ChangeAnswer::WasDeleted(buffer) => was_deleted(machine, op, answer, buffer),
    }
}
