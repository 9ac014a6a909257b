//! The exclusive lock before a change (OpenEdge ABL Reference, Record locks).

ghost use Rattle.std.specs.Prelude.{◌≡◌, OnErr, OnOk};
ghost use Rattle.block_meaning.specs.Frames.{content_of, table_of};
ghost use Rattle.flat_machine.specs.Flat as flat;
ghost use Rattle.client_machine.specs.AnswerClass.{IsOfAnswerClass, KeepsAnswer};
ghost use Rattle.client_machine.specs.KeepsFrom.{KeepsFrom};
ghost use Rattle.client_machine.specs.Machine.{stack_in};
ghost use Rattle.client_machine.specs.Step.{KeepsTask};
ghost use Rattle.client_machine.specs.declared.answers.AnswerClass.{AnswerClass};
ghost use Rattle.client_machine.specs.declared.mode.OnAnswer.{OnAnswer};
ghost use Rattle.client_machine.specs.declared.mode.Task.{Task};
ghost use Rattle.client_machine.specs.declared.mode.changes.ChangeAnswer.{ChangeAnswer};
ghost use Rattle.client_machine.specs.declared.mode.changes.ChangeTask.{ChangeTask};
ghost use Rattle.client_output.specs.Written.{IsUnchanged};

use crate::completions::{complain, complete};
use crate::memory::{LockStep, hold, lock_step};
use abl_base::{Row, RowId};
use client_machine::machine::Machine;
use client_machine::mode::OnAnswer;
use client_machine::mode::changes::ChangeAnswer;
use client_memory::{Content, Held};
use database_protocol::{Answer, Op};
use record_rules::is_gone;
use record_rules::lines::Complaint;
use std::alloc::AllocError;

/// The lock of a changed buffer, as a task.
pub(crate) fn locks_one(machine: &mut Machine, buffer: u32) -> Result<(), AllocError>
    ensures ok { OnOk result (KeepsTask (Task.Change (ChangeTask.LocksOne buffer)) machine.old machine.new) }
    ensures err { OnErr result (IsUnchanged machine.old.output machine.new.output) }
{
    lock(machine, buffer)
}

/// The record in the buffer is locked exclusively, where a change needs that: a record that was read
/// NO-LOCK is a fault, and a share lock is upgraded.
pub(crate) fn lock(machine: &mut Machine, buffer: u32) -> Result<(), AllocError>
    ensures ok { OnOk result (KeepsFrom (λ p s. flat.lock_step (content_of buffer s) (table_of buffer s) buffer (stack_in machine.old) s) machine.old machine.new) }
    ensures err { OnErr result (IsUnchanged machine.old.output machine.new.output) }
{
    match lock_step(machine, buffer)? {
        LockStep::Enough => {
            complete(machine);
            Ok(())
        }
        LockStep::ReadNoLock => {
            complain(machine, Complaint::ReadNoLock(buffer));
            Ok(())
        }
        LockStep::Asks {
            op,
            row,
            values,
            made,
        } => {
            let upgraded = ChangeAnswer::WasUpgraded {
                buffer,
                row,
                values,
                made,
            };
            machine.ask(op, OnAnswer::Change(upgraded));
            Ok(())
        }
    }
}

/// After Lock: the buffer holds its row exclusively, unless another client has deleted it.
pub(crate) fn was_upgraded(
    machine: &mut Machine,
    op: Op,
    answer: Answer,
    buffer: u32,
    row: RowId,
    values: Row,
    made: Option<u64>,
) -> Result<(), AllocError>
    requires { IsOfAnswerClass AnswerClass.Done answer }
    ensures ok { OnOk result (KeepsAnswer op (OnAnswer.Change (ChangeAnswer.WasUpgraded buffer row values made)) answer machine.old machine.new) }
    ensures err { OnErr result (IsUnchanged machine.old.output machine.new.output) }
{
    let _ = op;
    if is_gone(&answer) {
        complain(machine, Complaint::Gone(buffer));
        return Ok(());
    }
    let content = Content::Record {
        row,
        values,
        held: Held::Exclusive,
        made,
    };
    hold(machine, buffer, content);
    complete(machine);
    Ok(())
}
