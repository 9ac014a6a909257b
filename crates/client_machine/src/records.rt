//! How the statements on records begin: FIND, CREATE, DELETE, RELEASE, and assignments to fields and
//! from sequences (OpenEdge ABL Reference, each by its first word). What follows is executed by the
//! layers above.

ghost use Rattle.std.specs.Prelude.{◌≡◌, ◌∷◌, OnOk, OnErr, reverse};
ghost use Rattle.flat_machine.specs.Flat as flat;
ghost use Rattle.client_output.specs.Written.{IsUnchanged};
ghost use Rattle.client_machine.specs.Config.{instr_at, task_of, stack_of};
ghost use Rattle.client_machine.specs.KeepsFrom.{KeepsFrom};
ghost use Rattle.client_machine.specs.Machine.{stack_in};
ghost use Rattle.client_machine.specs.Records.{stmt_of_kind, record_task_of, record_entry_of, entries_of_stmt};
ghost use Rattle.client_machine.specs.Step.{KeepsTask};
ghost use Rattle.client_machine.specs.declared.mode.Task.{Task};

use crate::machine::Machine;
use crate::mode::changes::{AssignmentList, ChangeTask};
use crate::mode::ends::EndTask;
use crate::mode::reads::{ReadEntry, ReadTask};
use crate::mode::{Mode, StackEntry, Task};
use crate::statements::RecordStmt;
use client_memory::buffer::Place;
use std::alloc::AllocError;

impl Machine {
    /// Begins the statement on records at the place: charges a unit, and clears ERROR-STATUS:ERROR
    /// under NO-ERROR.
    pub fn begin_record_stmt(
        &mut self,
        place: usize,
        stmt: RecordStmt,
        no_error: bool,
        next: usize,
        left: u32,
        retry: bool,
    ) -> Result<(), AllocError>
        requires is { instr_at self.old.code.instrs.items place ≡ flat.Plain (stmt_of_kind stmt no_error (instr_at self.old.code.instrs.items place)) next }
        ensures ok { OnOk result (KeepsTask (Task.RunsFrom place left retry) self.old self.new) }
        ensures err { OnErr result (IsUnchanged self.old.output self.new.output) }
    {
        if !self.charge() {
            return Ok(());
        }
        self.record_paid(place, stmt, no_error, next, left, retry)
    }

    /// The same after the unit was charged.
    fn record_paid(
        &mut self,
        place: usize,
        stmt: RecordStmt,
        no_error: bool,
        next: usize,
        left: u32,
        retry: bool,
    ) -> Result<(), AllocError>
        ensures ok { OnOk result (KeepsFrom (λ p s. flat.stmt_step p (stmt_of_kind stmt no_error (instr_at self.old.code.instrs.items place)) left retry (flat.ThenDo (flat.RunsFrom next left retry) ∷ stack_in self.old) s) self.old self.new) }
        ensures err { OnErr result (IsUnchanged self.old.output self.new.output) }
    {
        self.clear_status(no_error);
        self.record_cleared(place, stmt, no_error, next, left, retry)
    }

    /// The same after ERROR-STATUS:ERROR was cleared.
    fn record_cleared(
        &mut self,
        place: usize,
        stmt: RecordStmt,
        no_error: bool,
        next: usize,
        left: u32,
        retry: bool,
    ) -> Result<(), AllocError>
        ensures ok { OnOk result (KeepsFrom (λ p s. flat.config (flat.Execute (task_of self.old.code.instrs.items self.old.memory.copies (record_task_of stmt place retry))) (stack_of self.old.code.instrs.items self.old.memory.copies (entries_of_stmt stmt no_error next left retry (reverse self.old.stack.items))) s) self.old self.new) }
        ensures err { OnErr result (IsUnchanged self.old.output self.new.output) }
    {
        self.push_record(stmt, no_error, next, left, retry)?;
        self.set_mode(Mode::Execute(record_task(stmt, place, retry)));
        Ok(())
    }

    /// Pushes what follows the first task of the statement.
    fn push_record(
        &mut self,
        stmt: RecordStmt,
        no_error: bool,
        next: usize,
        left: u32,
        retry: bool,
    ) -> Result<(), AllocError>
        ensures moved { OnOk result (self.new ≡ record self.old { stack = self.new.stack }) }
        ensures pushed { OnOk result (reverse self.new.stack.items ≡ entries_of_stmt stmt no_error next left retry (reverse self.old.stack.items)) }
        ensures err { OnErr result (IsUnchanged self.old.output self.new.output) }
    {
        self.stack.push(StackEntry::Then(Task::RunsFrom {
            place: next,
            left,
            retry,
        }))?;
        self.stack.push(StackEntry::Handles(no_error))?;
        match record_entry(stmt, no_error) {
            None => Ok(()),
            Some(entry) => {
                self.stack.push(entry)?;
                Ok(())
            }
        }
    }
}

/// The entry above the one that handles the fault of the statement, if there is one.
fn record_entry(stmt: RecordStmt, no_error: bool) -> Option<StackEntry>
    ensures { result ≡ record_entry_of stmt no_error }
{
    match stmt {
        RecordStmt::Find => Some(StackEntry::Read(ReadEntry::Quiet(no_error))),
        RecordStmt::FindCurrent => None,
        RecordStmt::Create(_) => None,
        RecordStmt::Delete(_) => None,
        RecordStmt::Release(buffer) => Some(StackEntry::Then(Task::End(EndTask::Drops(buffer)))),
        RecordStmt::Assign => None,
    }
}

/// The first task of the statement at the place.
fn record_task(stmt: RecordStmt, place: usize, retry: bool) -> Task
    ensures { result ≡ record_task_of stmt place retry }
{
    match stmt {
        RecordStmt::Find => Task::Read(ReadTask::Finds { place, retry }),
        RecordStmt::FindCurrent => Task::Read(ReadTask::FindsCurrent(place)),
        RecordStmt::Create(buffer) => Task::Change(ChangeTask::Creates(buffer)),
        RecordStmt::Delete(buffer) => Task::Change(ChangeTask::Deletes(buffer)),
        RecordStmt::Release(buffer) => {
            Task::End(EndTask::EntersOne(Place::own(buffer as usize)))
        }
        RecordStmt::Assign => Task::Change(ChangeTask::Assigns {
            pairs: AssignmentList::Statement { place, from: 0 },
            retry,
        }),
    }
}
