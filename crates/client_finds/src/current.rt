//! FIND CURRENT (OpenEdge ABL Reference, FIND statement, CURRENT): the record of the buffer is locked
//! and read again.

ghost use Rattle.std.specs.Prelude.{◌≡◌, OnOk, OnErr};
ghost use Rattle.block_meaning.specs.Reads.{is_exclusive};
ghost use Rattle.block_meaning.specs.Frames.{table_of};
ghost use Rattle.flat_machine.specs.Flat as flat;
ghost use Rattle.database_protocol.specs.declared.operation.Op.{Op};
ghost use Rattle.client_output.specs.Written.{IsUnchanged};
ghost use Rattle.record_rules.specs.declared.answers.Grant.{Grant};
ghost use Rattle.record_rules.specs.Answers.{grant_of};
ghost use Rattle.client_machine.specs.declared.mode.Task.{Task};
ghost use Rattle.client_machine.specs.declared.mode.reads.ReadTask.{ReadTask};
ghost use Rattle.client_machine.specs.Config.{instr_at, reading_at as reading_there};
ghost use Rattle.client_machine.specs.KeepsFrom.{KeepsFrom};
ghost use Rattle.client_machine.specs.Machine.{stack_in};
ghost use Rattle.client_machine.specs.Statements.{wait_in};
ghost use Rattle.client_machine.specs.Step.{KeepsTask};
ghost use Rattle.client_finds.specs.Steps.{instrs_in};

use crate::goes::{ask, complete, fail};
use crate::ops::{get_op, lock_op};
use crate::places::{buffer_at, lock_at, waits_at};
use crate::readings::{settle, show_current, start_current};
use abl_base::{Row, RowId};
use bound_tree::LockWanted;
use buffer_steps::reads::Current;
use client_machine::machine::Machine;
use client_machine::mode::LineFault;
use client_machine::mode::reads::ReadAnswer;
use record_rules::Grant;
use record_rules::lines::Complaint;
use std::alloc::AllocError;

/// The FIND CURRENT at the place: an empty buffer is a fault, and a record that is not inserted yet
/// stays as it is.
pub(crate) fn finds_current(machine: &mut Machine, place: usize) -> Result<(), AllocError>
    ensures ok { OnOk result (KeepsTask (Task.Read (ReadTask.FindsCurrent place)) machine.old machine.new) }
    ensures err { OnErr result (IsUnchanged machine.old.output machine.new.output) }
{
    let Some(buffer) = buffer_at(&machine.code, place) else {
        return Err(AllocError);
    };
    match start_current(machine, place) {
        Ok(Current::Empty) => {
            fail(machine, LineFault::Complaint(Complaint::NoRecord(buffer)));
            Ok(())
        }
        Ok(Current::Pending) => {
            complete(machine);
            Ok(())
        }
        Ok(Current::Record { row, made }) => request(machine, place, row, made),
        Err(error) => Err(error),
    }
}

/// The row is locked, where a lock is wanted, else read.
fn request(
    machine: &mut Machine,
    place: usize,
    row: RowId,
    made: Option<u64>,
) -> Result<(), AllocError>
    ensures ok { OnOk result (KeepsFrom (λ p s. flat.current_step (reading_there (instrs_in machine.old) place).lock (reading_there (instrs_in machine.old) place) (wait_in (instr_at (instrs_in machine.old) place)) row made (stack_in machine.old) s) machine.old machine.new) }
    ensures err { OnErr result (IsUnchanged machine.old.output machine.new.output) }
{
    match lock_at(&machine.code, place) {
        None => Err(AllocError),
        Some(LockWanted::NoLock) => read_row(machine, place, row, made),
        Some(LockWanted::Share) => lock_row(machine, place, row, made),
        Some(LockWanted::Exclusive) => lock_row(machine, place, row, made),
    }
}

/// Asks for the lock.
fn lock_row(
    machine: &mut Machine,
    place: usize,
    row: RowId,
    made: Option<u64>,
) -> Result<(), AllocError>
    ensures ok { OnOk result (KeepsFrom (λ p s. flat.ask (Op.Lock (table_of (reading_there (instrs_in machine.old) place).buffer s) row (is_exclusive (reading_there (instrs_in machine.old) place).lock) (wait_in (instr_at (instrs_in machine.old) place))) (flat.CurrentGranted (reading_there (instrs_in machine.old) place) row made) (stack_in machine.old) s) machine.old machine.new) }
    ensures err { OnErr result (IsUnchanged machine.old.output machine.new.output) }
{
    let Some(wait) = waits_at(&machine.code, place) else {
        return Err(AllocError);
    };
    let Some(op) = lock_op(machine, place, row, wait) else {
        return Err(AllocError);
    };
    ask(machine, op, ReadAnswer::CurrentGranted { place, row, made });
    Ok(())
}

/// Reads the row.
fn read_row(
    machine: &mut Machine,
    place: usize,
    row: RowId,
    made: Option<u64>,
) -> Result<(), AllocError>
    ensures ok { OnOk result (KeepsFrom (λ p s. flat.ask (Op.Get (table_of (reading_there (instrs_in machine.old) place).buffer s) row) (flat.WasCurrent (reading_there (instrs_in machine.old) place) row made) (stack_in machine.old) s) machine.old machine.new) }
    ensures err { OnErr result (IsUnchanged machine.old.output machine.new.output) }
{
    let Some(op) = get_op(machine, place, row) else {
        return Err(AllocError);
    };
    ask(machine, op, ReadAnswer::WasCurrent { place, row, made });
    Ok(())
}

/// After Lock: the row is read.
pub(crate) fn current_granted(
    machine: &mut Machine,
    place: usize,
    row: RowId,
    made: Option<u64>,
    grant: Grant,
) -> Result<(), AllocError>
    ensures ok { OnOk result (KeepsFrom (λ p s. flat.current_grant_answered (grant_of grant) (reading_there (instrs_in machine.old) place) row made (stack_in machine.old) s) machine.old machine.new) }
    ensures err { OnErr result (IsUnchanged machine.old.output machine.new.output) }
{
    match grant {
        Grant::Granted => read_row(machine, place, row, made),
        Grant::Busy => refuse_locked(machine, place, row, made),
        Grant::Gone => find_gone(machine, place, row, made),
    }
}

/// Another client holds the record.
fn refuse_locked(
    machine: &mut Machine,
    place: usize,
    row: RowId,
    made: Option<u64>,
) -> Result<(), AllocError>
    ensures ok { OnOk result (KeepsFrom (λ p s. flat.current_grant_answered (grant_of Grant.Busy) (reading_there (instrs_in machine.old) place) row made (stack_in machine.old) s) machine.old machine.new) }
    ensures err { OnErr result (IsUnchanged machine.old.output machine.new.output) }
{
    let _ = (row, made);
    let Some(buffer) = buffer_at(&machine.code, place) else {
        return Err(AllocError);
    };
    settle(machine, place, Grant::Busy)?;
    fail(machine, LineFault::Complaint(Complaint::Locked(buffer)));
    Ok(())
}

/// The row is gone: no record is found.
fn find_gone(
    machine: &mut Machine,
    place: usize,
    row: RowId,
    made: Option<u64>,
) -> Result<(), AllocError>
    ensures ok { OnOk result (KeepsFrom (λ p s. flat.current_grant_answered (grant_of Grant.Gone) (reading_there (instrs_in machine.old) place) row made (stack_in machine.old) s) machine.old machine.new) }
    ensures err { OnErr result (IsUnchanged machine.old.output machine.new.output) }
{
    let _ = (row, made);
    let Some(buffer) = buffer_at(&machine.code, place) else {
        return Err(AllocError);
    };
    settle(machine, place, Grant::Gone)?;
    fail(
        machine,
        LineFault::Complaint(Complaint::NoRecordFound(buffer)),
    );
    Ok(())
}

/// After the row was read: the buffer holds it, or no record is found.
pub(crate) fn was_current(
    machine: &mut Machine,
    place: usize,
    row: RowId,
    made: Option<u64>,
    values: Option<Row>,
) -> Result<(), AllocError>
    ensures ok { OnOk result (KeepsFrom (λ p s. flat.current_answered values (reading_there (instrs_in machine.old) place) row made (stack_in machine.old) s) machine.old machine.new) }
    ensures err { OnErr result (IsUnchanged machine.old.output machine.new.output) }
{
    let Some(buffer) = buffer_at(&machine.code, place) else {
        return Err(AllocError);
    };
    match show_current(machine, place, row, made, values) {
        Ok(true) => {
            complete(machine);
            Ok(())
        }
        Ok(false) => {
            fail(
                machine,
                LineFault::Complaint(Complaint::NoRecordFound(buffer)),
            );
            Ok(())
        }
        Err(error) => Err(error),
    }
}
