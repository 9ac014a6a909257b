//! The lock of a record that is read, and the second reading under it.

ghost use Rattle.std.specs.Prelude.{◌≡◌, OnOk, OnErr};
ghost use Rattle.block_meaning.specs.Lines.{IsLocked};
ghost use Rattle.block_meaning.specs.State as state;
ghost use Rattle.block_meaning.specs.Frames.{table_of};
ghost use Rattle.block_meaning.specs.Reads.{held_as, is_exclusive};
ghost use Rattle.database_protocol.specs.declared.operation.Op.{Op};
ghost use Rattle.record_rules.specs.declared.answers.Grant.{Grant};
ghost use Rattle.flat_machine.specs.Flat as flat;
ghost use Rattle.client_memory.specs.Buffers.{denoted_held};
ghost use Rattle.client_output.specs.Written.{IsUnchanged};
ghost use Rattle.record_rules.specs.Answers.{grant_of};
ghost use Rattle.client_machine.specs.Config.{reading_at as reading_there};
ghost use Rattle.client_machine.specs.KeepsFrom.{KeepsFrom};
ghost use Rattle.client_machine.specs.Machine.{stack_in};
ghost use Rattle.client_finds.specs.Steps.{instrs_in, KeepsExecuted};

use crate::goes::{ask, complete, fail, lose};
use crate::ops::{get_op, lock_op};
use crate::places::{buffer_at, lock_at};
use crate::readings::{settle, show_again};
use abl_base::{Row, RowId};
use bound_tree::LockWanted;
use client_machine::machine::Machine;
use client_machine::mode::LineFault;
use client_machine::mode::reads::ReadAnswer;
use client_memory::Held;
use evaluator::EvalFault;
use record_rules::Grant;
use record_rules::lines::Complaint;
use std::alloc::AllocError;

/// A record that passed WHERE is locked, where the reading wants a lock.
pub(crate) fn take_as(
    machine: &mut Machine,
    place: usize,
    wait: bool,
    retry: bool,
    row: RowId,
) -> Result<(), AllocError>
    ensures ok { OnOk result (KeepsExecuted (flat.TakesAs (reading_there (instrs_in machine.old) place) wait retry row) machine.old machine.new) }
    ensures err { OnErr result (IsUnchanged machine.old.output machine.new.output) }
{
    match lock_at(&machine.code, place) {
        None => Err(AllocError),
        Some(LockWanted::NoLock) => {
            complete(machine);
            Ok(())
        }
        Some(LockWanted::Share) => lock_row(machine, place, wait, retry, row),
        Some(LockWanted::Exclusive) => lock_row(machine, place, wait, retry, row),
    }
}

/// Asks for the lock of a row.
fn lock_row(
    machine: &mut Machine,
    place: usize,
    wait: bool,
    retry: bool,
    row: RowId,
) -> Result<(), AllocError>
    ensures ok { OnOk result (KeepsFrom (λ p s. flat.ask (Op.Lock (table_of (reading_there (instrs_in machine.old) place).buffer s) row (is_exclusive (reading_there (instrs_in machine.old) place).lock) wait) (flat.WasGranted (reading_there (instrs_in machine.old) place) retry row) (stack_in machine.old) s) machine.old machine.new) }
    ensures err { OnErr result (IsUnchanged machine.old.output machine.new.output) }
{
    let Some(op) = lock_op(machine, place, row, wait) else {
        return Err(AllocError);
    };
    ask(machine, op, ReadAnswer::WasGranted { place, retry, row });
    Ok(())
}

/// Reads a row that is held so.
fn read_row(
    machine: &mut Machine,
    place: usize,
    retry: bool,
    row: RowId,
    held: Held,
) -> Result<(), AllocError>
    ensures ok { OnOk result (KeepsFrom (λ p s. flat.ask (Op.Get (table_of (reading_there (instrs_in machine.old) place).buffer s) row) (flat.WasRead (reading_there (instrs_in machine.old) place) retry row (denoted_held held)) (stack_in machine.old) s) machine.old machine.new) }
    ensures err { OnErr result (IsUnchanged machine.old.output machine.new.output) }
{
    let Some(op) = get_op(machine, place, row) else {
        return Err(AllocError);
    };
    ask(
        machine,
        op,
        ReadAnswer::WasRead {
            place,
            retry,
            row,
            held,
        },
    );
    Ok(())
}

/// The record of a FOR is read again in a retry of its iteration: under a lock that it waits for, or
/// without one.
pub(crate) fn take_again(
    machine: &mut Machine,
    place: usize,
    retry: bool,
    row: RowId,
) -> Result<(), AllocError>
    ensures ok { OnOk result (KeepsExecuted (flat.TakesAgain (reading_there (instrs_in machine.old) place) retry row) machine.old machine.new) }
    ensures err { OnErr result (IsUnchanged machine.old.output machine.new.output) }
{
    match lock_at(&machine.code, place) {
        None => Err(AllocError),
        Some(LockWanted::NoLock) => read_row(machine, place, retry, row, Held::NoLock),
        Some(LockWanted::Share) => lock_row(machine, place, true, retry, row),
        Some(LockWanted::Exclusive) => lock_row(machine, place, true, retry, row),
    }
}

/// The lock under which a buffer holds a row that is read so.
pub(crate) fn held_under(lock: LockWanted) -> Held
    ensures { denoted_held result ≡ held_as lock }
{
    match lock {
        LockWanted::NoLock => Held::NoLock,
        LockWanted::Share => Held::Share,
        LockWanted::Exclusive => Held::Exclusive,
    }
}

/// The lock that a row has which is held so.
fn lock_of(held: Held) -> LockWanted
    ensures { held_as result ≡ denoted_held held }
{
    match held {
        Held::NoLock => LockWanted::NoLock,
        Held::Share => LockWanted::Share,
        Held::Exclusive => LockWanted::Exclusive,
    }
}

/// After Lock of a record that passed WHERE: it is read again.
pub(crate) fn was_granted(
    machine: &mut Machine,
    place: usize,
    retry: bool,
    row: RowId,
    grant: Grant,
) -> Result<(), AllocError>
    ensures ok { OnOk result (KeepsFrom (λ p s. flat.grant_answered (grant_of grant) (reading_there (instrs_in machine.old) place) retry row (stack_in machine.old) s) machine.old machine.new) }
    ensures err { OnErr result (IsUnchanged machine.old.output machine.new.output) }
{
    match grant {
        Grant::Granted => read_locked(machine, place, retry, row),
        Grant::Busy => refuse_locked(machine, place, retry, row),
        Grant::Gone => lose_gone(machine, place, retry, row),
    }
}

/// The lock was granted.
fn read_locked(
    machine: &mut Machine,
    place: usize,
    retry: bool,
    row: RowId,
) -> Result<(), AllocError>
    ensures ok { OnOk result (KeepsFrom (λ p s. flat.grant_answered (grant_of Grant.Granted) (reading_there (instrs_in machine.old) place) retry row (stack_in machine.old) s) machine.old machine.new) }
    ensures err { OnErr result (IsUnchanged machine.old.output machine.new.output) }
{
    let Some(lock) = lock_at(&machine.code, place) else {
        return Err(AllocError);
    };
    read_row(machine, place, retry, row, held_under(lock))
}

/// Another client holds the record.
fn refuse_locked(
    machine: &mut Machine,
    place: usize,
    retry: bool,
    row: RowId,
) -> Result<(), AllocError>
    ensures ok { OnOk result (KeepsFrom (λ p s. flat.grant_answered (grant_of Grant.Busy) (reading_there (instrs_in machine.old) place) retry row (stack_in machine.old) s) machine.old machine.new) }
    ensures err { OnErr result (IsUnchanged machine.old.output machine.new.output) }
{
    let _ = (retry, row);
    let Some(buffer) = buffer_at(&machine.code, place) else {
        return Err(AllocError);
    };
    settle(machine, place, Grant::Busy)?;
    fail(machine, LineFault::Complaint(Complaint::Locked(buffer)));
    Ok(())
}

/// The row is gone.
fn lose_gone(machine: &mut Machine, place: usize, retry: bool, row: RowId) -> Result<(), AllocError>
    ensures ok { OnOk result (KeepsFrom (λ p s. flat.grant_answered (grant_of Grant.Gone) (reading_there (instrs_in machine.old) place) retry row (stack_in machine.old) s) machine.old machine.new) }
    ensures err { OnErr result (IsUnchanged machine.old.output machine.new.output) }
{
    let _ = (retry, row);
    settle(machine, place, Grant::Gone)?;
    lose(machine);
    Ok(())
}

/// After the second reading: WHERE is tested of the values that the row has now.
pub(crate) fn was_read(
    machine: &mut Machine,
    place: usize,
    retry: bool,
    row: RowId,
    held: Held,
    values: Option<Row>,
) -> Result<(), AllocError>
    ensures ok { OnOk result (KeepsFrom (λ p s. flat.read_answered p values (reading_there (instrs_in machine.old) place) retry row (denoted_held held) (stack_in machine.old) s) machine.old machine.new) }
    ensures err { OnErr result (IsUnchanged machine.old.output machine.new.output) }
{
    match show_again(machine, place, retry, row, lock_of(held), values) {
        Ok(true) => {
            complete(machine);
            Ok(())
        }
        Ok(false) => {
            lose(machine);
            Ok(())
        }
        Err(EvalFault::Fault(fault)) => {
            fail(machine, LineFault::Expression(fault));
            Ok(())
        }
        Err(EvalFault::NoMemory) => Err(AllocError),
    }
}
