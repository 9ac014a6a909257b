//! The operations that a reading asks for.

ghost use Rattle.std.specs.Prelude.{◌≡◌, IfSome};
ghost use Rattle.block_meaning.specs.Program.{Program};
ghost use Rattle.block_meaning.specs.State.{State};
ghost use Rattle.block_meaning.specs.Frames.{table_of};
ghost use Rattle.block_meaning.specs.Reads.{is_exclusive as is_exclusive_there};
ghost use Rattle.database_protocol.specs.declared.operation.Op.{Op};
ghost use Rattle.client_machine.specs.Config.{reading_at as reading_there};
ghost use Rattle.client_machine.specs.Order.{IsNotOnLevels};
ghost use Rattle.client_finds.specs.Stays.{ReadsIn, state_under};
ghost use Rattle.client_finds.specs.Steps.{instrs_in};

use crate::places::reading_at;
use abl_base::{Row, RowId};
use bound_tree::LockWanted;
use client_machine::machine::Machine;
use client_memory::Place;
use database_protocol::{Cursor, Op};

/// The number of the table of a buffer of the running procedure.
fn table_in(machine: &Machine, buffer: u32) -> u16
    ensures { (p : Program) (rest : State) → ReadsIn p rest machine.now → result ≡ table_of buffer (state_under rest machine.now) }
{
    match machine.memory.buffer(Place::own(buffer as usize)) {
        Some(buffer) => buffer.table,
        None => 0,
    }
}

/// The operation that finds the next row after `from`, or before it where `forward` is false, among
/// those that the prefix brackets.
pub(crate) fn next_op(
    machine: &Machine,
    place: usize,
    prefix: Row,
    from: Option<Cursor>,
    forward: bool,
) -> Option<Op>
    ensures op { IfSome result (λ op. (p : Program) (rest : State) → ReadsIn p rest machine.now → op ≡ Op.Next (table_of (reading_there (instrs_in machine.now) place).buffer (state_under rest machine.now)) (reading_there (instrs_in machine.now) place).index prefix from forward) }
    ensures kind { IfSome result (λ op. IsNotOnLevels op) }
{
    let reading = reading_at(&machine.code, place)?;
    let table = table_in(machine, reading.buffer);
    Some(Op::Next {
        table,
        index: reading.index,
        prefix,
        cursor: from,
        forward,
    })
}

/// The operation that locks a row as the reading asks.
pub(crate) fn lock_op(machine: &Machine, place: usize, row: RowId, wait: bool) -> Option<Op>
    ensures op { IfSome result (λ op. (p : Program) (rest : State) → ReadsIn p rest machine.now → op ≡ Op.Lock (table_of (reading_there (instrs_in machine.now) place).buffer (state_under rest machine.now)) row (is_exclusive_there (reading_there (instrs_in machine.now) place).lock) wait) }
    ensures kind { IfSome result (λ op. IsNotOnLevels op) }
{
    let reading = reading_at(&machine.code, place)?;
    let table = table_in(machine, reading.buffer);
    Some(Op::Lock {
        table,
        row,
        exclusive: is_exclusive(reading.lock),
        wait,
    })
}

/// The operation that reads a row.
pub(crate) fn get_op(machine: &Machine, place: usize, row: RowId) -> Option<Op>
    ensures op { IfSome result (λ op. (p : Program) (rest : State) → ReadsIn p rest machine.now → op ≡ Op.Get (table_of (reading_there (instrs_in machine.now) place).buffer (state_under rest machine.now)) row) }
    ensures kind { IfSome result (λ op. IsNotOnLevels op) }
{
    let reading = reading_at(&machine.code, place)?;
    let table = table_in(machine, reading.buffer);
    Some(Op::Get { table, row })
}

/// EXCLUSIVE-LOCK.
fn is_exclusive(lock: LockWanted) -> bool
    ensures { result ≡ is_exclusive_there lock }
{
    match lock {
        LockWanted::NoLock | LockWanted::Share => false,
        LockWanted::Exclusive => true,
    }
}
