//! The lock before a change.

ghost use Rattle.std.specs.Prelude.{◌≡◌};
ghost use Rattle.block_meaning.specs.Program.{Program};
ghost use Rattle.block_meaning.specs.State.{State};
ghost use Rattle.client_memory.specs.Buffers.{denoted_held};
ghost use Rattle.buffer_steps.specs.changes.Buffers.{Fits, state_of};
ghost use Rattle.buffer_steps.specs.changes.Steps.{LockGoes, UpgradeGoes};

use crate::buffers::RunningBuffers;
use abl_base::RowId;
use client_memory::{Content, Held};
use database_protocol::Op;

/// The lock before a change of a record.
#[derive(Drop)]
pub enum ChangeLock {
    /// No lock is missing: the buffer holds the row exclusively, a pending record, or nothing.
    Enough,
    /// The record was read NO-LOCK, which is a fault.
    ReadNoLock,
    /// The share lock of this row is upgraded by this operation.
    Asks(Op, RowId),
}

/// The lock before a change of the record in a buffer. (OpenEdge ABL Reference, Record locks.)
pub fn lock_for_change(buffers: &RunningBuffers<'_>, buffer: u32) -> ChangeLock
    ensures { (p : Program) (rest : State) → Fits p rest buffers.now → LockGoes result buffer (state_of rest buffers.now) }
{
    let Some(found) = buffers.own(buffer) else {
        return ChangeLock::Enough;
    };
    match &found.content {
        Content::Empty => ChangeLock::Enough,
        Content::Pending { .. } => ChangeLock::Enough,
        Content::Record { row, held, .. } => lock_of(found.table, *row, *held),
    }
}

/// The same for a row that is held so.
fn lock_of(table: u16, row: RowId, held: Held) -> ChangeLock
    ensures { UpgradeGoes result table row (denoted_held held) }
{
    match held {
        Held::NoLock => ChangeLock::ReadNoLock,
        Held::Share => ChangeLock::Asks(
            Op::Lock {
                table,
                row,
                exclusive: true,
                wait: true,
            },
            row,
        ),
        Held::Exclusive => ChangeLock::Enough,
    }
}
