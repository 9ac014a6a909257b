//! Buffers are released: a pending record is inserted, the buffer is emptied, and a lock that nothing
//! needs is dropped.

ghost use Rattle.std.specs.Prelude.{◌≡◌, ◌∷◌, ◌+◌, ◌<◌, ◌^◌, [], ℕ, IfOk, MatchOption, OnOk, OnErr, drop};
ghost use Rattle.block_meaning.specs.State.{Empty};
ghost use Rattle.block_meaning.specs.Buffers.{own};
ghost use Rattle.client_memory.specs.Memory.{holding};
ghost use Rattle.client_machine.specs.declared.mode.Task.{Task};
ghost use Rattle.client_machine.specs.declared.mode.ends.EndTask.{EndTask};
ghost use Rattle.client_machine.specs.Config.{header_at};
ghost use Rattle.client_machine.specs.Step.{KeepsTask};
ghost use Rattle.client_output.specs.Written.{IsUnchanged};
ghost use Rattle.client_ends.specs.Drops.{dropped_row};

use crate::lists::scoped_at;
use abl_base::RowId;
use client_machine::machine::Machine;
use client_machine::mode::ends::{EndAnswer, EndTask};
use client_machine::mode::{Completion, Mode, OnAnswer, StackEntry, Task};
use client_memory::{Content, Memory, Place};
use database_protocol::Op;
use record_rules::is_row_in;
use std::alloc::AllocError;

/// Empties a buffer of the running procedure. Outside a transaction the lock of its row is dropped,
/// unless another buffer of the client holds the row. (OpenEdge ABL Reference, RELEASE statement.)
pub fn drop_record(machine: &mut Machine, buffer: u32) -> Result<(), AllocError>
    ensures ok { OnOk result (KeepsTask (Task.End (EndTask.Drops buffer)) machine.old machine.new) }
    ensures err { OnErr result (IsUnchanged machine.old.output machine.new.output) }
{
    let row = row_to_drop(&machine.memory, buffer)?;
    let _ = machine
        .memory
        .replace(Place::own(buffer as usize), Content::Empty);
    match row {
        Some(row) => machine.ask(Op::Drop { row }, OnAnswer::End(EndAnswer::WasDropped)),
        None => machine.set_mode(Mode::Unwind(Completion::Normal)),
    }
    Ok(())
}

/// The row whose lock is dropped with the buffer, if one is. Out of memory is the only error.
fn row_to_drop(memory: &Memory, buffer: u32) -> Result<Option<RowId>, AllocError>
    ensures { IfOk result (λ row. row ≡ dropped_row buffer memory.now) }
{
    let Some(found) = memory.buffer(Place::own(buffer as usize)) else {
        return Ok(None);
    };
    let Some(row) = found.content.locked_row() else {
        return Ok(None);
    };
    if memory.depth() > 0 {
        return Ok(None);
    }
    let kept = memory.rows_kept(&[buffer])?;
    if is_row_in(row, kept.as_slice()) {
        Ok(None)
    } else {
        Ok(Some(row))
    }
}

/// Releases the buffers scoped to the block at the place, from this one on.
pub fn release_from(machine: &mut Machine, place: usize, from: usize) -> Result<(), AllocError>
    ensures ok { OnOk result (KeepsTask (Task.End (EndTask.Releases place from)) machine.old machine.new) }
    ensures err { OnErr result (IsUnchanged machine.old.output machine.new.output) }
{
    let Some(buffer) = buffer_at(scoped_at(&machine.code, place), from) else {
        machine.set_mode(Mode::Unwind(Completion::Normal));
        return Ok(());
    };
    let next = from + 1;
    machine.stack.push(StackEntry::Then(Task::End(EndTask::Releases { place, from: next })))?;
    machine
        .stack
        .push(StackEntry::Then(Task::End(EndTask::Drops(buffer))))?;
    machine.set_mode(Mode::Execute(Task::End(EndTask::EntersOne(Place::own(buffer as usize)))));
    Ok(())
}

/// The buffer of this index.
fn buffer_at(buffers: &[u32], index: usize) -> Option<u32>
    ensures { MatchOption result (drop index buffers.now ≡ []) (λ buffer. (index + 1 < 2 ^ 64) × ((next : ℕ) → next ≡ index + 1 → drop index buffers.now ≡ buffer ∷ drop next buffers.now)) }
{
    let buffer = buffers.get(index)?;
    Some(*buffer)
}
