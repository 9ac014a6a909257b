//! DELETE.

ghost use Rattle.std.specs.Prelude.{◌≡◌};
ghost use Rattle.block_meaning.specs.Program.{Program};
ghost use Rattle.block_meaning.specs.State.{State};
ghost use Rattle.buffer_steps.specs.buffers.Fixed.{fixed_of};
ghost use Rattle.buffer_steps.specs.changes.Buffers.{Fits, state_of};
ghost use Rattle.buffer_steps.specs.changes.Steps.{DeleteGoes, FoundGoes};

use crate::buffers::RunningBuffers;
use abl_base::RowId;
use client_memory::Content;

/// How DELETE begins.
#[derive(Clone, Copy)]
pub enum DeleteStep {
    /// The buffer is empty, which is a fault.
    NoRecord,
    /// The record was pending, and is dropped.
    Dropped,
    /// This row of this table is locked for the change, and then deleted.
    Row { table: u16, row: RowId },
}

/// DELETE begins: a pending record is dropped; a row stays in the buffer until it is deleted.
/// (OpenEdge ABL Reference, DELETE statement.)
pub fn begin_delete(buffers: &mut RunningBuffers<'_>, buffer: u32) -> DeleteStep
    ensures fits { (p : Program) (rest : State) → Fits p rest buffers.old → Fits p rest buffers.new }
    ensures fixed { fixed_of buffers.new ≡ fixed_of buffers.old }
    ensures goes { (p : Program) (rest : State) → Fits p rest buffers.old → DeleteGoes result buffer (state_of rest buffers.old) (state_of rest buffers.new) }
{
    let step = found_step(buffers, buffer);
    match step {
        DeleteStep::Dropped => {
            let _ = buffers.replace(buffer, Content::Empty);
        }
        DeleteStep::NoRecord => {}
        DeleteStep::Row { .. } => {}
    }
    step
}

/// How DELETE of what the buffer holds begins.
fn found_step(buffers: &RunningBuffers<'_>, buffer: u32) -> DeleteStep
    ensures { (p : Program) (rest : State) → Fits p rest buffers.now → FoundGoes result buffer (state_of rest buffers.now) }
{
    let Some(found) = buffers.own(buffer) else {
        return DeleteStep::NoRecord;
    };
    match &found.content {
        Content::Empty => DeleteStep::NoRecord,
        Content::Pending { .. } => DeleteStep::Dropped,
        Content::Record { row, .. } => DeleteStep::Row {
            table: found.table,
            row: *row,
        },
    }
}
