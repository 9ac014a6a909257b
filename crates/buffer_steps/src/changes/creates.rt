//! CREATE, after the old record was released.

ghost use Rattle.std.specs.Prelude.{◌≡◌, [], OnOk};
ghost use Rattle.block_meaning.specs.Program.{Program, table_at};
ghost use Rattle.block_meaning.specs.State.{State, Pending};
ghost use Rattle.block_meaning.specs.Changes.{initial_values};
ghost use Rattle.block_meaning.specs.Frames.{holding, table_of};
ghost use Rattle.buffer_steps.specs.buffers.Fixed.{fixed_of};
ghost use Rattle.buffer_steps.specs.changes.Buffers.{Fits, HasTables, state_of};

use crate::buffers::RunningBuffers;
use crate::reads::RecordBuffers;
use abl_base::Items;
use abl_values::Schema;
use client_memory::Content;
use record_rules::initial_row;
use record_rules::lines::names::fields_of;
use std::alloc::{AllocError, Global};

/// The buffer holds a new pending record with the initial values of its table, and no field assigned
/// yet. `made` is the number of this CREATE. Out of memory is the only error, and leaves the buffer
/// as it was. (OpenEdge ABL Reference, CREATE statement.)
pub fn new_record(
    alloc: Global,
    buffers: &mut RunningBuffers<'_>,
    schema: &Schema,
    buffer: u32,
    made: u64,
) -> Result<(), AllocError>
    ensures fits { (p : Program) (rest : State) → Fits p rest buffers.old → Fits p rest buffers.new }
    ensures fixed { fixed_of buffers.new ≡ fixed_of buffers.old }
    ensures state { OnOk result ((p : Program) (rest : State) → HasTables p schema.now → Fits p rest buffers.old → state_of rest buffers.new ≡ holding buffer (Pending (initial_values (table_at p (table_of buffer (state_of rest buffers.old))).fields) [] made) (state_of rest buffers.old)) }
{
    let table = buffers.table(buffer);
    let values = initial_row(alloc, fields_of(schema, table))?;
    let content = Content::Pending {
        values,
        since: Items::empty(alloc),
        made,
    };
    let _ = buffers.replace(buffer, content);
    Ok(())
}
