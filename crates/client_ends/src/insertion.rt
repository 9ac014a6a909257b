//! What becomes of the record in a buffer when the buffer is entered: a pending one is inserted, where
//! it may be stored.

ghost use Rattle.std.specs.Prelude.{◌≡◌, IfOk};
ghost use Rattle.block_meaning.specs.Program.{Program};
ghost use Rattle.client_memory.specs.Buffers.{denoted_buffer};
ghost use Rattle.client_ends.specs.Insertions.{EntersAs, InsertsAs};

use abl_base::{Row, copy_row};
use abl_values::Schema;
use client_memory::{Buffer, Content};
use record_rules::lines::Complaint;
use record_rules::unstorable;
use std::alloc::AllocError;

/// What becomes of the record in a buffer.
#[derive(Drop)]
pub enum Insertion {
    /// It is not pending.
    Nothing,
    /// It may not be stored.
    Fails(Complaint),
    /// It is inserted into the table. `made` is the number of its CREATE.
    Inserts { table: u16, values: Row, made: u64 },
}

/// What becomes of the record in the buffer. Out of memory is the only error. (OpenEdge ABL
/// Reference, CREATE and RELEASE statements.)
pub fn insertion_of(schema: &Schema, buffer: &Buffer) -> Result<Insertion, AllocError>
    ensures { IfOk result (λ step. (p : Program) → p.tables ≡ schema.now.tables → EntersAs step p (denoted_buffer buffer.now)) }
{
    match &buffer.content {
        Content::Empty => Ok(Insertion::Nothing),
        Content::Record { .. } => Ok(Insertion::Nothing),
        Content::Pending { values, made, .. } => inserted(schema, buffer.table, values, *made),
    }
}

/// The same for a pending record of the table.
fn inserted(schema: &Schema, table: u16, values: &Row, made: u64) -> Result<Insertion, AllocError>
    ensures { IfOk result (λ step. (p : Program) → p.tables ≡ schema.now.tables → InsertsAs step p table values.now made) }
{
    if let Some(complaint) = unstorable(schema, table, values.as_slice()) {
        return Ok(Insertion::Fails(complaint));
    }
    let values = copy_row(values)?;
    Ok(Insertion::Inserts {
        table,
        values,
        made,
    })
}
