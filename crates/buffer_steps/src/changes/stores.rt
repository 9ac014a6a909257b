//! Storing a changed record.

ghost use Rattle.std.specs.Prelude.{◌≡◌, IfOk};
ghost use Rattle.block_meaning.specs.Program.{Program};
ghost use Rattle.block_meaning.specs.State.{State};
ghost use Rattle.buffer_steps.specs.changes.Buffers.{Fits, HasTables, state_of};
ghost use Rattle.buffer_steps.specs.changes.Steps.{PutGoes, SettleGoes};

use crate::buffers::RunningBuffers;
use abl_base::{Row, RowId, copy_row};
use abl_values::Schema;
use client_memory::Content;
use database_protocol::Op;
use record_rules::lines::Complaint;
use record_rules::lines::names::indexes_of;
use record_rules::{all_begun, unstorable};
use std::alloc::AllocError;

/// How a record is stored.
#[derive(Drop)]
pub enum StoreStep {
    /// There is nothing to store yet.
    Nothing,
    /// The pending record is inserted now.
    Inserts,
    /// The record may not be stored.
    Fails(Complaint),
    /// This operation stores it.
    Asks(Op),
}

/// A changed record at the end of its statement: a row is put, and a pending record is inserted once
/// each unique index has an assigned component. Out of memory is the only error. (OpenEdge ABL
/// Reference, ASSIGN statement; when a pending record is inserted is this project's choice.)
pub fn settle(
    buffers: &RunningBuffers<'_>,
    schema: &Schema,
    buffer: u32,
) -> Result<StoreStep, AllocError>
    ensures { IfOk result (λ step. (p : Program) (rest : State) → HasTables p schema.now → Fits p rest buffers.now → SettleGoes step p buffer (state_of rest buffers.now)) }
{
    let Some(found) = buffers.own(buffer) else {
        return Ok(StoreStep::Nothing);
    };
    match &found.content {
        Content::Empty => Ok(StoreStep::Nothing),
        Content::Pending { since, .. } => {
            if all_begun(indexes_of(schema, found.table), since.as_slice()) {
                Ok(StoreStep::Inserts)
            } else {
                Ok(StoreStep::Nothing)
            }
        }
        Content::Record { row, values, .. } => put(schema, found.table, *row, values),
    }
}

/// Stores a row that is held.
fn put(schema: &Schema, table: u16, row: RowId, values: &Row) -> Result<StoreStep, AllocError>
    ensures { IfOk result (λ step. (p : Program) → HasTables p schema.now → PutGoes step p table row values.now) }
{
    if let Some(complaint) = unstorable(schema, table, values.as_slice()) {
        return Ok(StoreStep::Fails(complaint));
    }
    let values = copy_row(values)?;
    Ok(StoreStep::Asks(Op::Put { table, row, values }))
}
