//! Assignments to fields.

ghost use Rattle.std.specs.Prelude.{◌≡◌, ◌∷◌, IfOk, slice_set};
ghost use Rattle.block_meaning.specs.Program.{Program};
ghost use Rattle.block_meaning.specs.State.{State};
ghost use Rattle.block_meaning.specs.Changes.{stored_in};
ghost use Rattle.block_meaning.specs.Frames.{content_of};
ghost use Rattle.block_meaning.specs.Values.{is_available};
ghost use Rattle.client_values.specs.Ends.{Assigns};
ghost use Rattle.buffer_steps.specs.buffers.Fixed.{fixed_of};
ghost use Rattle.buffer_steps.specs.changes.Buffers.{Fits, state_of};

use crate::buffers::RunningBuffers;
use abl_base::{Items, Kind, Row, Value};
use client_memory::Content;
use client_values::fitted::fitted;
use evaluator::EvalFault;
use expression_meaning::RunFault;
use std::alloc::{AllocError, Global};

/// Assigns a value to a field of the record in a buffer. An empty buffer is a fault, and so is a
/// value out of the range of the field's kind; both leave the buffer as it was. The row is stored
/// at the end of the statement. (OpenEdge ABL Reference, Assignment statement.)
pub fn set_field(
    alloc: Global,
    buffers: &mut RunningBuffers<'_>,
    buffer: u32,
    field: u16,
    kind: Kind,
    value: Value,
) -> Result<(), EvalFault>
    ensures fits { (p : Program) (rest : State) → Fits p rest buffers.old → Fits p rest buffers.new }
    ensures fixed { fixed_of buffers.new ≡ fixed_of buffers.old }
    ensures assigns { (p : Program) (rest : State) → Fits p rest buffers.old → Assigns result (stored_in (content_of buffer (state_of rest buffers.old)) buffer field kind value (state_of rest buffers.old)) (state_of rest buffers.new) }
{
    if !has_record(buffers, buffer) {
        return Err(EvalFault::Fault(RunFault::EmptyBuffer(buffer)));
    }
    let value = fitted(alloc, value, kind)?;
    match buffers.replace(buffer, Content::Empty) {
        Content::Record {
            row,
            values,
            held,
            made,
        } => {
            let content = Content::Record {
                row,
                values: with_value(values, field, value),
                held,
                made,
            };
            let _ = buffers.replace(buffer, content);
        }
        Content::Pending {
            values,
            since,
            made,
        } => {
            let content = Content::Pending {
                values: with_value(values, field, value),
                since: with_first(field, since)?,
                made,
            };
            let _ = buffers.replace(buffer, content);
        }
        Content::Empty => {}
    }
    Ok(())
}

/// Whether the buffer holds a record.
fn has_record(buffers: &RunningBuffers<'_>, buffer: u32) -> bool
    ensures { (p : Program) (rest : State) → Fits p rest buffers.now → is_available (content_of buffer (state_of rest buffers.now)) ≡ result }
{
    let Some(found) = buffers.own(buffer) else {
        return false;
    };
    match &found.content {
        Content::Empty => false,
        Content::Record { .. } => true,
        Content::Pending { .. } => true,
    }
}

/// The row with another value of a field.
fn with_value(values: Row, field: u16, value: Value) -> Row
    ensures { result ≡ slice_set values field value }
{
    let mut values = values.into_vec();
    let field = usize::from(field);
    if field < values.len() {
        values[field] = value;
    }
    Items::from_vec(values)
}

/// The assigned fields with one more, the last one first.
fn with_first(field: u16, since: Items<u16>) -> Result<Items<u16>, AllocError>
    ensures { IfOk result (λ all. all ≡ field ∷ since) }
{
    let mut since = since.into_vec();
    since.insert(0, field)?;
    Ok(Items::from_vec(since))
}
