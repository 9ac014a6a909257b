//! EXPORT of a buffer (OpenEdge ABL Reference, EXPORT): a line of the fields of its record.

ghost use Rattle.std.specs.Prelude.{◌≡◌, ◌++◌, ◌∷◌, ℕ, IfOk, IfSome, OnOk, OnErr, flat_map};
ghost use Rattle.abl_values.specs.Texts.{export_text};
ghost use Rattle.bound_tree.specs.Tree.{ExportRecord};
ghost use Rattle.flat_machine.specs.Flat as flat;
ghost use Rattle.block_meaning.specs.Frames.{content_of};
ghost use Rattle.block_meaning.specs.Program.{Program};
ghost use Rattle.block_meaning.specs.State.{State};
ghost use Rattle.block_meaning.specs.Values.{export_line, spaced};
ghost use Rattle.client_memory.specs.Buffers.{denoted_content};
ghost use Rattle.client_output.specs.Written.{IsUnchanged};
ghost use Rattle.client_streams.specs.lines.Writes.{WritesText};
ghost use Rattle.client_machine.specs.Config.{instr_at};
ghost use Rattle.client_machine.specs.Machine.{state_in};
ghost use Rattle.client_machine.specs.Step.{FitsIn, KeepsTask};
ghost use Rattle.client_machine.specs.declared.mode.Completion.{Completion};
ghost use Rattle.client_machine.specs.declared.mode.Mode.{Mode};
ghost use Rattle.client_machine.specs.declared.mode.Task.{Task};
ghost use Rattle.client_streams.specs.Records.{record_text};

use crate::statement::write_or_fail;
use abl_base::{Bytes, Value};
use abl_values::export_value;
use block_code::Instr;
use bound_tree::Stmt;
use client_machine::machine::Machine;
use client_memory::{Content, Place};
use evaluator::EvalFault;
use expression_meaning::RunFault;
use std::alloc::{AllocError, Global};

/// The stream that an EXPORT writes to, its buffer, and the place after the statement.
#[derive(Clone, Copy, Debug)]
pub(crate) struct RecordWriter {
    pub(crate) stream: u32,
    pub(crate) buffer: u32,
    pub(crate) next: usize,
}

/// EXPORT of a buffer at the place: a line of the fields of its record, in order, to the current
/// section of its stream. A record that is not inserted yet is one too; a buffer without a record is
/// a fault.
pub fn export_record(
    machine: &mut Machine,
    place: usize,
    left: u32,
    retry: bool,
) -> Result<(), AllocError>
    ensures ok { OnOk result (KeepsTask (Task.RunsFrom place left retry) machine.old machine.new) }
    ensures err { OnErr result (IsUnchanged machine.old.output machine.new.output) }
{
    let Some(writer) = export_at(machine, place) else {
        return Err(AllocError);
    };
    if !machine.charge() {
        return Ok(());
    }
    let text = record_line(machine, writer.buffer);
    write_or_fail(machine, text, writer.stream, writer.next, left, retry)
}

/// The line of the record in the buffer.
fn record_line(machine: &Machine, buffer: u32) -> Result<Bytes, EvalFault>
    ensures { (p : Program) (rest : State) → FitsIn p rest (Mode.Unwind Completion.Normal) machine.now → WritesText result (record_text buffer (content_of buffer (state_in rest machine.now))) }
{
    match machine.memory.buffer(Place::own(buffer as usize)) {
        None => Err(EvalFault::Fault(RunFault::EmptyBuffer(buffer))),
        Some(found) => content_line(machine.alloc, buffer, &found.content),
    }
}

/// The line of what the buffer holds.
fn content_line(alloc: Global, buffer: u32, content: &Content) -> Result<Bytes, EvalFault>
    ensures { WritesText result (record_text buffer (denoted_content content.now)) }
{
    match content {
        Content::Empty => Err(EvalFault::Fault(RunFault::EmptyBuffer(buffer))),
        Content::Record { values, .. } => Ok(row_line(alloc, values.as_slice())?),
        Content::Pending { values, .. } => Ok(row_line(alloc, values.as_slice())?),
    }
}

/// The line of the values of a row.
fn row_line(alloc: Global, values: &[Value]) -> Result<Bytes, AllocError>
    ensures { IfOk result (λ text. text ≡ export_line values.now) }
{
    let mut text = Vec::new(alloc);
    push_row(alloc, &mut text, values)?;
    text.push(b'\n')?;
    Ok(Bytes::from_vec(text))
}

/// Appends the texts of the values with a blank between.
fn push_row(alloc: Global, text: &mut Vec<u8>, values: &[Value]) -> Result<(), AllocError>
    ensures { OnOk result (text.new.items ≡ text.old.items ++ spaced export_text values.now) }
{
    match values.split_first() {
        None => Ok(()),
        Some((first, others)) => {
            push_text(alloc, text, first)?;
            push_after_blanks(alloc, text, others)
        }
    }
}

/// Appends the texts of the values with a blank before each.
fn push_after_blanks(alloc: Global, text: &mut Vec<u8>, values: &[Value]) -> Result<(), AllocError>
    ensures { OnOk result (text.new.items ≡ text.old.items ++ flat_map (λ v. 32 ∷ export_text v) values.now) }
{
    for value in values {
        text.push(b' ')?;
        push_text(alloc, text, value)?;
    }
    Ok(())
}

/// Appends the text of a value.
fn push_text(alloc: Global, text: &mut Vec<u8>, value: &Value) -> Result<(), AllocError>
    ensures { OnOk result (text.new.items ≡ text.old.items ++ export_text value.now) }
{
    text.extend_from_slice(export_value(alloc, value)?.as_slice())
}

/// The EXPORT of a buffer at the place.
fn export_at(machine: &Machine, place: usize) -> Option<RecordWriter>
    ensures { IfSome result (λ writer. instr_at machine.now.code.instrs.items place ≡ flat.Plain (ExportRecord writer.stream writer.buffer) writer.next) }
{
    match machine.code.instrs.get(place) {
        Some(
            Instr::Simple {
                stmt: Stmt::ExportRecord { stream, buffer },
                next,
            },
        ) => Some(RecordWriter {
            stream: *stream,
            buffer: *buffer,
            next: *next,
        }),
        _ => None,
    }
}
