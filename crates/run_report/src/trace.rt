//! The lines of a trace (this project's choice).

ghost use Rattle.std.specs.Prelude.{◌≡◌, ◌<◌, ◌++◌, ◌∷◌, [], codes, decimal, is_ok, length, slice_index_or};
ghost use Rattle.abl_values.specs.Schema.{name_of};
ghost use Rattle.host_io.specs.declared.out.Stream.{Stream};
ghost use Rattle.host_io.specs.Out.{Writes};
ghost use Rattle.run_report.specs.Trace.{added, answer_name, client_names, either_letter, op_name, operands, sequence_name, trace_line, trace_part};

use crate::report::write_all;
use abl_base::Bytes;
use abl_values::Schema;
use database_protocol::{Answer, Event, Op};
use host_io::{Out, OutFailed, Stream};
use itoa::Buffer;

/// Writes the part of the report that has the trace: `== trace ==`, and for each event its number
/// from 1, the client's name, the operation and the answer, with the names of the schema. It takes
/// no memory.
pub fn write_trace<O: Out>(
    out: &mut O,
    schema: &Schema,
    names: &[Bytes],
    trace: &[Event],
) -> Result<(), OutFailed>
    ensures { Writes (is_ok result) Stream.Output (trace_part schema.now names.now trace.now) (O.state out.old) (O.state out.new) }
{
    write_heading(out)?;
    for (at, event) in trace.iter().enumerate() {
        write_event(out, schema, at as u64 + 1, names, event)?;
    }
    Ok(())
}

/// Writes the heading of the trace.
fn write_heading<O: Out>(out: &mut O) -> Result<(), OutFailed>
    ensures { Writes (is_ok result) Stream.Output (codes "== trace ==" ++ 10 ∷ []) (O.state out.old) (O.state out.new) }
{
    write_all(out, Stream::Output, &[b"== trace ==\n"])
}

/// Writes the line of an event.
fn write_event<O: Out>(
    out: &mut O,
    schema: &Schema,
    number: u64,
    names: &[Bytes],
    event: &Event,
) -> Result<(), OutFailed>
    ensures { Writes (is_ok result) Stream.Output (trace_line schema.now names.now number event.now) (O.state out.old) (O.state out.new) }
{
    write_caller(out, names, number, event.client)?;
    write_op(out, schema, &event.op)?;
    write_answer(out, names, &event.answer)
}

/// Writes the number of an event and the name of its client.
fn write_caller<O: Out>(
    out: &mut O,
    names: &[Bytes],
    number: u64,
    client: u16,
) -> Result<(), OutFailed>
    ensures { Writes (is_ok result) Stream.Output (decimal number ++ 32 ∷ slice_index_or names.now client []) (O.state out.old) (O.state out.new) }
{
    let mut digits = Buffer::new();
    let number = digits.format(number).as_bytes();
    write_two(out, number, client_name(names, client))
}

/// Writes the two words, with a blank between them.
fn write_two<'a, O: Out>(out: &mut O, first: &'a [u8], second: &'a [u8]) -> Result<(), OutFailed>
    ensures { Writes (is_ok result) Stream.Output (first.now ++ 32 ∷ second.now) (O.state out.old) (O.state out.new) }
{
    let pieces = [first, b" ", second];
    write_all(out, Stream::Output, &pieces)
}

/// The name of the client of this number, and nothing where there is none.
fn client_name(names: &[Bytes], client: u16) -> &[u8]
    ensures { result.now ≡ slice_index_or names.now client [] }
{
    match names.get(usize::from(client)) {
        Some(name) => name.as_slice(),
        None => b"",
    }
}

/// Writes the name of the operation, and what it is on: a number of rows, a level, a table, a row or
/// a sequence, each after a blank.
fn write_op<O: Out>(out: &mut O, schema: &Schema, op: &Op) -> Result<(), OutFailed>
    ensures { Writes (is_ok result) Stream.Output (32 ∷ op_name op.now ++ operands schema.now op.now) (O.state out.old) (O.state out.new) }
{
    let name = op_name(op);
    let mut digits = Buffer::new();
    match op {
        Op::Enter | Op::End => write_all(out, Stream::Output, &[b" ", name]),
        Op::Leave { keep } => {
            let rows = digits.format(keep.len() as u64).as_bytes();
            write_operand(out, name, rows)
        }
        Op::Back { depth } => {
            let level = digits.format(*depth).as_bytes();
            write_operand(out, name, level)
        }
        Op::Next { table, .. } | Op::Insert { table, .. } => {
            write_operand(out, name, table_name(schema, *table))
        }
        Op::Get { row, .. } | Op::Put { row, .. } | Op::Delete { row, .. } | Op::Drop { row } => {
            let row = digits.format(row.0).as_bytes();
            write_operand(out, name, row)
        }
        Op::Lock {
            row,
            exclusive,
            wait,
            ..
        } => {
            let row = digits.format(row.0).as_bytes();
            write_lock(out, name, row, *exclusive, *wait)
        }
        Op::NextValue { sequence } | Op::CurrentValue { sequence } => {
            write_operand(out, name, sequence_name(schema, *sequence))
        }
    }
}

/// Writes the name of an operation and what it is on.
fn write_operand<'a, O: Out>(
    out: &mut O,
    name: &'a [u8],
    operand: &'a [u8],
) -> Result<(), OutFailed>
    ensures { Writes (is_ok result) Stream.Output (32 ∷ name.now ++ 32 ∷ operand.now) (O.state out.old) (O.state out.new) }
{
    let pieces = [b" ", name, b" ", operand];
    write_all(out, Stream::Output, &pieces)
}

/// Writes the name of a lock operation, its row, X for an exclusive lock, else S, and W where the
/// client waits, else N.
fn write_lock<'a, O: Out>(
    out: &mut O,
    name: &'a [u8],
    row: &'a [u8],
    exclusive: bool,
    wait: bool,
) -> Result<(), OutFailed>
    ensures { Writes (is_ok result) Stream.Output (32 ∷ name.now ++ 32 ∷ row.now ++ either_letter exclusive 88 83 ++ either_letter wait 87 78) (O.state out.old) (O.state out.new) }
{
    let strength: &[u8] = if exclusive { b" X" } else { b" S" };
    let patience: &[u8] = if wait { b" W" } else { b" N" };
    let pieces = [b" ", name, b" ", row, strength, patience];
    write_all(out, Stream::Output, &pieces)
}

/// The name of the table of this number, and nothing where there is none.
fn table_name(schema: &Schema, table: u16) -> &[u8]
    ensures { result.now ≡ name_of schema.now table }
{
    if table < schema.tables() {
        schema.table_name(table)
    } else {
        b""
    }
}

/// The name of the sequence of this number, and nothing where there is none.
fn sequence_name(schema: &Schema, sequence: u16) -> &[u8]
    ensures { result.now ≡ sequence_name schema.now sequence }
{
    match schema.sequences().get(usize::from(sequence)) {
        Some(sequence) => sequence.name.as_slice(),
        None => b"",
    }
}

/// What the operation is called.
fn op_name(op: &Op) -> &'static [u8]
    ensures { result.now ≡ op_name op.now }
{
    match op {
        Op::Enter => b"Enter",
        Op::Leave { .. } => b"Leave",
        Op::Back { .. } => b"Back",
        Op::Next { .. } => b"Next",
        Op::Get { .. } => b"Get",
        Op::Lock { .. } => b"Lock",
        Op::Insert { .. } => b"Insert",
        Op::Put { .. } => b"Put",
        Op::Delete { .. } => b"Delete",
        Op::Drop { .. } => b"Drop",
        Op::NextValue { .. } => b"NextValue",
        Op::CurrentValue { .. } => b"CurrentValue",
        Op::End => b"End",
    }
}

/// Writes the name of the answer, what it adds to the name, and the end of the line.
fn write_answer<O: Out>(out: &mut O, names: &[Bytes], answer: &Answer) -> Result<(), OutFailed>
    ensures { Writes (is_ok result) Stream.Output (32 ∷ answer_name answer.now ++ added names.now answer.now ++ 10 ∷ []) (O.state out.old) (O.state out.new) }
{
    let name = answer_name(answer);
    let mut digits = Buffer::new();
    match answer {
        Answer::Found { row, .. } | Answer::Inserted { row } | Answer::Duplicate { row, .. } => {
            let row = digits.format(row.0).as_bytes();
            write_with_number(out, name, row)
        }
        Answer::Value(value) => {
            let value = digits.format(*value).as_bytes();
            write_with_number(out, name, value)
        }
        Answer::Busy { holders } | Answer::Blocked { holders } => {
            write_with_clients(out, name, names, holders.as_slice())
        }
        Answer::Deadlock { cycle } => write_with_clients(out, name, names, cycle.as_slice()),
        _ => write_all(out, Stream::Output, &[b" ", name, b"\n"]),
    }
}

/// Writes the name of an answer with a number.
fn write_with_number<'a, O: Out>(
    out: &mut O,
    name: &'a [u8],
    number: &'a [u8],
) -> Result<(), OutFailed>
    ensures { Writes (is_ok result) Stream.Output (32 ∷ name.now ++ 32 ∷ number.now ++ 10 ∷ []) (O.state out.old) (O.state out.new) }
{
    let pieces = [b" ", name, b" ", number, b"\n"];
    write_all(out, Stream::Output, &pieces)
}

/// Writes the name of an answer with the names of clients.
fn write_with_clients<O: Out>(
    out: &mut O,
    name: &[u8],
    names: &[Bytes],
    clients: &[u16],
) -> Result<(), OutFailed>
    ensures { Writes (is_ok result) Stream.Output (32 ∷ name.now ++ client_names names.now clients.now ++ 10 ∷ []) (O.state out.old) (O.state out.new) }
{
    write_word(out, name)?;
    write_clients(out, names, clients)?;
    write_line_end(out)
}

/// Writes the names of clients, each after a blank.
fn write_clients<O: Out>(out: &mut O, names: &[Bytes], clients: &[u16]) -> Result<(), OutFailed>
    ensures { Writes (is_ok result) Stream.Output (client_names names.now clients.now) (O.state out.old) (O.state out.new) }
{
    for client in clients {
        write_client(out, names, *client)?;
    }
    Ok(())
}

/// Writes the name of the client of this number after a blank.
fn write_client<O: Out>(out: &mut O, names: &[Bytes], client: u16) -> Result<(), OutFailed>
    ensures { Writes (is_ok result) Stream.Output (32 ∷ slice_index_or names.now client []) (O.state out.old) (O.state out.new) }
{
    write_word(out, client_name(names, client))
}

/// Writes the word after a blank.
fn write_word<'a, O: Out>(out: &mut O, word: &'a [u8]) -> Result<(), OutFailed>
    ensures { Writes (is_ok result) Stream.Output (32 ∷ word.now) (O.state out.old) (O.state out.new) }
{
    let pieces = [b" ", word];
    write_all(out, Stream::Output, &pieces)
}

/// Ends the line.
fn write_line_end<O: Out>(out: &mut O) -> Result<(), OutFailed>
    ensures { Writes (is_ok result) Stream.Output (10 ∷ []) (O.state out.old) (O.state out.new) }
{
    write_all(out, Stream::Output, &[b"\n"])
}

/// What the answer is called.
fn answer_name(answer: &Answer) -> &'static [u8]
    ensures { result.now ≡ answer_name answer.now }
{
    match answer {
        Answer::Refused => b"Refused",
        Answer::Closed => b"Closed",
        Answer::TraceFull => b"TraceFull",
        Answer::Gone => b"Gone",
        Answer::KeyTooLong { .. } => b"KeyTooLong",
        Answer::Busy { .. } => b"Busy",
        Answer::Blocked { .. } => b"Blocked",
        Answer::Deadlock { .. } => b"Deadlock",
        Answer::Duplicate { .. } => b"Duplicate",
        Answer::Full => b"Full",
        Answer::TxFull => b"TxFull",
        Answer::SequenceEnd => b"SequenceEnd",
        Answer::AtEnd => b"AtEnd",
        Answer::NoMemory => b"NoMemory",
        Answer::Done => b"Done",
        Answer::Committed { .. } => b"Committed",
        Answer::Found { .. } => b"Found",
        Answer::Row(_) => b"Row",
        Answer::Granted => b"Granted",
        Answer::Inserted { .. } => b"Inserted",
        Answer::Value(_) => b"Value",
    }
}
