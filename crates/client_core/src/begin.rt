//! The machine of a client that has not begun.

ghost use Rattle.std.specs.Prelude.{◌≡◌, ◌+◌, ◌++◌, IfOk, OnOk, replicate};
ghost use Rattle.client_core.specs.Begins.{Begins, HasFirst, IsFirst, no_stream};

use abl_base::{Bytes, Row, copy_row};
use block_code::Code;
use client_machine::inputs::{Inputs, Stream};
use client_machine::machine::Machine;
use client_machine::mode::{Mode, Task};
use client_memory::buffers::Buffers;
use client_memory::memory::Memory;
use client_memory::slots::Slots;
use client_output::Output;
use std::alloc::{AllocError, Global};

/// How many procedures may be open inside the external one.
const MAX_CALLS: u32 = 32;

/// Slots with these values.
fn slots_of(values: &Row) -> Result<Slots, AllocError>
    ensures { IfOk result (λ slots. slots ≡ values.now) }
{
    Ok(Slots::new(copy_row(values)?.into_vec()))
}

/// Adds streams without an opened input or output.
fn push_streams(streams: &mut Vec<Stream>, count: u32) -> Result<(), AllocError>
    ensures { OnOk result (streams.new.items ≡ streams.old.items ++ replicate count no_stream) }
{
    for _ in 0..count {
        streams.push(Stream {
            output: None,
            input: None,
            at: 0,
        })?;
    }
    Ok(())
}

/// The initial streams of a client: the unnamed one, and then `named` others.
fn first_streams(alloc: Global, named: u32) -> Result<Vec<Stream>, AllocError>
    ensures { IfOk result (λ streams. streams.items ≡ replicate (named + 1) no_stream) }
{
    let mut streams = Vec::new(alloc);
    streams.push(Stream {
        output: None,
        input: None,
        at: 0,
    })?;
    push_streams(&mut streams, named)?;
    Ok(streams)
}

/// The initial memory of a client: the variables and the empty buffers of the external procedure,
/// which is the first one. Every source has it.
fn first_memory(alloc: Global, code: &Code) -> Result<Memory, AllocError>
    ensures { IfOk result (λ memory. HasFirst memory code.now.procedures.items) }
{
    let Some(first) = code.procedures.first() else {
        return Err(AllocError);
    };
    let mut memory = Memory::new(alloc);
    let buffers = Buffers::new(alloc, &first.buffers)?;
    memory.begin(
        slots_of(&first.undoable)?,
        slots_of(&first.no_undo)?,
        buffers,
    )?;
    Ok(memory)
}

/// The place of the block of the external procedure.
fn first_place(code: &Code) -> usize
    ensures { IsFirst result code.now.procedures.items }
{
    match code.procedures.first() {
        Some(first) => first.place,
        None => 0,
    }
}

/// The machine at the start of the code, with `units` units.
pub fn first_machine(
    alloc: Global,
    code: Code,
    inputs: Inputs,
    units: u64,
) -> Result<Machine, AllocError>
    ensures { IfOk result (λ machine. Begins machine code inputs units) }
{
    let memory = first_memory(alloc, &code)?;
    let place = first_place(&code);
    let streams = first_streams(alloc, code.streams)?;
    let mut procedures = Vec::new(alloc);
    procedures.push(0)?;
    let output = Output::new(alloc)?;
    Ok(Machine {
        code,
        mode: Mode::Execute(Task::Blocks {
            place,
            outer: false,
            left: MAX_CALLS,
        }),
        stack: Vec::new(alloc),
        procedures,
        memory,
        units,
        made: 0,
        status: false,
        returned: Bytes::empty(alloc),
        alloc,
        output,
        streams,
        own_at: 0,
        inputs,
    })
}
