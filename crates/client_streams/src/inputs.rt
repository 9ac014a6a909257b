//! The input that a stream reads.

ghost use Rattle.std.specs.Prelude.{◌≡◌, IfSome, slice_index_or, slice_set};
ghost use Rattle.block_meaning.specs.Program.{Program};
ghost use Rattle.block_meaning.specs.State.{State};
ghost use Rattle.block_meaning.specs.Streams.{line_now};
ghost use Rattle.client_streams.specs.lines.Imports.{ReadsLine};
ghost use Rattle.client_machine.specs.Config.{instr_at};
ghost use Rattle.client_machine.specs.Machine.{state_in};
ghost use Rattle.client_machine.specs.Step.{FitsIn};
ghost use Rattle.client_machine.specs.declared.mode.Completion.{Completion};
ghost use Rattle.client_machine.specs.declared.mode.Mode.{Mode};
ghost use Rattle.client_streams.specs.Imports.{input_in, own_read, place_in, streams_read, targets_in, text_in};
ghost use Rattle.client_streams.specs.Statements.{no_stream};

use crate::lines::read_line;
use block_code::Instr;
use bound_tree::{Stmt, Target};
use client_machine::inputs::{Inputs, Stream};
use client_machine::machine::Machine;
use value_formats::{ImportFault, Imported};

/// The line at the place of the stream's input, for the targets of the IMPORT at the place.
pub(crate) fn line_at(machine: &Machine, place: usize, stream: u32) -> Result<Imported, ImportFault>
    ensures { (p : Program) (rest : State) → FitsIn p rest (Mode.Unwind Completion.Normal) machine.now → ReadsLine result (line_now p stream (targets_in (instr_at machine.now.code.instrs.items place)) (state_in rest machine.now)) }
{
    let Some(targets) = targets_at(machine, place) else {
        return Err(ImportFault::NoMemory);
    };
    let input = input_of(machine.streams.as_slice(), stream);
    let from = place_of(machine.streams.as_slice(), stream, input, machine.own_at);
    read_line(
        machine.alloc,
        text_of(&machine.inputs, input),
        from,
        targets,
    )
}

/// The input that a stream reads, None for the client's own one.
fn input_of(streams: &[Stream], stream: u32) -> Option<u32>
    ensures { result ≡ input_in streams.now stream }
{
    match streams.get(stream as usize) {
        Some(stream) => stream.input,
        None => None,
    }
}

/// The place of the next byte in that input.
fn place_of(streams: &[Stream], stream: u32, input: Option<u32>, own_at: usize) -> usize
    ensures { result ≡ place_in input (slice_index_or streams.now stream no_stream) own_at }
{
    match input {
        None => own_at,
        Some(_) => match streams.get(stream as usize) {
            Some(stream) => stream.at,
            None => 0,
        },
    }
}

/// The text of an input; an input that there is not is empty.
fn text_of(inputs: &Inputs, input: Option<u32>) -> &[u8]
    ensures { result.now ≡ text_in inputs.now input }
{
    match input {
        None => inputs.own.as_slice(),
        Some(input) => match inputs.named.get(input as usize) {
            Some(text) => text.as_slice(),
            None => &[],
        },
    }
}

/// The input of the stream was read up to `next`.
pub(crate) fn read_up_to(machine: &mut Machine, stream: u32, next: usize)
    ensures moved { machine.new ≡ record machine.old { streams = machine.new.streams; own_at = machine.new.own_at } }
    ensures streams { machine.new.streams.items ≡ streams_read (input_in machine.old.streams.items stream) stream next machine.old.streams.items }
    ensures own { machine.new.own_at ≡ own_read (input_in machine.old.streams.items stream) next machine.old.own_at }
{
    match input_of(machine.streams.as_slice(), stream) {
        None => machine.own_at = next,
        Some(_) => set_place(&mut machine.streams, stream, next),
    }
}

/// The next byte that the stream reads in its named input is at this place.
fn set_place(streams: &mut Vec<Stream>, stream: u32, next: usize)
    ensures { streams.new.items ≡ slice_set streams.old.items stream (record (slice_index_or streams.old.items stream no_stream) { at = next }) }
{
    if let Some(stream) = streams.get_mut(stream as usize) {
        stream.at = next;
    }
}

/// The targets of the IMPORT at the place.
pub(crate) fn targets_at(machine: &Machine, place: usize) -> Option<&[Option<Target>]>
    ensures { IfSome result (λ targets. targets_in (instr_at machine.now.code.instrs.items place) ≡ targets.now) }
{
    match machine.code.instrs.get(place) {
        Some(
            Instr::Simple {
                stmt: Stmt::Import { targets, .. },
                ..
            },
        ) => Some(targets.as_slice()),
        _ => None,
    }
}
