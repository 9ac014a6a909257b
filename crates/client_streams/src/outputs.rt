//! OUTPUT TO a named output (OpenEdge ABL Reference, OUTPUT TO).

ghost use Rattle.std.specs.Prelude.{◌≡◌, ◌++◌, ◌∷◌, [], List, Ok, Some, OnOk, OnErr, IfSome, nat_lt, true, false};
ghost use Rattle.abl_base.specs.declared.limits.TheConstants.{MAX_OUTPUT_BYTES};
ghost use Rattle.bound_tree.specs.Tree.{OutputTo};
ghost use Rattle.block_meaning.specs.declared.wants.Piece.{Piece};
ghost use Rattle.block_meaning.specs.State.{wrote};
ghost use Rattle.block_meaning.specs.Streams.{with_stream, stream_at};
ghost use Rattle.flat_machine.specs.Flat as flat;
ghost use Rattle.client_output.specs.Written.{HasWritten, IsUnchanged};
ghost use Rattle.client_machine.specs.Config.{instr_at};
ghost use Rattle.client_machine.specs.Inputs.{names_of};
ghost use Rattle.client_machine.specs.Step.{KeepsTask};
ghost use Rattle.client_machine.specs.declared.mode.Task.{Task};
ghost use Rattle.client_machine.specs.KeepsFrom.{KeepsFrom};
ghost use Rattle.client_streams.specs.Statements.{under};

use crate::redirect::set_output;
use crate::statement::{go_on, stop};
use block_code::Instr;
use bound_tree::Stmt;
use client_machine::machine::Machine;
use std::alloc::AllocError;

/// What OUTPUT TO names, and the place after it.
#[derive(Clone, Copy, Debug)]
pub(crate) struct OutputOpening {
    pub(crate) stream: u32,
    pub(crate) output: u32,
    pub(crate) append: bool,
    pub(crate) next: usize,
}

/// OUTPUT TO at the place: opens the section of the named output, to which its stream then writes.
pub fn open_output(
    machine: &mut Machine,
    place: usize,
    left: u32,
    retry: bool,
) -> Result<(), AllocError>
    ensures ok { OnOk result (KeepsTask (Task.RunsFrom place left retry) machine.old machine.new) }
    ensures err { OnErr result (IsUnchanged machine.old.output machine.new.output) }
{
    let Some(opening) = output_to_at(machine, place) else {
        return Err(AllocError);
    };
    if !machine.charge() {
        return Ok(());
    }
    redirect(machine, opening, left, retry)
}

/// The same after the unit was charged.
fn redirect(
    machine: &mut Machine,
    opening: OutputOpening,
    left: u32,
    retry: bool,
) -> Result<(), AllocError>
    ensures ok { OnOk result (KeepsFrom (λ p s. flat.ends_as (wrote (Piece.Opened opening.output opening.append) (with_stream opening.stream (record (stream_at opening.stream s) { output = Some opening.output }) s)) (under machine.old false opening.next left retry)) machine.old machine.new) }
    ensures err { OnErr result (IsUnchanged machine.old.output machine.new.output) }
{
    let opened = open_section(machine, opening.output, opening.append)?;
    set_output(&mut machine.streams, opening.stream, Some(opening.output));
    if opened {
        go_on(machine, opening.next, left, retry);
        return Ok(());
    }
    stop(machine);
    Ok(())
}

/// Opens the section of a named output; false where the output is full.
fn open_section(machine: &mut Machine, output: u32, append: bool) -> Result<bool, AllocError>
    ensures moved { machine.new ≡ record machine.old { output = machine.new.output } }
    ensures full { result ≡ Ok false → (nat_lt MAX_OUTPUT_BYTES machine.old.output.size ≡ true) × (machine.new.output ≡ machine.old.output) }
    ensures fits { result ≡ Ok true → (nat_lt MAX_OUTPUT_BYTES machine.old.output.size ≡ false) × (machine.new.output.size ≡ machine.old.output.size) }
    ensures opened { result ≡ Ok true → (pieces : List Piece) → HasWritten machine.old.output (names_of machine.old.code) pieces → HasWritten machine.new.output (names_of machine.old.code) (pieces ++ Piece.Opened output append ∷ []) }
    ensures err { OnErr result (IsUnchanged machine.old.output machine.new.output) }
{
    match machine.code.outputs.get(output as usize) {
        Some(name) => machine.output.open(output, name.as_slice(), append),
        None => machine.output.open(output, &[], append),
    }
}

/// The OUTPUT TO at the place.
fn output_to_at(machine: &Machine, place: usize) -> Option<OutputOpening>
    ensures { IfSome result (λ opening. instr_at machine.now.code.instrs.items place ≡ flat.Plain (OutputTo opening.stream opening.output opening.append) opening.next) }
{
    match machine.code.instrs.get(place) {
        Some(
            Instr::Simple {
                stmt: Stmt::OutputTo {
                    stream,
                    output,
                    append,
                },
                next,
            },
        ) => Some(OutputOpening {
            stream: *stream,
            output: *output,
            append: *append,
            next: *next,
        }),
        _ => None,
    }
}
