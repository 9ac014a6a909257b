//! OUTPUT CLOSE, INPUT FROM and INPUT CLOSE (OpenEdge ABL Reference, each by its name).

ghost use Rattle.std.specs.Prelude.{◌≡◌, OnOk, OnErr, IfSome, true, false, None, Some};
ghost use Rattle.bound_tree.specs.Tree.{OutputClose, InputFrom, InputClose};
ghost use Rattle.block_meaning.specs.Streams.{closes_output, opens_input};
ghost use Rattle.flat_machine.specs.Flat as flat;
ghost use Rattle.client_output.specs.Written.{IsUnchanged};
ghost use Rattle.client_machine.specs.Config.{instr_at};
ghost use Rattle.client_machine.specs.Step.{KeepsTask};
ghost use Rattle.client_machine.specs.declared.mode.Task.{Task};

use crate::redirect::{set_input, set_output};
use crate::statement::go_on;
use block_code::Instr;
use bound_tree::Stmt;
use client_machine::machine::Machine;
use std::alloc::AllocError;

/// OUTPUT CLOSE at the place: its stream writes to the default section again.
pub fn close_output(
    machine: &mut Machine,
    place: usize,
    left: u32,
    retry: bool,
) -> Result<(), AllocError>
    ensures ok { OnOk result (KeepsTask (Task.RunsFrom place left retry) machine.old machine.new) }
    ensures err { OnErr result (IsUnchanged machine.old.output machine.new.output) }
{
    let Some(close) = output_close_at(machine, place) else {
        return Err(AllocError);
    };
    if !machine.charge() {
        return Ok(());
    }
    set_output(&mut machine.streams, close.stream, None);
    go_on(machine, close.next, left, retry);
    Ok(())
}

/// INPUT FROM at the place: its stream reads the named input from its start.
pub fn open_input(
    machine: &mut Machine,
    place: usize,
    left: u32,
    retry: bool,
) -> Result<(), AllocError>
    ensures ok { OnOk result (KeepsTask (Task.RunsFrom place left retry) machine.old machine.new) }
    ensures err { OnErr result (IsUnchanged machine.old.output machine.new.output) }
{
    let Some(opening) = input_from_at(machine, place) else {
        return Err(AllocError);
    };
    if !machine.charge() {
        return Ok(());
    }
    set_input(&mut machine.streams, opening.stream, Some(opening.input));
    go_on(machine, opening.next, left, retry);
    Ok(())
}

/// INPUT CLOSE at the place: its stream reads the client's own input again, at its last place.
pub fn close_input(
    machine: &mut Machine,
    place: usize,
    left: u32,
    retry: bool,
) -> Result<(), AllocError>
    ensures ok { OnOk result (KeepsTask (Task.RunsFrom place left retry) machine.old machine.new) }
    ensures err { OnErr result (IsUnchanged machine.old.output machine.new.output) }
{
    let Some(close) = input_close_at(machine, place) else {
        return Err(AllocError);
    };
    if !machine.charge() {
        return Ok(());
    }
    set_input(&mut machine.streams, close.stream, None);
    go_on(machine, close.next, left, retry);
    Ok(())
}

/// The stream that a statement closes, and the place after the statement.
#[derive(Clone, Copy, Debug)]
pub(crate) struct Closing {
    pub(crate) stream: u32,
    pub(crate) next: usize,
}

/// What INPUT FROM names, and the place after it.
#[derive(Clone, Copy, Debug)]
pub(crate) struct InputOpening {
    pub(crate) stream: u32,
    pub(crate) input: u32,
    pub(crate) next: usize,
}

/// The OUTPUT CLOSE at the place.
fn output_close_at(machine: &Machine, place: usize) -> Option<Closing>
    ensures { IfSome result (λ close. instr_at machine.now.code.instrs.items place ≡ flat.Plain (OutputClose close.stream) close.next) }
{
    match machine.code.instrs.get(place) {
        Some(
            Instr::Simple {
                stmt: Stmt::OutputClose(stream),
                next,
            },
        ) => Some(Closing {
            stream: *stream,
            next: *next,
        }),
        _ => None,
    }
}

/// The INPUT FROM at the place.
fn input_from_at(machine: &Machine, place: usize) -> Option<InputOpening>
    ensures { IfSome result (λ opening. instr_at machine.now.code.instrs.items place ≡ flat.Plain (InputFrom opening.stream opening.input) opening.next) }
{
    match machine.code.instrs.get(place) {
        Some(
            Instr::Simple {
                stmt: Stmt::InputFrom { stream, input },
                next,
            },
        ) => Some(InputOpening {
            stream: *stream,
            input: *input,
            next: *next,
        }),
        _ => None,
    }
}

/// The INPUT CLOSE at the place.
fn input_close_at(machine: &Machine, place: usize) -> Option<Closing>
    ensures { IfSome result (λ close. instr_at machine.now.code.instrs.items place ≡ flat.Plain (InputClose close.stream) close.next) }
{
    match machine.code.instrs.get(place) {
        Some(
            Instr::Simple {
                stmt: Stmt::InputClose(stream),
                next,
            },
        ) => Some(Closing {
            stream: *stream,
            next: *next,
        }),
        _ => None,
    }
}
