//! PUT, EXPORT of values, and MESSAGE (OpenEdge ABL Reference, each by its name). The whole text is
//! made before any of it is written, so a fault writes nothing of it.

ghost use Rattle.std.specs.Prelude.{◌≡◌, OnOk, OnErr, IfSome, true, false};
ghost use Rattle.bound_tree.specs.Tree.{PutItems, Export, Message};
ghost use Rattle.flat_machine.specs.Flat as flat;
ghost use Rattle.client_output.specs.Written.{IsUnchanged};
ghost use Rattle.client_machine.specs.Config.{instr_at};
ghost use Rattle.client_machine.specs.Step.{KeepsTask};
ghost use Rattle.client_machine.specs.declared.mode.Task.{Task};
ghost use Rattle.client_streams.specs.Statements.{items_in, values_in};

use crate::statement::write_or_fail;
use crate::texts::{export_line_at, message_line_at, put_text_at};
use block_code::Instr;
use bound_tree::Stmt;
use client_machine::machine::Machine;
use std::alloc::AllocError;

/// The stream that a statement writes to, and the place after the statement.
#[derive(Clone, Copy, Debug)]
pub(crate) struct Writer {
    pub(crate) stream: u32,
    pub(crate) next: usize,
}

/// PUT at the place: its items in order, each under its mask, to the current section of its stream.
pub fn put(machine: &mut Machine, place: usize, left: u32, retry: bool) -> Result<(), AllocError>
    ensures ok { OnOk result (KeepsTask (Task.RunsFrom place left retry) machine.old machine.new) }
    ensures err { OnErr result (IsUnchanged machine.old.output machine.new.output) }
{
    let Some(writer) = put_at(machine, place) else {
        return Err(AllocError);
    };
    if !machine.charge() {
        return Ok(());
    }
    let text = put_text_at(machine, place, retry);
    write_or_fail(machine, text, writer.stream, writer.next, left, retry)
}

/// EXPORT of values at the place: a line of them to the current section of its stream.
pub fn export(machine: &mut Machine, place: usize, left: u32, retry: bool) -> Result<(), AllocError>
    ensures ok { OnOk result (KeepsTask (Task.RunsFrom place left retry) machine.old machine.new) }
    ensures err { OnErr result (IsUnchanged machine.old.output machine.new.output) }
{
    let Some(writer) = export_at(machine, place) else {
        return Err(AllocError);
    };
    if !machine.charge() {
        return Ok(());
    }
    let text = export_line_at(machine, place, retry);
    write_or_fail(machine, text, writer.stream, writer.next, left, retry)
}

/// MESSAGE at the place: a line of plain texts to the section of the unnamed stream.
pub fn message(
    machine: &mut Machine,
    place: usize,
    left: u32,
    retry: bool,
) -> Result<(), AllocError>
    ensures ok { OnOk result (KeepsTask (Task.RunsFrom place left retry) machine.old machine.new) }
    ensures err { OnErr result (IsUnchanged machine.old.output machine.new.output) }
{
    let Some(next) = message_at(machine, place) else {
        return Err(AllocError);
    };
    if !machine.charge() {
        return Ok(());
    }
    let text = message_line_at(machine, place, retry);
    write_or_fail(machine, text, 0, next, left, retry)
}

/// The PUT at the place.
fn put_at(machine: &Machine, place: usize) -> Option<Writer>
    ensures { IfSome result (λ writer. instr_at machine.now.code.instrs.items place ≡ flat.Plain (PutItems writer.stream (items_in (instr_at machine.now.code.instrs.items place))) writer.next) }
{
    match machine.code.instrs.get(place) {
        Some(
            Instr::Simple {
                stmt: Stmt::Put { stream, .. },
                next,
            },
        ) => Some(Writer {
            stream: *stream,
            next: *next,
        }),
        _ => None,
    }
}

/// The EXPORT of values at the place.
fn export_at(machine: &Machine, place: usize) -> Option<Writer>
    ensures { IfSome result (λ writer. instr_at machine.now.code.instrs.items place ≡ flat.Plain (Export writer.stream (values_in (instr_at machine.now.code.instrs.items place))) writer.next) }
{
    match machine.code.instrs.get(place) {
        Some(
            Instr::Simple {
                stmt: Stmt::Export { stream, .. },
                next,
            },
        ) => Some(Writer {
            stream: *stream,
            next: *next,
        }),
        _ => None,
    }
}

/// The place after the MESSAGE at the place.
fn message_at(machine: &Machine, place: usize) -> Option<usize>
    ensures { IfSome result (λ next. instr_at machine.now.code.instrs.items place ≡ flat.Plain (Message (values_in (instr_at machine.now.code.instrs.items place))) next) }
{
    match machine.code.instrs.get(place) {
        Some(
            Instr::Simple {
                stmt: Stmt::Message(_),
                next,
            },
        ) => Some(*next),
        _ => None,
    }
}
