//! The texts that statements write.

ghost use Rattle.std.specs.Prelude.{◌≡◌, IfSome, map};
ghost use Rattle.bound_tree.specs.Bound.{expr_of, item_of};
ghost use Rattle.block_meaning.specs.Program.{Program};
ghost use Rattle.block_meaning.specs.State.{State};
ghost use Rattle.block_meaning.specs.Values.{put_text, values_now, export_line, message_line};
ghost use Rattle.client_streams.specs.lines.Writes.{WritesText, line_text};
ghost use Rattle.client_machine.specs.Config.{instr_at};
ghost use Rattle.client_machine.specs.Machine.{state_in};
ghost use Rattle.client_machine.specs.Step.{FitsIn};
ghost use Rattle.client_machine.specs.declared.mode.Completion.{Completion};
ghost use Rattle.client_machine.specs.declared.mode.Mode.{Mode};
ghost use Rattle.client_streams.specs.Statements.{items_in, values_in};

use crate::lines::{export_values, message_values, put_items};
use abl_base::{Bytes, Value};
use block_code::Instr;
use bound_tree::{Expr, PutItem, Stmt};
use client_machine::machine::Machine;
use client_values::scope::Scope;
use evaluator::EvalFault;

/// The text of the PUT at the place.
pub(crate) fn put_text_at(machine: &Machine, place: usize, retry: bool) -> Result<Bytes, EvalFault>
    ensures { (p : Program) (rest : State) → FitsIn p rest (Mode.Unwind Completion.Normal) machine.now → WritesText result (put_text p (items_in (instr_at machine.now.code.instrs.items place)) retry (state_in rest machine.now)) }
{
    let unknown = Value::Unknown;
    let Some(parts) = items_at(machine, place) else {
        return Err(EvalFault::NoMemory);
    };
    put_items(
        machine.alloc,
        &Scope {
            memory: &machine.memory,
            unknown: &unknown,
            retry,
            status: machine.status,
            returned: machine.returned.as_slice(),
        },
        parts,
    )
}

/// The line of the EXPORT at the place.
pub(crate) fn export_line_at(
    machine: &Machine,
    place: usize,
    retry: bool,
) -> Result<Bytes, EvalFault>
    ensures { (p : Program) (rest : State) → FitsIn p rest (Mode.Unwind Completion.Normal) machine.now → WritesText result (line_text export_line (values_now p (values_in (instr_at machine.now.code.instrs.items place)) retry (state_in rest machine.now))) }
{
    let unknown = Value::Unknown;
    let Some(parts) = exported_at(machine, place) else {
        return Err(EvalFault::NoMemory);
    };
    export_values(
        machine.alloc,
        &Scope {
            memory: &machine.memory,
            unknown: &unknown,
            retry,
            status: machine.status,
            returned: machine.returned.as_slice(),
        },
        parts,
    )
}

/// The line of the MESSAGE at the place.
pub(crate) fn message_line_at(
    machine: &Machine,
    place: usize,
    retry: bool,
) -> Result<Bytes, EvalFault>
    ensures { (p : Program) (rest : State) → FitsIn p rest (Mode.Unwind Completion.Normal) machine.now → WritesText result (line_text message_line (values_now p (values_in (instr_at machine.now.code.instrs.items place)) retry (state_in rest machine.now))) }
{
    let unknown = Value::Unknown;
    let Some(parts) = shown_at(machine, place) else {
        return Err(EvalFault::NoMemory);
    };
    message_values(
        machine.alloc,
        &Scope {
            memory: &machine.memory,
            unknown: &unknown,
            retry,
            status: machine.status,
            returned: machine.returned.as_slice(),
        },
        parts,
    )
}

/// The items of the PUT at the place.
fn items_at(machine: &Machine, place: usize) -> Option<&[PutItem]>
    ensures { IfSome result (λ parts. items_in (instr_at machine.now.code.instrs.items place) ≡ map item_of parts.now) }
{
    match machine.code.instrs.get(place) {
        Some(
            Instr::Simple {
                stmt: Stmt::Put { items, .. },
                ..
            },
        ) => Some(items.as_slice()),
        _ => None,
    }
}

/// The values of the EXPORT at the place.
fn exported_at(machine: &Machine, place: usize) -> Option<&[Expr]>
    ensures { IfSome result (λ parts. values_in (instr_at machine.now.code.instrs.items place) ≡ map expr_of parts.now) }
{
    match machine.code.instrs.get(place) {
        Some(
            Instr::Simple {
                stmt: Stmt::Export { values, .. },
                ..
            },
        ) => Some(values.as_slice()),
        _ => None,
    }
}

/// The values of the MESSAGE at the place.
fn shown_at(machine: &Machine, place: usize) -> Option<&[Expr]>
    ensures { IfSome result (λ parts. values_in (instr_at machine.now.code.instrs.items place) ≡ map expr_of parts.now) }
{
    match machine.code.instrs.get(place) {
        Some(
            Instr::Simple {
                stmt: Stmt::Message(values),
                ..
            },
        ) => Some(values.as_slice()),
        _ => None,
    }
}
