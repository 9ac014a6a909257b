//! What RUN finds in the code, and does to the variables.

ghost use Rattle.std.specs.Prelude.{◌≡◌, Some, IfOk, IfSome, OnOk, map, slice_get};
ghost use Rattle.bound_tree.specs.Bound.{argument_of};
ghost use Rattle.client_machine.specs.Config.{instr_at, run_arguments, run_procedure};
ghost use Rattle.client_calls.specs.Runs.{Begins, IsRunAt, Passes, Returns};

use crate::arguments::argument_values;
use crate::frame::open_frame;
use crate::outputs::close_frame;
use abl_base::Row;
use block_code::{Code, Instr, ProcedureCode};
use bound_tree::{Argument, Stmt};
use client_memory::memory::Memory;
use client_values::value::Status;
use evaluator::EvalFault;
use std::alloc::{AllocError, Global};

/// The RUN at a place: where the code continues, and whether it has NO-ERROR.
#[derive(Clone, Copy)]
pub struct RunAt {
    pub next: usize,
    pub no_error: bool,
}

/// A procedure that begins: its number, and the place of its block.
#[derive(Clone, Copy)]
pub struct Begun {
    pub number: u32,
    pub place: usize,
}

/// The RUN at the place.
pub fn run_at(code: &Code, place: usize) -> Option<RunAt>
    ensures { IfSome result (λ run. IsRunAt run (instr_at code.now.instrs.items place)) }
{
    match code.instrs.get(place) {
        Some(
            Instr::Simple {
                stmt: Stmt::Run { no_error, .. },
                next,
            },
        ) => Some(RunAt {
            next: *next,
            no_error: *no_error,
        }),
        _ => None,
    }
}

/// The arguments of the RUN at the place.
fn arguments_at<'a>(code: &'a Code, place: usize) -> Option<&'a [Argument]>
    ensures { IfSome result (λ arguments. map argument_of arguments.now ≡ run_arguments (instr_at code.now.instrs.items place)) }
{
    match code.instrs.get(place) {
        Some(
            Instr::Simple {
                stmt: Stmt::Run { arguments, .. },
                ..
            },
        ) => Some(arguments.as_slice()),
        _ => None,
    }
}

/// The number of the procedure that the RUN at the place runs.
fn number_at(code: &Code, place: usize) -> Option<u32>
    ensures { IfSome result (λ number. number ≡ run_procedure (instr_at code.now.instrs.items place)) }
{
    match code.instrs.get(place) {
        Some(
            Instr::Simple {
                stmt: Stmt::Run { procedure, .. },
                ..
            },
        ) => Some(*procedure),
        _ => None,
    }
}

/// The code of the procedure of this number.
fn procedure_code<'a>(code: &'a Code, number: u32) -> Option<&'a ProcedureCode>
    ensures { IfSome result (λ found. slice_get code.now.procedures.items number ≡ Some found.now) }
{
    code.procedures.get(number as usize)
}

/// The values that the arguments of the RUN at the place pass in.
pub fn values_at(
    alloc: Global,
    code: &Code,
    memory: &Memory,
    place: usize,
    status: &Status<'_>,
) -> Result<Row, EvalFault>
    ensures { Passes result code.now memory.now place status.now.error status.now.returned.now status.now.retry }
{
    let Some(arguments) = arguments_at(code, place) else {
        return Err(EvalFault::NoMemory);
    };
    let Some(number) = number_at(code, place) else {
        return Err(EvalFault::NoMemory);
    };
    let Some(found) = procedure_code(code, number) else {
        return Err(EvalFault::NoMemory);
    };
    argument_values(alloc, memory, arguments, &found.parameters, status)
}

/// Opens the frame of the procedure that the RUN at the place runs.
pub fn begin_procedure(
    code: &Code,
    memory: &mut Memory,
    place: usize,
    values: Row,
) -> Result<Begun, AllocError>
    ensures { IfOk result (λ begun. Begins begun code.now place values memory.old memory.new) }
{
    let Some(arguments) = arguments_at(code, place) else {
        return Err(AllocError);
    };
    let Some(number) = number_at(code, place) else {
        return Err(AllocError);
    };
    let Some(found) = procedure_code(code, number) else {
        return Err(AllocError);
    };
    open_frame(memory, found, arguments, values)?;
    Ok(Begun {
        number,
        place: found.place,
    })
}

/// Ends the procedure that the RUN at the place runs: its outputs are copied, and its frame goes.
pub fn end_procedure(
    alloc: Global,
    code: &Code,
    memory: &mut Memory,
    place: usize,
) -> Result<(), AllocError>
    ensures { OnOk result (Returns code.now place memory.old memory.new) }
{
    let Some(arguments) = arguments_at(code, place) else {
        return Err(AllocError);
    };
    let Some(number) = number_at(code, place) else {
        return Err(AllocError);
    };
    let Some(found) = procedure_code(code, number) else {
        return Err(AllocError);
    };
    close_frame(alloc, memory, arguments, &found.parameters)
}
