//! From the bound tree to flat code. The code of a body is written from its end: the place that an
//! instruction names is known when the instruction is written, so nothing is patched.

ghost use Rattle.std.specs.Prelude.{◌≡◌, ◌++◌, ◌∷◌, [], IfOk, length, true};
ghost use Rattle.block_code.specs.Emitted.{EmittedBody, EmittedStmt, EmittedProcedure, EmittedProcedures};
ghost use Rattle.block_code.specs.Code.{IsCompiled, is_simple};

use crate::code::{Code, Instr, ProcedureCode};
use bound_tree::{Bound, Header, Procedure, Stmt};
use std::alloc::{AllocError, Global};

/// The code of a bound source. Out of memory is the only error.
pub fn compile(alloc: Global, bound: Bound) -> Result<Code, AllocError>
    ensures { IfOk result (λ code. IsCompiled code bound) }
{
    let Bound {
        procedures,
        streams,
        outputs,
        inputs,
    } = bound;
    let mut instrs = Vec::new(alloc);
    instrs.push(Instr::End)?;
    let procedures = emit_procedures(alloc, &mut instrs, procedures)?;
    Ok(Code {
        instrs,
        procedures,
        streams,
        outputs,
        inputs,
    })
}

/// Writes the code of procedures.
fn emit_procedures(
    alloc: Global,
    code: &mut Vec<Instr>,
    procedures: Vec<Procedure>,
) -> Result<Vec<ProcedureCode>, AllocError>
    ensures { IfOk result (λ all. EmittedProcedures code.old.items code.new.items procedures.items all.items) }
{
    let mut all = Vec::new(alloc);
    for procedure in procedures {
        let one = emit_procedure(code, procedure)?;
        all.push(one)?;
    }
    Ok(all)
}

/// Writes the code of a procedure: its body, and then the `Block` that is its own.
fn emit_procedure(code: &mut Vec<Instr>, procedure: Procedure) -> Result<ProcedureCode, AllocError>
    ensures { IfOk result (λ one. EmittedProcedure code.old.items code.new.items procedure one) }
{
    let Procedure {
        undoable,
        no_undo,
        buffers,
        parameters,
        header,
        body,
        ..
    } = procedure;
    let body = emit_body(code, body, 0)?;
    let place = code.len();
    code.push(Instr::Block {
        header,
        body,
        next: 0,
    })?;
    Ok(ProcedureCode {
        place,
        undoable,
        no_undo,
        buffers,
        parameters,
    })
}

/// Writes the code of a body whose last statement is followed by the place `next`, and returns the
/// place where it begins.
#[cycle(emit)]
fn emit_body(code: &mut Vec<Instr>, body: Vec<Stmt>, next: usize) -> Result<usize, AllocError>
    ensures { IfOk result (λ place. EmittedBody code.old.items code.new.items body.items next place) }
{
    let mut place = next;
    for stmt in body.into_iter().rev() {
        place = emit(code, stmt, place)?;
    }
    Ok(place)
}

/// Writes the code of a statement that is followed by the place `next`, and returns the place where
/// it begins.
#[cycle(emit)]
fn emit(code: &mut Vec<Instr>, stmt: Stmt, next: usize) -> Result<usize, AllocError>
    ensures { IfOk result (λ place. EmittedStmt code.old.items code.new.items stmt next place) }
{
    match stmt {
        Stmt::Block { header, body } => {
            let body = emit_body(code, body, 0)?;
            push(code, Instr::Block { header, body, next })
        }
        Stmt::If {
            test,
            then_body,
            else_body,
        } => {
            let then_place = emit_body(code, then_body, next)?;
            let else_place = emit_body(code, else_body, next)?;
            push(
                code,
                Instr::If {
                    test,
                    then_place,
                    else_place,
                },
            )
        }
        stmt => push_simple(code, stmt, next),
    }
}

/// Writes the instruction of a statement that is neither a block nor an IF, and returns its place.
fn push_simple(code: &mut Vec<Instr>, stmt: Stmt, next: usize) -> Result<usize, AllocError>
    requires { is_simple stmt ≡ true }
    ensures { IfOk result (λ place. EmittedStmt code.old.items code.new.items stmt next place) }
{
    push(code, Instr::Simple { stmt, next })
}

/// Writes one instruction, and returns its place.
fn push(code: &mut Vec<Instr>, instr: Instr) -> Result<usize, AllocError>
    ensures { IfOk result (λ place. (place ≡ length code.old.items) × (code.new.items ≡ code.old.items ++ instr ∷ [])) }
{
    let place = code.len();
    code.push(instr)?;
    Ok(place)
}
