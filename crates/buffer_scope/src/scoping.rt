//! The source with the buffers scoped to each block.

ghost use Rattle.std.specs.Prelude.{◌≡◌, ℕ, IfOk, OnOk, Err, None, Some, map};
ghost use Rattle.syntax_tree.specs.Typed.{program_of};
ghost use Rattle.bind_names.specs.declared.violation.Violation.{Violation as TheViolation};
ghost use Rattle.bound_tree.specs.Bound.{body_of, header_of, procedure_of, source_of, stmt_of};
ghost use Rattle.buffer_scope.specs.Blocks.{blocks_of};
ghost use Rattle.buffer_scope.specs.First.{first_of};
ghost use Rattle.buffer_scope.specs.Rules.{buffer_breaks, procedure_breaks, procedures_break, buffers_break};
ghost use Rattle.buffer_scope.specs.Scoped.{all_scopes, first_broken, scoped, scoped_among, scoped_body, scoped_by, scoped_procedure, scoped_stmt, with_scopes};
ghost use Rattle.buffer_scope.specs.Scopes.{references_to, scopes_of};
ghost use Rattle.buffer_scope.specs.Views.{all_of, found_of};

use crate::blocks::{Block, blocks_of};
use crate::buffer::{BufferScopes, is_scope, references_to, scopes_of};
use crate::rules::buffer_breaks;
use bind_names::Violation;
use bound_tree::{Bound, Expr, Header, Procedure, Reference, Stmt};
use std::alloc::{AllocError, Global};
use syntax_tree::Program;

/// Why the buffers of a source have no scopes.
#[derive(Clone, Copy, PartialEq, Eq)]
pub enum ScopeRefusal {
    /// The first of the rules S1 to S4 that it breaks, and its place.
    Broken(Violation),
    /// Out of memory.
    NoMemory,
}

/// The source with the buffers scoped to each of its blocks, where `program` is its syntax, or the
/// first rule S that it breaks.
pub fn scopes(alloc: Global, program: &Program, plain: Bound) -> Result<Bound, ScopeRefusal>
    ensures clean { IfOk result (λ r. first_broken (program_of program.now) (source_of plain) ≡ None) }
    ensures tree { IfOk result (λ r. source_of r ≡ with_scopes (program_of program.now) (source_of plain)) }
    ensures broken { (v : TheViolation) → result ≡ Err (ScopeRefusal.Broken v) → first_broken (program_of program.now) (source_of plain) ≡ Some v }
{
    let mut bound = plain;
    let mut first = None;
    match scope_source(alloc, program, &mut bound, &mut first) {
        Err(AllocError) => Err(ScopeRefusal::NoMemory),
        Ok(()) => match first {
            Some(violation) => Err(ScopeRefusal::Broken(violation)),
            None => Ok(bound),
        },
    }
}

/// Scopes the buffers of each procedure, and finds the first rule S that one breaks.
fn scope_source(
    alloc: Global,
    program: &Program,
    bound: &mut Bound,
    first: &mut Option<Violation>,
) -> Result<(), AllocError>
    ensures tree { OnOk result (source_of bound.new ≡ with_scopes (program_of program.now) (source_of bound.old)) }
    ensures first { OnOk result (first.new ≡ first_of first.old (procedures_break (blocks_of (program_of program.now)) (source_of bound.old).procedures)) }
{
    let blocks = blocks_of(alloc, program)?;
    scope_procedures(alloc, &blocks, &mut bound.procedures, first)?;
    Ok(())
}

/// Scopes the buffers of the procedures, and finds the first rule S that one breaks.
fn scope_procedures(
    alloc: Global,
    blocks: &[Block],
    procedures: &mut Vec<Procedure>,
    first: &mut Option<Violation>,
) -> Result<(), AllocError>
    ensures procedures { OnOk result (map procedure_of procedures.new.items ≡ map (scoped_procedure (all_of blocks.now)) (map procedure_of procedures.old.items)) }
    ensures first { OnOk result (first.new ≡ first_of first.old (procedures_break (all_of blocks.now) (map procedure_of procedures.old.items))) }
{
    for i in 0..procedures.len() {
        scope_procedure(alloc, blocks, &mut procedures[i], first)?;
    }
    Ok(())
}

/// Scopes the buffers of a procedure, and finds the first rule S that it breaks.
fn scope_procedure(
    alloc: Global,
    blocks: &[Block],
    procedure: &mut Procedure,
    first: &mut Option<Violation>,
) -> Result<(), AllocError>
    ensures procedure { OnOk result (procedure_of procedure.new ≡ scoped_procedure (all_of blocks.now) (procedure_of procedure.old)) }
    ensures first { OnOk result (first.new ≡ first_of first.old (procedure_breaks (all_of blocks.now) (procedure_of procedure.old))) }
{
    let scopes = scopes_in(alloc, blocks, procedure, first)?;
    fill_procedure(alloc, blocks, &scopes, procedure)
}

/// The scopes of the buffers of a procedure, in buffer order.
fn scopes_in(
    alloc: Global,
    blocks: &[Block],
    procedure: &Procedure,
    first: &mut Option<Violation>,
) -> Result<Vec<BufferScopes>, AllocError>
    ensures scopes { IfOk result (λ r. map found_of r.items ≡ all_scopes (all_of blocks.now) procedure.now.references.items 0 procedure.now.buffers.items) }
    ensures first { OnOk result (first.new ≡ first_of first.old (buffers_break (all_of blocks.now) procedure.now.references.items 0 procedure.now.buffers.items)) }
{
    let mut all = Vec::new(alloc);
    for i in 0..procedure.buffers.len() {
        let scopes = buffer_scopes(alloc, blocks, i, &procedure.references, first)?;
        all.push(scopes)?;
    }
    Ok(all)
}

/// The scopes of the buffer of this number, and the rules S that it breaks.
fn buffer_scopes(
    alloc: Global,
    blocks: &[Block],
    number: usize,
    references: &[Reference],
    first: &mut Option<Violation>,
) -> Result<BufferScopes, AllocError>
    ensures scopes { IfOk result (λ r. found_of r ≡ scopes_of (all_of blocks.now) (references_to number references.now)) }
    ensures first { OnOk result (first.new ≡ first_of first.old (buffer_breaks (all_of blocks.now) (references_to number references.now))) }
{
    let named = references_to(alloc, number, references)?;
    let scopes = scopes_of(alloc, blocks, &named)?;
    buffer_breaks(alloc, blocks, &scopes, &named, first)?;
    Ok(scopes)
}

/// Writes the buffers scoped to each block of the procedure into its header.
fn fill_procedure(
    alloc: Global,
    blocks: &[Block],
    scopes: &[BufferScopes],
    procedure: &mut Procedure,
) -> Result<(), AllocError>
    ensures { OnOk result (procedure_of procedure.new ≡ scoped_by (scoped_among (all_of blocks.now) 0 (map found_of scopes.now)) (procedure_of procedure.old)) }
{
    fill_header(alloc, blocks, scopes, &mut procedure.header)?;
    fill_body(alloc, blocks, scopes, &mut procedure.body)?;
    Ok(())
}

/// Writes the buffers scoped to a block into its header.
fn fill_header(
    alloc: Global,
    blocks: &[Block],
    scopes: &[BufferScopes],
    header: &mut Header,
) -> Result<(), AllocError>
    ensures { OnOk result (header_of header.new ≡ scoped (scoped_among (all_of blocks.now) 0 (map found_of scopes.now)) (header_of header.old)) }
{
    header.scoped = scoped_to(alloc, blocks, scopes, header.number as usize)?;
    Ok(())
}

/// The numbers of the buffers scoped to block `n`.
fn scoped_to(
    alloc: Global,
    blocks: &[Block],
    scopes: &[BufferScopes],
    n: usize,
) -> Result<Vec<u32>, AllocError>
    ensures { IfOk result (λ r. r.items ≡ scoped_among (all_of blocks.now) 0 (map found_of scopes.now) n) }
{
    let mut found = Vec::new(alloc);
    for i in 0..scopes.len() {
        if is_scope(blocks, &scopes[i], n) {
            found.push(number(i)?)?;
        }
    }
    Ok(found)
}

/// A number of 32 bits.
fn number(n: usize) -> Result<u32, AllocError>
    ensures { IfOk result (λ r. r ≡ n) }
{
    match u32::try_from(n) {
        Ok(number) => Ok(number),
        Err(_) => Err(AllocError),
    }
}

/// Writes the buffers scoped to each block in the statements.
#[cycle(filling)]
fn fill_body(
    alloc: Global,
    blocks: &[Block],
    scopes: &[BufferScopes],
    body: &mut Vec<Stmt>,
) -> Result<(), AllocError>
    ensures { OnOk result (body_of body.new.items ≡ scoped_body (scoped_among (all_of blocks.now) 0 (map found_of scopes.now)) (body_of body.old.items)) }
{
    for i in 0..body.len() {
        fill_stmt(alloc, blocks, scopes, &mut body[i])?;
    }
    Ok(())
}

/// Writes the buffers scoped to each block in the statement.
#[cycle(filling)]
fn fill_stmt(
    alloc: Global,
    blocks: &[Block],
    scopes: &[BufferScopes],
    stmt: &mut Stmt,
) -> Result<(), AllocError>
    ensures { OnOk result (stmt_of stmt.new ≡ scoped_stmt (scoped_among (all_of blocks.now) 0 (map found_of scopes.now)) (stmt_of stmt.old)) }
{
    match stmt {
        Stmt::Block { header, body } => {
            fill_header(alloc, blocks, scopes, header)?;
            fill_body(alloc, blocks, scopes, body)?;
            Ok(())
        }
        Stmt::If {
            test,
            then_body,
            else_body,
        } => {
            has_no_block(test);
            fill_body(alloc, blocks, scopes, then_body)?;
            fill_body(alloc, blocks, scopes, else_body)?;
            Ok(())
        }
        _ => Ok(()),
    }
}

/// A condition has no block, so nothing is written.
fn has_no_block(_test: &Expr) {}
