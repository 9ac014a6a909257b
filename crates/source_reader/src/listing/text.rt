//! The lines of all blocks, in text order.

ghost use Rattle.std.specs.Prelude.{◌≡◌, [], IfOk, OnOk, map};
ghost use Rattle.bound_tree.specs.Bound.{body_of, header_of, procedure_of, source_of, stmt_of};
ghost use Rattle.source_reader.specs.listing.Listing.{add, in_body, in_procedure, in_procedures, in_stmt, joined, listing};

use crate::listing::line::{ListedBlock, add_line, listed};
use crate::listing::own_lines::OwnLines;
use abl_base::Bytes;
use bound_tree::{Bound, BufferDef, Header, Procedure, Stmt};
use std::alloc::{AllocError, Global};
use std::collections::BTreeMap;

/// Blocks by their numbers.
type Lines = BTreeMap<u32, ListedBlock>;

/// The listing of a source: a line for each block, in text order. Out of memory is the only refusal.
pub fn listing<L: OwnLines>(alloc: Global, bound: &Bound, own: &L) -> Result<Bytes, AllocError>
    ensures { IfOk result (λ r. r ≡ listing (L.own_line own.now) (source_of bound.now)) }
{
    let mut lines = BTreeMap::new(alloc);
    in_procedures(alloc, &mut lines, &bound.procedures)?;
    joined(alloc, own, &lines)
}

/// The lines of these blocks one after the other.
fn joined<L: OwnLines>(alloc: Global, own: &L, lines: &Lines) -> Result<Bytes, AllocError>
    ensures { IfOk result (λ r. r ≡ joined (L.own_line own.now) lines.now.entries) }
{
    let mut text = Bytes::empty(alloc);
    for (number, block) in lines {
        add_line(own, *number, block, &mut text)?;
    }
    Ok(text)
}

/// Adds the blocks of the procedures.
fn in_procedures(
    alloc: Global,
    lines: &mut Lines,
    procedures: &[Procedure],
) -> Result<(), AllocError>
    ensures { OnOk result (lines.new.entries ≡ in_procedures lines.old.entries (map procedure_of procedures.now)) }
{
    for procedure in procedures {
        in_procedure(alloc, lines, procedure)?;
    }
    Ok(())
}

/// Adds the blocks of a procedure.
fn in_procedure(alloc: Global, lines: &mut Lines, procedure: &Procedure) -> Result<(), AllocError>
    ensures { OnOk result (lines.new.entries ≡ in_procedure lines.old.entries (procedure_of procedure.now)) }
{
    add(alloc, &procedure.buffers, lines, &procedure.header)?;
    in_body(alloc, &procedure.buffers, lines, &procedure.body)?;
    Ok(())
}

/// Adds a block with this header.
fn add(
    alloc: Global,
    buffers: &[BufferDef],
    lines: &mut Lines,
    header: &Header,
) -> Result<(), AllocError>
    ensures { OnOk result (lines.new.entries ≡ add buffers.now lines.old.entries (header_of header.now)) }
{
    let block = listed(alloc, buffers, header)?;
    lines.insert(header.number, block)?;
    Ok(())
}

/// Adds the blocks in the statements.
#[cycle(walk)]
fn in_body(
    alloc: Global,
    buffers: &[BufferDef],
    lines: &mut Lines,
    body: &[Stmt],
) -> Result<(), AllocError>
    ensures { OnOk result (lines.new.entries ≡ in_body buffers.now lines.old.entries (body_of body.now)) }
{
    for stmt in body {
        in_stmt(alloc, buffers, lines, stmt)?;
    }
    Ok(())
}

/// Adds the blocks in the statement.
#[cycle(walk)]
fn in_stmt(
    alloc: Global,
    buffers: &[BufferDef],
    lines: &mut Lines,
    stmt: &Stmt,
) -> Result<(), AllocError>
    ensures { OnOk result (lines.new.entries ≡ in_stmt buffers.now lines.old.entries (stmt_of stmt.now)) }
{
    match stmt {
        Stmt::Block { header, body } => {
            add(alloc, buffers, lines, header)?;
            in_body(alloc, buffers, lines, body)?;
            Ok(())
        }
        Stmt::If {
            then_body,
            else_body,
            ..
        } => {
            in_body(alloc, buffers, lines, then_body)?;
            in_body(alloc, buffers, lines, else_body)?;
            Ok(())
        }
        _ => Ok(()),
    }
}
