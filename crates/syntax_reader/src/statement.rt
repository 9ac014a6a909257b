//! Statements, procedures and whole sources. The functions recurse only where statements nest, which
//! rule G2 bounds.

ghost use Rattle.std.specs.Prelude.{◌≡◌, ◌<◌, IfOk, IfSome, map};
ghost use Rattle.syntax_tree.specs.Typed.{item_of, program_of, statement_of, statements_of};
ghost use Rattle.syntax_reader.specs.Statements.{AreItems, AreStatements, IsBlock, IsElse, IsItem, IsPlain, IsProgram, IsStatement};
ghost use Rattle.syntax_reader.specs.Views.{maybe_statement_of, source_of};

use crate::assignment::assignment;
use crate::definition::definition;
use crate::expression::expression;
use crate::flow::flow;
use crate::header::head;
use crate::made;
use crate::made::{alternative, conditional};
use crate::nodes::{ReadFault, Reader, name, needs, place, uses, word_there};
use crate::record_statement::record_statement;
use crate::streaming::streaming;
use parse_tree::production::{
    ELSE_BRANCH_ELSE, ELSE_BRANCH_NONE, ITEM_PROCEDURE, ITEM_STATEMENT, ITEMS_ITEM, ITEMS_NONE,
    PROCEDURE_WORD_NONE, PROCEDURE_WORD_PROCEDURE, PROGRAM_ITEMS, STATEMENT_ASSIGNMENT,
    STATEMENT_BLOCK, STATEMENT_DEFINE, STATEMENT_FLOW, STATEMENT_IF, STATEMENT_NAME,
    STATEMENT_RECORD, STATEMENT_STREAMING, STATEMENTS_NONE, STATEMENTS_STATEMENT,
};
use std::alloc::Global;
use syntax_tree::{Item, Program, Statement, Word};

/// A statement without others inside, and None where the node is none.
fn plain(
    alloc: Global,
    reader: &Reader<'_>,
    n: usize,
) -> Result<Option<(Statement, usize)>, ReadFault>
    ensures is { IfOk result (λ r. IfSome r (λ o. IsPlain (source_of reader.now) n o.1 (statement_of o.0))) }
    ensures after { IfOk result (λ r. IfSome r (λ o. n < o.1)) }
{
    if let Some(k) = uses(reader, n, STATEMENT_ASSIGNMENT) {
        let (made, end) = assignment(alloc, reader, n + 1)?;
        return Ok(Some((made, end)));
    }
    if let Some(k) = uses(reader, n, STATEMENT_RECORD) {
        let (made, end) = record_statement(alloc, reader, n + 1)?;
        return Ok(Some((made, end)));
    }
    if let Some(k) = uses(reader, n, STATEMENT_FLOW) {
        let (made, end) = flow(alloc, reader, n + 1)?;
        return Ok(Some((made, end)));
    }
    if let Some(k) = uses(reader, n, STATEMENT_STREAMING) {
        let (made, end) = streaming(alloc, reader, n + 1)?;
        return Ok(Some((made, end)));
    }
    if let Some(k) = uses(reader, n, STATEMENT_DEFINE) {
        let (made, end) = definition(alloc, reader, n + 1)?;
        return Ok(Some((Statement::Define(made), end)));
    }
    Ok(None)
}

/// A statement.
#[cycle(statements)]
fn statement(alloc: Global, reader: &Reader<'_>, n: usize) -> Result<(Statement, usize), ReadFault>
    ensures is { IfOk result (λ r. IsStatement (source_of reader.now) n r.1 (statement_of r.0)) }
    ensures after { IfOk result (λ r. n < r.1) }
{
    let alone = plain(alloc, reader, n)?;
    if let Some((made, end)) = alone {
        return Ok((made, end));
    }
    if let Some(k) = uses(reader, n, STATEMENT_BLOCK) {
        let (made, end) = block(alloc, reader, n + 1, None)?;
        return Ok((made, end));
    }
    if let Some(k) = uses(reader, n, STATEMENT_NAME) {
        let word = name(reader, k)?;
        let (made, end) = block(alloc, reader, n + 1, Some(word))?;
        return Ok((made, end));
    }
    let k = needs(reader, n, STATEMENT_IF)?;
    let (test, then_at) = expression(alloc, reader, n + 1)?;
    let (then_it, else_at) = statement(alloc, reader, then_at)?;
    let (else_it, end) = else_branch(alloc, reader, else_at)?;
    let made = conditional(alloc, test, then_it, else_it)?;
    Ok((made, end))
}

/// ELSE with its statement, if it is there.
#[cycle(statements)]
fn else_branch(
    alloc: Global,
    reader: &Reader<'_>,
    n: usize,
) -> Result<(Option<Box<Statement>>, usize), ReadFault>
    ensures is { IfOk result (λ r. IsElse (source_of reader.now) n r.1 (maybe_statement_of r.0)) }
    ensures after { IfOk result (λ r. n < r.1) }
{
    if let Some(k) = uses(reader, n, ELSE_BRANCH_ELSE) {
        let (inner, end) = statement(alloc, reader, n + 1)?;
        let made = alternative(alloc, inner)?;
        return Ok((made, end));
    }
    let k = needs(reader, n, ELSE_BRANCH_NONE)?;
    Ok((None, n + 1))
}

/// A block, with the label before it.
#[cycle(statements)]
fn block(
    alloc: Global,
    reader: &Reader<'_>,
    n: usize,
    label: Option<Word>,
) -> Result<(Statement, usize), ReadFault>
    ensures is { IfOk result (λ r. IsBlock (source_of reader.now) label n r.1 (statement_of r.0)) }
    ensures after { IfOk result (λ r. n < r.1) }
{
    let (found, body_at) = head(alloc, reader, n, label)?;
    let (body, end) = statements(alloc, reader, body_at)?;
    let made = made::block(alloc, found, body)?;
    Ok((made, end))
}

/// The statements of a block or a procedure.
#[cycle(statements)]
fn statements(
    alloc: Global,
    reader: &Reader<'_>,
    begun: usize,
) -> Result<(Vec<Statement>, usize), ReadFault>
    ensures is { IfOk result (λ r. AreStatements (source_of reader.now) begun r.1 (statements_of r.0.items)) }
    ensures after { IfOk result (λ r. begun < r.1) }
{
    let mut found = Vec::new(alloc);
    let mut n = begun;
    while let Some(k) = uses(reader, n, STATEMENTS_STATEMENT) {
        let (one, end) = statement(alloc, reader, n + 1)?;
        found.push(one)?;
        n = end;
    }
    let k = needs(reader, n, STATEMENTS_NONE)?;
    Ok((found, n + 1))
}

/// An internal procedure, or a statement.
fn item(alloc: Global, reader: &Reader<'_>, n: usize) -> Result<(Item, usize), ReadFault>
    ensures is { IfOk result (λ r. IsItem (source_of reader.now) n r.1 (item_of r.0)) }
    ensures after { IfOk result (λ r. n < r.1) }
{
    if let Some(k) = uses(reader, n, ITEM_STATEMENT) {
        let (made, end) = statement(alloc, reader, n + 1)?;
        return Ok((Item::Alone(made), end));
    }
    let k = needs(reader, n, ITEM_PROCEDURE)?;
    let at = place(reader, k)?;
    let word = name(reader, k + 1)?;
    let (body, next) = statements(alloc, reader, n + 1)?;
    let procedure_word = word_there(reader, next, PROCEDURE_WORD_PROCEDURE, PROCEDURE_WORD_NONE)?;
    let made = Item::Procedure {
        at,
        name: word,
        body,
    };
    Ok((made, next + 1))
}

/// The items of a source.
fn items(alloc: Global, reader: &Reader<'_>, begun: usize) -> Result<(Vec<Item>, usize), ReadFault>
    ensures is { IfOk result (λ r. AreItems (source_of reader.now) begun r.1 (map item_of r.0.items)) }
    ensures after { IfOk result (λ r. begun < r.1) }
{
    let mut found = Vec::new(alloc);
    let mut n = begun;
    while let Some(k) = uses(reader, n, ITEMS_ITEM) {
        let (one, end) = item(alloc, reader, n + 1)?;
        found.push(one)?;
        n = end;
    }
    let k = needs(reader, n, ITEMS_NONE)?;
    Ok((found, n + 1))
}

/// The program that node 0 denotes.
pub fn syntax_reader(alloc: Global, reader: &Reader<'_>) -> Result<Program, ReadFault>
    ensures { IfOk result (λ r. IsProgram (source_of reader.now) (program_of r)) }
{
    let k = needs(reader, 0, PROGRAM_ITEMS)?;
    let (items, end) = items(alloc, reader, 1)?;
    Ok(Program { items })
}
