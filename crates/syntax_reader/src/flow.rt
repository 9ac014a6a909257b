//! UNDO, LEAVE, NEXT, RETURN, STOP and RUN.

ghost use Rattle.std.specs.Prelude.{◌≡◌, ◌<◌, ◌^◌, IfOk, map};
ghost use Rattle.syntax_tree.specs.Typed.{argument_of, maybe_action_of, maybe_boxed_of, maybe_expression_of, statement_of, maybe_boxed_action_of};
ghost use Rattle.syntax_reader.specs.Nodes.{Uses};
ghost use Rattle.syntax_reader.specs.Plain.{AreRunArguments, IsArgument, IsFlow, AreArgumentsFrom};
ghost use Rattle.syntax_reader.specs.Views.{source_of};
ghost use Rattle.parse_tree.specs.declared.production.TheConstants.{FLOW_RETURN, FLOW_UNDO};

use crate::action::{action_there, error_word, label, value_there};
use crate::assignment::quiet;
use crate::expression::expression;
use crate::nodes::{ReadFault, Reader, name, needs, place, uses, word_there};
use parse_tree::production::{
    ARGUMENT_INPUT_WORD, ARGUMENT_LIST_LEFT_PARENTHESIS, ARGUMENT_LIST_NONE,
    ARGUMENT_OUTPUT_DIRECTION, ARGUMENTS_ARGUMENT, ARGUMENTS_NONE, FLOW_LEAVE_OR_NEXT, FLOW_RETURN,
    FLOW_RUN, FLOW_STOP, FLOW_UNDO, INPUT_WORD_INPUT, INPUT_WORD_NONE, LEAVE_OR_NEXT_LEAVE,
    LEAVE_OR_NEXT_NEXT, MORE_ARGUMENTS_COMMA, MORE_ARGUMENTS_NONE, OUTPUT_DIRECTION_INPUT_OUTPUT,
    OUTPUT_DIRECTION_OUTPUT,
};
use std::alloc::Global;
use syntax_tree::{Action, Argument, Expression, Statement};

/// An argument of RUN.
fn argument(alloc: Global, reader: &Reader<'_>, n: usize) -> Result<(Argument, usize), ReadFault>
    ensures is { IfOk result (λ r. IsArgument (source_of reader.now) n r.1 (argument_of r.0)) }
    ensures after { IfOk result (λ r. n < r.1) }
{
    if let Some(k) = uses(reader, n, ARGUMENT_INPUT_WORD) {
        let at = place(reader, k)?;
        let input = word_there(reader, n + 1, INPUT_WORD_INPUT, INPUT_WORD_NONE)?;
        let (value, end) = expression(alloc, reader, n + 2)?;
        return Ok((Argument::Input { at, value }, end));
    }
    let k = needs(reader, n, ARGUMENT_OUTPUT_DIRECTION)?;
    let at = place(reader, k)?;
    let word = name(reader, k + 1)?;
    if let Some(j) = uses(reader, n + 1, OUTPUT_DIRECTION_OUTPUT) {
        return Ok((Argument::Output { at, name: word }, n + 2));
    }
    let j = needs(reader, n + 1, OUTPUT_DIRECTION_INPUT_OUTPUT)?;
    Ok((Argument::InputOutput { at, name: word }, n + 2))
}

/// The arguments of a RUN from the first one on.
fn other_arguments(
    alloc: Global,
    reader: &Reader<'_>,
    begun: usize,
    first: Argument,
) -> Result<(Vec<Argument>, usize), ReadFault>
    ensures is { IfOk result (λ r. AreArgumentsFrom (source_of reader.now) begun r.1 (argument_of first) (map argument_of r.0.items)) }
    ensures after { IfOk result (λ r. begun < r.1) }
{
    let mut found = Vec::new(alloc);
    found.push(first)?;
    let mut n = begun;
    while let Some(k) = uses(reader, n, MORE_ARGUMENTS_COMMA) {
        let (one, end) = argument(alloc, reader, n + 1)?;
        found.push(one)?;
        n = end;
    }
    let k = needs(reader, n, MORE_ARGUMENTS_NONE)?;
    Ok((found, n + 1))
}

/// The arguments of a RUN, if it has some.
fn run_arguments(
    alloc: Global,
    reader: &Reader<'_>,
    n: usize,
) -> Result<(Vec<Argument>, usize), ReadFault>
    ensures is { IfOk result (λ r. AreRunArguments (source_of reader.now) n r.1 (map argument_of r.0.items)) }
    ensures after { IfOk result (λ r. n < r.1) }
{
    if let Some(k) = uses(reader, n, ARGUMENT_LIST_NONE) {
        return Ok((Vec::new(alloc), n + 1));
    }
    let k = needs(reader, n, ARGUMENT_LIST_LEFT_PARENTHESIS)?;
    if let Some(j) = uses(reader, n + 1, ARGUMENTS_NONE) {
        return Ok((Vec::new(alloc), n + 2));
    }
    let j = needs(reader, n + 1, ARGUMENTS_ARGUMENT)?;
    let (first, next) = argument(alloc, reader, n + 2)?;
    let (found, end) = other_arguments(alloc, reader, next, first)?;
    Ok((found, end))
}

/// UNDO, LEAVE, NEXT, RETURN, STOP or RUN.
pub(crate) fn flow(
    alloc: Global,
    reader: &Reader<'_>,
    n: usize,
) -> Result<(Statement, usize), ReadFault>
    ensures is { IfOk result (λ r. IsFlow (source_of reader.now) n r.1 (statement_of r.0)) }
    ensures after { IfOk result (λ r. n < r.1) }
{
    if let Some(k) = uses(reader, n, FLOW_RUN) {
        let procedure = name(reader, k + 1)?;
        let (arguments, next) = run_arguments(alloc, reader, n + 1)?;
        let quiet = quiet(reader, next)?;
        let made = Statement::Run {
            procedure,
            arguments,
            quiet,
        };
        return Ok((made, next + 1));
    }
    if let Some(k) = uses(reader, n, FLOW_RETURN) {
        return returned(alloc, reader, n, k);
    }
    if let Some(k) = uses(reader, n, FLOW_UNDO) {
        return undone(alloc, reader, n, k);
    }
    if let Some(k) = uses(reader, n, FLOW_STOP) {
        return Ok((Statement::Stop, n + 1));
    }
    leave_or_next(reader, n)
}

/// RETURN.
fn returned(
    alloc: Global,
    reader: &Reader<'_>,
    n: usize,
    k: usize,
) -> Result<(Statement, usize), ReadFault>
    requires uses { Uses (source_of reader.now) n FLOW_RETURN k }
    requires room { n < 2 ^ 62 }
    ensures is { IfOk result (λ r. IsFlow (source_of reader.now) n r.1 (statement_of r.0)) }
    ensures after { IfOk result (λ r. n < r.1) }
{
    let at = place(reader, k)?;
    let error = error_word(reader, n + 1)?;
    let (found, end) = value_there(alloc, reader, n + 2)?;
    let value = boxed_value(alloc, found)?;
    Ok((Statement::Return { at, error, value }, end))
}

/// Boxes the value, if there is one.
fn boxed_value(
    alloc: Global,
    value: Option<Expression>,
) -> Result<Option<Box<Expression>>, ReadFault>
    ensures { IfOk result (λ r. maybe_boxed_of r ≡ maybe_expression_of value) }
{
    match value {
        Some(value) => {
            let made = Box::new(alloc, value)?;
            Ok(Some(made))
        }
        None => Ok(None),
    }
}

/// Boxes the action, if there is one.
fn boxed_action(alloc: Global, action: Option<Action>) -> Result<Option<Box<Action>>, ReadFault>
    ensures { IfOk result (λ r. maybe_boxed_action_of r ≡ maybe_action_of action) }
{
    match action {
        Some(action) => {
            let made = Box::new(alloc, action)?;
            Ok(Some(made))
        }
        None => Ok(None),
    }
}

/// UNDO.
fn undone(
    alloc: Global,
    reader: &Reader<'_>,
    n: usize,
    k: usize,
) -> Result<(Statement, usize), ReadFault>
    requires uses { Uses (source_of reader.now) n FLOW_UNDO k }
    requires room { n < 2 ^ 62 }
    ensures is { IfOk result (λ r. IsFlow (source_of reader.now) n r.1 (statement_of r.0)) }
    ensures after { IfOk result (λ r. n < r.1) }
{
    let at = place(reader, k)?;
    let label = label(reader, n + 1)?;
    let (found, end) = action_there(alloc, reader, n + 2)?;
    let action = boxed_action(alloc, found)?;
    Ok((Statement::Undo { at, label, action }, end))
}

/// LEAVE or NEXT.
fn leave_or_next(reader: &Reader<'_>, n: usize) -> Result<(Statement, usize), ReadFault>
    ensures is { IfOk result (λ r. IsFlow (source_of reader.now) n r.1 (statement_of r.0)) }
    ensures after { IfOk result (λ r. n < r.1) }
{
    let k = needs(reader, n, FLOW_LEAVE_OR_NEXT)?;
    let at = place(reader, k)?;
    let label = label(reader, n + 2)?;
    if let Some(j) = uses(reader, n + 1, LEAVE_OR_NEXT_LEAVE) {
        return Ok((Statement::Leave { at, label }, n + 3));
    }
    let j = needs(reader, n + 1, LEAVE_OR_NEXT_NEXT)?;
    Ok((Statement::Next { at, label }, n + 3))
}
