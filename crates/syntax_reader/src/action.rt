//! What follows an UNDO or a RETURN.

ghost use Rattle.std.specs.Prelude.{◌≡◌, ◌<◌, ◌^◌, IfOk};
ghost use Rattle.syntax_tree.specs.Typed.{action_of, maybe_action_of, maybe_expression_of};
ghost use Rattle.syntax_reader.specs.Headers.{IsAction, IsActionThere, IsErrorWord, IsLabel, IsValueThere};
ghost use Rattle.syntax_reader.specs.Views.{source_of};

use crate::expression::expression;
use crate::nodes::{ReadFault, Reader, name_there, needs, place, uses, word_there};
use parse_tree::production::{
    ACTION_LEAVE_NEXT_OR_RETRY, ACTION_RETURN, ERROR_WORD_ERROR, ERROR_WORD_NONE,
    LEAVE_NEXT_OR_RETRY_LEAVE, LEAVE_NEXT_OR_RETRY_NEXT, LEAVE_NEXT_OR_RETRY_RETRY,
    OPTIONAL_ACTION_COMMA, OPTIONAL_ACTION_NONE, OPTIONAL_EXPRESSION_EXPRESSION,
    OPTIONAL_EXPRESSION_NONE, OPTIONAL_NAME_NAME, OPTIONAL_NAME_NONE,
};
use std::alloc::Global;
use syntax_tree::{Action, Expression, Word};

/// A label that may be left out.
pub(crate) fn label(reader: &Reader<'_>, n: usize) -> Result<Option<Word>, ReadFault>
    ensures is { IfOk result (λ r. IsLabel (source_of reader.now) n r) }
    ensures room { IfOk result (λ r. n < 2 ^ 62) }
{
    name_there(reader, n, OPTIONAL_NAME_NAME, OPTIONAL_NAME_NONE, 0)
}

/// Whether ERROR follows RETURN.
pub(crate) fn error_word(reader: &Reader<'_>, n: usize) -> Result<bool, ReadFault>
    ensures { IfOk result (λ r. IsErrorWord (source_of reader.now) n r) }
{
    word_there(reader, n, ERROR_WORD_ERROR, ERROR_WORD_NONE)
}

/// The value of a RETURN, if there is one.
pub(crate) fn value_there(
    alloc: Global,
    reader: &Reader<'_>,
    n: usize,
) -> Result<(Option<Expression>, usize), ReadFault>
    ensures is { IfOk result (λ r. IsValueThere (source_of reader.now) n r.1 (maybe_expression_of r.0)) }
    ensures after { IfOk result (λ r. n < r.1) }
{
    if let Some(k) = uses(reader, n, OPTIONAL_EXPRESSION_EXPRESSION) {
        let (value, end) = expression(alloc, reader, n + 1)?;
        return Ok((Some(value), end));
    }
    let k = needs(reader, n, OPTIONAL_EXPRESSION_NONE)?;
    Ok((None, n + 1))
}

/// What follows an UNDO.
fn action(alloc: Global, reader: &Reader<'_>, n: usize) -> Result<(Action, usize), ReadFault>
    ensures is { IfOk result (λ r. IsAction (source_of reader.now) n r.1 (action_of r.0)) }
    ensures after { IfOk result (λ r. n < r.1) }
{
    if let Some(k) = uses(reader, n, ACTION_RETURN) {
        let at = place(reader, k)?;
        let error = error_word(reader, n + 1)?;
        let (value, end) = value_there(alloc, reader, n + 2)?;
        return Ok((Action::Return { at, error, value }, end));
    }
    let k = needs(reader, n, ACTION_LEAVE_NEXT_OR_RETRY)?;
    let at = place(reader, k)?;
    let label = label(reader, n + 2)?;
    if let Some(j) = uses(reader, n + 1, LEAVE_NEXT_OR_RETRY_LEAVE) {
        return Ok((Action::Leave { at, label }, n + 3));
    }
    if let Some(j) = uses(reader, n + 1, LEAVE_NEXT_OR_RETRY_NEXT) {
        return Ok((Action::Next { at, label }, n + 3));
    }
    let j = needs(reader, n + 1, LEAVE_NEXT_OR_RETRY_RETRY)?;
    Ok((Action::Retry { at, label }, n + 3))
}

/// What follows an UNDO, if there is something.
pub(crate) fn action_there(
    alloc: Global,
    reader: &Reader<'_>,
    n: usize,
) -> Result<(Option<Action>, usize), ReadFault>
    ensures is { IfOk result (λ r. IsActionThere (source_of reader.now) n r.1 (maybe_action_of r.0)) }
    ensures after { IfOk result (λ r. n < r.1) }
{
    if let Some(k) = uses(reader, n, OPTIONAL_ACTION_COMMA) {
        let (action, end) = action(alloc, reader, n + 1)?;
        return Ok((Some(action), end));
    }
    let k = needs(reader, n, OPTIONAL_ACTION_NONE)?;
    Ok((None, n + 1))
}
