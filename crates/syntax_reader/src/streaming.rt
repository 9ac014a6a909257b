//! Statements of streams.

ghost use Rattle.std.specs.Prelude.{◌≡◌, ◌<◌, ◌^◌, IfOk, IfSome, length, map};
ghost use Rattle.syntax_tree.specs.Typed.{count_of, expression_of, put_item_of, statement_of};
ghost use Rattle.syntax_reader.specs.Streaming.{AreExpressions, ArePutItems, AreTargets, IsCount, IsPutItem, IsStream, IsStreaming, IsImportTarget};
ghost use Rattle.syntax_reader.specs.Nodes.{Uses};
ghost use Rattle.syntax_reader.specs.Views.{source_of};
ghost use Rattle.parse_tree.specs.declared.production.TheConstants.{STREAMING_INPUT};

use crate::assignment::{quiet, target};
use crate::constant::whole;
use crate::expression::expression;
use crate::nodes::{
    ReadFault, Reader, name_there, needs, place, text, text_there, uses, word_there,
};
use parse_tree::production::{
    APPEND_WORD_APPEND, APPEND_WORD_NONE, EXPRESSIONS_EXPRESSION, EXPRESSIONS_NONE,
    IMPORT_TARGETS_CARET, IMPORT_TARGETS_NONE, IMPORT_TARGETS_TARGET, INPUT_SOURCE_CLOSE,
    INPUT_SOURCE_FROM, NAMED_STREAM_NONE, NAMED_STREAM_STREAM, OUTPUT_GOAL_CLOSE, OUTPUT_GOAL_TO,
    PUT_FORMAT_FORMAT, PUT_FORMAT_NONE, PUT_ITEM_EXPRESSION, PUT_ITEM_SKIP_OR_SPACE,
    PUT_ITEMS_NONE, PUT_ITEMS_PUT_ITEM, REPEAT_COUNT_LEFT_PARENTHESIS, REPEAT_COUNT_NONE,
    SKIP_OR_SPACE_SKIP, SKIP_OR_SPACE_SPACE, STREAM_CHOICE_NAMED_STREAM, STREAMING_EXPORT,
    STREAMING_IMPORT, STREAMING_INPUT, STREAMING_MESSAGE, STREAMING_OUTPUT, STREAMING_PUT,
    UNFORMATTED_WORD_NONE, UNFORMATTED_WORD_UNFORMATTED,
};
use std::alloc::Global;
use syntax_tree::{Count, Expression, Named, PutItem, Statement, Word};

/// The stream of a statement, if it names one.
fn stream(reader: &Reader<'_>, n: usize) -> Result<Option<Word>, ReadFault>
    ensures { IfOk result (λ r. IsStream (source_of reader.now) n r) }
{
    let k = needs(reader, n, STREAM_CHOICE_NAMED_STREAM)?;
    let word = name_there(reader, n + 1, NAMED_STREAM_STREAM, NAMED_STREAM_NONE, 1)?;
    Ok(word)
}

/// A target of IMPORT or `^`, and None where there is no more.
fn import_target(reader: &Reader<'_>, n: usize) -> Result<Option<(Option<Named>, usize)>, ReadFault>
    ensures is { IfOk result (λ r. IfSome r (λ o. IsImportTarget (source_of reader.now) n o.1 o.0)) }
    ensures after { IfOk result (λ r. IfSome r (λ o. n < o.1)) }
    ensures within { IfOk result (λ r. IfSome r (λ o. n < length reader.now.nodes.now)) }
{
    if let Some(k) = uses(reader, n, IMPORT_TARGETS_TARGET) {
        let named = target(reader, n + 1)?;
        return Ok(Some((Some(named), n + 2)));
    }
    if let Some(k) = uses(reader, n, IMPORT_TARGETS_CARET) {
        return Ok(Some((None, n + 1)));
    }
    Ok(None)
}

/// The targets of an IMPORT.
fn import_targets(
    alloc: Global,
    reader: &Reader<'_>,
    begun: usize,
) -> Result<(Vec<Option<Named>>, usize), ReadFault>
    ensures is { IfOk result (λ r. AreTargets (source_of reader.now) begun r.1 r.0.items) }
    ensures after { IfOk result (λ r. begun < r.1) }
{
    let mut found = Vec::new(alloc);
    let mut n = begun;
    while let Some((one, end)) = import_target(reader, n)? {
        found.push(one)?;
        n = end;
    }
    let k = needs(reader, n, IMPORT_TARGETS_NONE)?;
    Ok((found, n + 1))
}

/// Expressions one after another.
fn expressions(
    alloc: Global,
    reader: &Reader<'_>,
    begun: usize,
) -> Result<(Vec<Expression>, usize), ReadFault>
    ensures is { IfOk result (λ r. AreExpressions (source_of reader.now) begun r.1 (map expression_of r.0.items)) }
    ensures after { IfOk result (λ r. begun < r.1) }
{
    let mut found = Vec::new(alloc);
    let mut n = begun;
    while let Some(k) = uses(reader, n, EXPRESSIONS_EXPRESSION) {
        let (one, end) = expression(alloc, reader, n + 1)?;
        found.push(one)?;
        n = end;
    }
    let k = needs(reader, n, EXPRESSIONS_NONE)?;
    Ok((found, n + 1))
}

/// The number after SKIP or SPACE, if there is one.
fn count(reader: &Reader<'_>, n: usize) -> Result<Option<Count>, ReadFault>
    ensures is { IfOk result (λ r. IsCount (source_of reader.now) n (count_of r)) }
    ensures room { IfOk result (λ r. n < 2 ^ 62) }
{
    if let Some(k) = uses(reader, n, REPEAT_COUNT_LEFT_PARENTHESIS) {
        let number = whole(reader, k + 1)?;
        let at = place(reader, k + 1)?;
        return Ok(Some(Count { number, at }));
    }
    let k = needs(reader, n, REPEAT_COUNT_NONE)?;
    Ok(None)
}

/// An item of PUT.
fn put_item(alloc: Global, reader: &Reader<'_>, n: usize) -> Result<(PutItem, usize), ReadFault>
    ensures is { IfOk result (λ r. IsPutItem (source_of reader.now) n r.1 (put_item_of r.0)) }
    ensures after { IfOk result (λ r. n < r.1) }
{
    if let Some(k) = uses(reader, n, PUT_ITEM_EXPRESSION) {
        let (value, next) = expression(alloc, reader, n + 1)?;
        let mask = text_there(reader, next, PUT_FORMAT_FORMAT, PUT_FORMAT_NONE)?;
        return Ok((PutItem::Shows { value, mask }, next + 1));
    }
    let k = needs(reader, n, PUT_ITEM_SKIP_OR_SPACE)?;
    let found = count(reader, n + 2)?;
    if let Some(j) = uses(reader, n + 1, SKIP_OR_SPACE_SKIP) {
        return Ok((PutItem::Skip(found), n + 3));
    }
    let j = needs(reader, n + 1, SKIP_OR_SPACE_SPACE)?;
    Ok((PutItem::Space(found), n + 3))
}

/// The items of a PUT.
fn put_items(
    alloc: Global,
    reader: &Reader<'_>,
    begun: usize,
) -> Result<(Vec<PutItem>, usize), ReadFault>
    ensures is { IfOk result (λ r. ArePutItems (source_of reader.now) begun r.1 (map put_item_of r.0.items)) }
    ensures after { IfOk result (λ r. begun < r.1) }
{
    let mut found = Vec::new(alloc);
    let mut n = begun;
    while let Some(k) = uses(reader, n, PUT_ITEMS_PUT_ITEM) {
        let (one, end) = put_item(alloc, reader, n + 1)?;
        found.push(one)?;
        n = end;
    }
    let k = needs(reader, n, PUT_ITEMS_NONE)?;
    Ok((found, n + 1))
}

/// IMPORT, EXPORT, PUT, MESSAGE, INPUT or OUTPUT.
pub(crate) fn streaming(
    alloc: Global,
    reader: &Reader<'_>,
    n: usize,
) -> Result<(Statement, usize), ReadFault>
    ensures is { IfOk result (λ r. IsStreaming (source_of reader.now) n r.1 (statement_of r.0)) }
    ensures after { IfOk result (λ r. n < r.1) }
{
    if let Some(k) = uses(reader, n, STREAMING_MESSAGE) {
        let (values, end) = expressions(alloc, reader, n + 1)?;
        return Ok((Statement::Message(values), end));
    }
    if let Some(k) = uses(reader, n, STREAMING_PUT) {
        let stream = stream(reader, n + 1)?;
        let plain = word_there(
            reader,
            n + 3,
            UNFORMATTED_WORD_UNFORMATTED,
            UNFORMATTED_WORD_NONE,
        )?;
        let (items, end) = put_items(alloc, reader, n + 4)?;
        let made = Statement::Put {
            stream,
            plain,
            items,
        };
        return Ok((made, end));
    }
    if let Some(k) = uses(reader, n, STREAMING_EXPORT) {
        let stream = stream(reader, n + 1)?;
        let (values, end) = expressions(alloc, reader, n + 3)?;
        return Ok((Statement::Export { stream, values }, end));
    }
    if let Some(k) = uses(reader, n, STREAMING_IMPORT) {
        let stream = stream(reader, n + 1)?;
        let (targets, next) = import_targets(alloc, reader, n + 3)?;
        let quiet = quiet(reader, next)?;
        let made = Statement::Import {
            stream,
            targets,
            quiet,
        };
        return Ok((made, next + 1));
    }
    redirection(reader, n)
}

/// INPUT or OUTPUT.
fn redirection(reader: &Reader<'_>, n: usize) -> Result<(Statement, usize), ReadFault>
    ensures is { IfOk result (λ r. IsStreaming (source_of reader.now) n r.1 (statement_of r.0)) }
    ensures after { IfOk result (λ r. n < r.1) }
{
    if let Some(k) = uses(reader, n, STREAMING_INPUT) {
        return input(reader, n, k);
    }
    output(reader, n)
}

/// INPUT.
fn input(reader: &Reader<'_>, n: usize, k: usize) -> Result<(Statement, usize), ReadFault>
    requires uses { Uses (source_of reader.now) n STREAMING_INPUT k }
    requires room { n < 2 ^ 62 }
    ensures is { IfOk result (λ r. IsStreaming (source_of reader.now) n r.1 (statement_of r.0)) }
    ensures after { IfOk result (λ r. n < r.1) }
{
    let stream = stream(reader, n + 1)?;
    if let Some(j) = uses(reader, n + 3, INPUT_SOURCE_FROM) {
        let word = text(reader, j + 1)?;
        let file = Some(word);
        return Ok((Statement::InputFrom { stream, file }, n + 4));
    }
    let j = needs(reader, n + 3, INPUT_SOURCE_CLOSE)?;
    let file = None;
    Ok((Statement::InputFrom { stream, file }, n + 4))
}

/// OUTPUT.
fn output(reader: &Reader<'_>, n: usize) -> Result<(Statement, usize), ReadFault>
    ensures is { IfOk result (λ r. IsStreaming (source_of reader.now) n r.1 (statement_of r.0)) }
    ensures after { IfOk result (λ r. n < r.1) }
{
    let k = needs(reader, n, STREAMING_OUTPUT)?;
    let stream = stream(reader, n + 1)?;
    if let Some(j) = uses(reader, n + 3, OUTPUT_GOAL_TO) {
        let word = text(reader, j + 1)?;
        let append = word_there(reader, n + 4, APPEND_WORD_APPEND, APPEND_WORD_NONE)?;
        let made = Statement::OutputTo {
            stream,
            file: Some(word),
            append,
        };
        return Ok((made, n + 5));
    }
    let j = needs(reader, n + 3, OUTPUT_GOAL_CLOSE)?;
    let made = Statement::OutputTo {
        stream,
        file: None,
        append: false,
    };
    Ok((made, n + 4))
}
