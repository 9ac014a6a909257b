//! Headers of blocks.

ghost use Rattle.std.specs.Prelude.{◌≡◌, ◌<◌, IfOk, length, map};
ghost use Rattle.syntax_tree.specs.Typed.{head_of, maybe_counting_of, maybe_expression_of, opening_of, phrase_of};
ghost use Rattle.syntax_reader.specs.Headers.{AreBuffers, AreNamesFrom, ArePhrases, IsBlockWord, IsCounting, IsFetchWord, IsHead, IsOpening, IsPhrase, IsStep};
ghost use Rattle.syntax_reader.specs.Views.{source_of};

use crate::action::{action_there, label};
use crate::expression::expression;
use crate::nodes::{ReadFault, Reader, name, needs, place, uses};
use crate::record::record_options;
use abl_base::Place;
use bound_tree::FetchWord;
use parse_tree::production::{
    BLOCK_DO_OR_REPEAT, BLOCK_FOR, CONDITION_ENDKEY, CONDITION_ERROR, COUNTING_NAME, COUNTING_NONE,
    DO_OR_REPEAT_DO, DO_OR_REPEAT_REPEAT, HEADER_COUNTING, MORE_NAMES_COMMA, MORE_NAMES_NONE,
    PHRASE_ON, PHRASE_TRANSACTION, PHRASE_WHILE, PHRASES_NONE, PHRASES_PHRASE, STEP_BY, STEP_NONE,
    STRONG_BUFFERS_FOR, STRONG_BUFFERS_NONE, WHICH_RECORDS_EACH, WHICH_RECORDS_FIRST,
    WHICH_RECORDS_LAST,
};
use std::alloc::Global;
use syntax_tree::{BlockWord, Counting, Expression, Head, Named, Opening, Phrase, Word};

/// A phrase of a header.
fn phrase(alloc: Global, reader: &Reader<'_>, n: usize) -> Result<(Phrase, usize), ReadFault>
    ensures is { IfOk result (λ r. IsPhrase (source_of reader.now) n r.1 (phrase_of r.0)) }
    ensures after { IfOk result (λ r. n < r.1) }
{
    if let Some(k) = uses(reader, n, PHRASE_WHILE) {
        let at = place(reader, k)?;
        let (test, end) = expression(alloc, reader, n + 1)?;
        return Ok((Phrase::While { at, test }, end));
    }
    if let Some(k) = uses(reader, n, PHRASE_TRANSACTION) {
        let at = place(reader, k)?;
        return Ok((Phrase::Transaction { at }, n + 1));
    }
    on_phrase(alloc, reader, n)
}

/// ON ERROR or ON ENDKEY.
fn on_phrase(alloc: Global, reader: &Reader<'_>, n: usize) -> Result<(Phrase, usize), ReadFault>
    ensures is { IfOk result (λ r. IsPhrase (source_of reader.now) n r.1 (phrase_of r.0)) }
    ensures after { IfOk result (λ r. n < r.1) }
{
    let k = needs(reader, n, PHRASE_ON)?;
    let at = place(reader, k)?;
    let label = label(reader, n + 2)?;
    let (action, end) = action_there(alloc, reader, n + 3)?;
    if let Some(j) = uses(reader, n + 1, CONDITION_ERROR) {
        return Ok((Phrase::OnError { at, label, action }, end));
    }
    let j = needs(reader, n + 1, CONDITION_ENDKEY)?;
    Ok((Phrase::OnEndkey { at, label, action }, end))
}

/// The phrases of a header.
fn phrases(
    alloc: Global,
    reader: &Reader<'_>,
    begun: usize,
) -> Result<(Vec<Phrase>, usize), ReadFault>
    ensures is { IfOk result (λ r. ArePhrases (source_of reader.now) begun r.1 (map phrase_of r.0.items)) }
    ensures after { IfOk result (λ r. begun < r.1) }
{
    let mut found = Vec::new(alloc);
    let mut n = begun;
    while let Some(k) = uses(reader, n, PHRASES_PHRASE) {
        let (one, end) = phrase(alloc, reader, n + 1)?;
        found.push(one)?;
        n = end;
    }
    let k = needs(reader, n, PHRASES_NONE)?;
    Ok((found, n + 1))
}

/// BY with its value, if it is there.
fn step(
    alloc: Global,
    reader: &Reader<'_>,
    n: usize,
) -> Result<(Option<Expression>, usize), ReadFault>
    ensures is { IfOk result (λ r. IsStep (source_of reader.now) n r.1 (maybe_expression_of r.0)) }
    ensures after { IfOk result (λ r. n < r.1) }
{
    if let Some(k) = uses(reader, n, STEP_BY) {
        let (by, end) = expression(alloc, reader, n + 1)?;
        return Ok((Some(by), end));
    }
    let k = needs(reader, n, STEP_NONE)?;
    Ok((None, n + 1))
}

/// variable = start TO end BY by, if it is there.
fn counting(
    alloc: Global,
    reader: &Reader<'_>,
    n: usize,
) -> Result<(Option<Counting>, usize), ReadFault>
    ensures is { IfOk result (λ r. IsCounting (source_of reader.now) n r.1 (maybe_counting_of r.0)) }
    ensures after { IfOk result (λ r. n < r.1) }
{
    if let Some(k) = uses(reader, n, COUNTING_NAME) {
        let word = name(reader, k)?;
        let (start, to_at) = expression(alloc, reader, n + 1)?;
        let (end, by_at) = expression(alloc, reader, to_at)?;
        let (by, next) = step(alloc, reader, by_at)?;
        let made = Counting {
            variable: Named::Plain(word),
            start,
            end,
            by,
        };
        return Ok((Some(made), next));
    }
    let k = needs(reader, n, COUNTING_NONE)?;
    Ok((None, n + 1))
}

/// The names of a list whose first name is already read.
fn more_names(
    alloc: Global,
    reader: &Reader<'_>,
    begun: usize,
    first: Word,
) -> Result<(Vec<Word>, usize), ReadFault>
    ensures is { IfOk result (λ r. AreNamesFrom (source_of reader.now) begun r.1 first r.0.items) }
    ensures after { IfOk result (λ r. begun < r.1) }
{
    let mut found = Vec::new(alloc);
    found.push(first)?;
    let mut n = begun;
    while let Some(k) = uses(reader, n, MORE_NAMES_COMMA) {
        let word = name(reader, k + 1)?;
        found.push(word)?;
        n = n + 1;
    }
    let k = needs(reader, n, MORE_NAMES_NONE)?;
    Ok((found, n + 1))
}

/// The buffers of a DO FOR or REPEAT FOR.
fn buffers(alloc: Global, reader: &Reader<'_>, n: usize) -> Result<(Vec<Word>, usize), ReadFault>
    ensures is { IfOk result (λ r. AreBuffers (source_of reader.now) n r.1 r.0.items) }
    ensures after { IfOk result (λ r. n < r.1) }
{
    if let Some(k) = uses(reader, n, STRONG_BUFFERS_FOR) {
        let first = name(reader, k + 1)?;
        let (found, end) = more_names(alloc, reader, n + 1, first)?;
        return Ok((found, end));
    }
    let k = needs(reader, n, STRONG_BUFFERS_NONE)?;
    Ok((Vec::new(alloc), n + 1))
}

/// DO or REPEAT.
fn block_word(reader: &Reader<'_>, n: usize) -> Result<BlockWord, ReadFault>
    ensures { IfOk result (λ r. IsBlockWord (source_of reader.now) n r) }
{
    if let Some(k) = uses(reader, n, DO_OR_REPEAT_DO) {
        return Ok(BlockWord::Do);
    }
    let k = needs(reader, n, DO_OR_REPEAT_REPEAT)?;
    Ok(BlockWord::Repeat)
}

/// EACH, FIRST or LAST.
fn fetch_word(reader: &Reader<'_>, n: usize) -> Result<FetchWord, ReadFault>
    ensures { IfOk result (λ r. IsFetchWord (source_of reader.now) n r) }
{
    if let Some(k) = uses(reader, n, WHICH_RECORDS_EACH) {
        return Ok(FetchWord::Each);
    }
    if let Some(k) = uses(reader, n, WHICH_RECORDS_FIRST) {
        return Ok(FetchWord::First);
    }
    let k = needs(reader, n, WHICH_RECORDS_LAST)?;
    Ok(FetchWord::Last)
}

/// The first words of a block.
fn opening(
    alloc: Global,
    reader: &Reader<'_>,
    n: usize,
) -> Result<(Place, Opening, usize), ReadFault>
    ensures is { IfOk result (λ r. IsOpening (source_of reader.now) n r.2 r.0 (opening_of r.1)) }
    ensures after { IfOk result (λ r. n < r.2) }
{
    if let Some(k) = uses(reader, n, BLOCK_DO_OR_REPEAT) {
        let at = place(reader, k)?;
        let word = block_word(reader, n + 1)?;
        let (buffers, end) = buffers(alloc, reader, n + 2)?;
        return Ok((at, Opening::Plainly { word, buffers }, end));
    }
    let k = needs(reader, n, BLOCK_FOR)?;
    let at = place(reader, k)?;
    let which = fetch_word(reader, n + 1)?;
    let buffer = name(reader, k + 2)?;
    let (options, end) = record_options(alloc, reader, n + 2)?;
    let made = Opening::ForRecords {
        which,
        buffer,
        options,
    };
    Ok((at, made, end))
}

/// A block up to its statements, with the label before it.
pub(crate) fn head(
    alloc: Global,
    reader: &Reader<'_>,
    n: usize,
    label: Option<Word>,
) -> Result<(Head, usize), ReadFault>
    ensures is { IfOk result (λ r. IsHead (source_of reader.now) label n r.1 (head_of r.0)) }
    ensures after { IfOk result (λ r. n < r.1) }
    ensures within { IfOk result (λ r. n < length reader.now.nodes.now) }
{
    let (at, opening, header_at) = opening(alloc, reader, n)?;
    let k = needs(reader, header_at, HEADER_COUNTING)?;
    let (counting, phrases_at) = counting(alloc, reader, header_at + 1)?;
    let (phrases, end) = phrases(alloc, reader, phrases_at)?;
    let made = Head {
        label,
        at,
        opening,
        counting,
        phrases,
    };
    Ok((made, end))
}
