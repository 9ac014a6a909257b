//! FIND, CREATE, DELETE and RELEASE.

ghost use Rattle.std.specs.Prelude.{◌≡◌, ◌<◌, IfOk, IfSome, length, map};
ghost use Rattle.syntax_tree.specs.Typed.{record_option_of, statement_of};
ghost use Rattle.syntax_reader.specs.Plain.{AreFindOptions, IsFindWhich, IsRecord, IsFindOption};
ghost use Rattle.syntax_reader.specs.Views.{source_of};

use crate::assignment::quiet;
use crate::nodes::{ReadFault, Reader, name, needs, place, uses};
use crate::record::record_option;
use parse_tree::production::{
    FIND_OPTIONS_NO_ERROR, FIND_OPTIONS_NO_WAIT, FIND_OPTIONS_NONE, FIND_OPTIONS_RECORD_OPTION,
    FIND_WHICH_CURRENT, FIND_WHICH_FIRST, FIND_WHICH_LAST, FIND_WHICH_NEXT, FIND_WHICH_NONE,
    FIND_WHICH_PREV, RECORD_FIND, RECORD_RECORD_VERB, RECORD_VERB_CREATE, RECORD_VERB_DELETE,
    RECORD_VERB_RELEASE,
};
use std::alloc::Global;
use syntax_tree::{FindWhich, RecordOption, Statement};

/// The keyword after FIND, and the number of the token after it.
fn find_which(reader: &Reader<'_>, n: usize) -> Result<(FindWhich, usize), ReadFault>
    ensures { IfOk result (λ r. IsFindWhich (source_of reader.now) n r.0 r.1) }
{
    if let Some(k) = uses(reader, n, FIND_WHICH_FIRST) {
        return Ok((FindWhich::First, k + 1));
    }
    if let Some(k) = uses(reader, n, FIND_WHICH_LAST) {
        return Ok((FindWhich::Last, k + 1));
    }
    if let Some(k) = uses(reader, n, FIND_WHICH_NEXT) {
        return Ok((FindWhich::Next, k + 1));
    }
    if let Some(k) = uses(reader, n, FIND_WHICH_PREV) {
        return Ok((FindWhich::Previous, k + 1));
    }
    if let Some(k) = uses(reader, n, FIND_WHICH_CURRENT) {
        return Ok((FindWhich::Current, k + 1));
    }
    let k = needs(reader, n, FIND_WHICH_NONE)?;
    Ok((FindWhich::Only, k))
}

/// An option of FIND.
fn find_option(
    alloc: Global,
    reader: &Reader<'_>,
    n: usize,
) -> Result<Option<(RecordOption, usize)>, ReadFault>
    ensures is { IfOk result (λ r. IfSome r (λ o. IsFindOption (source_of reader.now) n o.1 (record_option_of o.0))) }
    ensures after { IfOk result (λ r. IfSome r (λ o. n < o.1)) }
    ensures within { IfOk result (λ r. IfSome r (λ o. n < length reader.now.nodes.now)) }
{
    if let Some(k) = uses(reader, n, FIND_OPTIONS_RECORD_OPTION) {
        let (option, end) = record_option(alloc, reader, n + 1)?;
        return Ok(Some((option, end)));
    }
    if let Some(k) = uses(reader, n, FIND_OPTIONS_NO_WAIT) {
        let at = place(reader, k)?;
        return Ok(Some((RecordOption::NoWait { at }, n + 1)));
    }
    if let Some(k) = uses(reader, n, FIND_OPTIONS_NO_ERROR) {
        let at = place(reader, k)?;
        return Ok(Some((RecordOption::NoError { at }, n + 1)));
    }
    Ok(None)
}

/// The options of a FIND.
fn find_options(
    alloc: Global,
    reader: &Reader<'_>,
    begun: usize,
) -> Result<(Vec<RecordOption>, usize), ReadFault>
    ensures is { IfOk result (λ r. AreFindOptions (source_of reader.now) begun r.1 (map record_option_of r.0.items)) }
    ensures after { IfOk result (λ r. begun < r.1) }
{
    let mut found = Vec::new(alloc);
    let mut n = begun;
    while let Some((one, end)) = find_option(alloc, reader, n)? {
        found.push(one)?;
        n = end;
    }
    let k = needs(reader, n, FIND_OPTIONS_NONE)?;
    Ok((found, n + 1))
}

/// FIND, CREATE, DELETE or RELEASE.
pub(crate) fn record_statement(
    alloc: Global,
    reader: &Reader<'_>,
    n: usize,
) -> Result<(Statement, usize), ReadFault>
    ensures is { IfOk result (λ r. IsRecord (source_of reader.now) n r.1 (statement_of r.0)) }
    ensures after { IfOk result (λ r. n < r.1) }
{
    if let Some(k) = uses(reader, n, RECORD_FIND) {
        let (which, j) = find_which(reader, n + 1)?;
        let buffer = name(reader, j)?;
        let (options, end) = find_options(alloc, reader, n + 2)?;
        let made = Statement::Find {
            which,
            buffer,
            options,
        };
        return Ok((made, end));
    }
    record_verb(reader, n)
}

/// CREATE, DELETE or RELEASE.
fn record_verb(reader: &Reader<'_>, n: usize) -> Result<(Statement, usize), ReadFault>
    ensures is { IfOk result (λ r. IsRecord (source_of reader.now) n r.1 (statement_of r.0)) }
    ensures after { IfOk result (λ r. n < r.1) }
{
    let k = needs(reader, n, RECORD_RECORD_VERB)?;
    let buffer = name(reader, k + 1)?;
    let quiet = quiet(reader, n + 2)?;
    if let Some(j) = uses(reader, n + 1, RECORD_VERB_CREATE) {
        return Ok((Statement::Create { buffer, quiet }, n + 3));
    }
    if let Some(j) = uses(reader, n + 1, RECORD_VERB_DELETE) {
        return Ok((Statement::Delete { buffer, quiet }, n + 3));
    }
    let j = needs(reader, n + 1, RECORD_VERB_RELEASE)?;
    Ok((Statement::Release { buffer, quiet }, n + 3))
}
