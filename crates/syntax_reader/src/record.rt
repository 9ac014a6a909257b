//! Options of records.

ghost use Rattle.std.specs.Prelude.{◌≡◌, ◌<◌, IfOk, map};
ghost use Rattle.syntax_tree.specs.Typed.{record_option_of};
ghost use Rattle.syntax_reader.specs.Headers.{AreRecordOptions, IsRecordOption};
ghost use Rattle.syntax_reader.specs.Views.{source_of};

use crate::expression::expression;
use crate::nodes::{ReadFault, Reader, name, needs, place, uses};
use bound_tree::LockWanted;
use parse_tree::production::{
    RECORD_OPTION_EXCLUSIVE_LOCK, RECORD_OPTION_NO_LOCK, RECORD_OPTION_SHARE_LOCK,
    RECORD_OPTION_USE_INDEX, RECORD_OPTION_WHERE, RECORD_OPTIONS_NONE,
    RECORD_OPTIONS_RECORD_OPTION,
};
use std::alloc::Global;
use syntax_tree::RecordOption;

/// WHERE, USE-INDEX or a lock.
pub(crate) fn record_option(
    alloc: Global,
    reader: &Reader<'_>,
    n: usize,
) -> Result<(RecordOption, usize), ReadFault>
    ensures is { IfOk result (λ r. IsRecordOption (source_of reader.now) n r.1 (record_option_of r.0)) }
    ensures after { IfOk result (λ r. n < r.1) }
{
    if let Some(k) = uses(reader, n, RECORD_OPTION_WHERE) {
        let at = place(reader, k)?;
        let (test, end) = expression(alloc, reader, n + 1)?;
        return Ok((RecordOption::Where { at, test }, end));
    }
    if let Some(k) = uses(reader, n, RECORD_OPTION_USE_INDEX) {
        let at = place(reader, k)?;
        let index = name(reader, k + 1)?;
        return Ok((RecordOption::UseIndex { at, index }, n + 1));
    }
    lock(reader, n)
}

/// NO-LOCK, SHARE-LOCK or EXCLUSIVE-LOCK.
fn lock(reader: &Reader<'_>, n: usize) -> Result<(RecordOption, usize), ReadFault>
    ensures is { IfOk result (λ r. IsRecordOption (source_of reader.now) n r.1 (record_option_of r.0)) }
    ensures after { IfOk result (λ r. n < r.1) }
{
    if let Some(k) = uses(reader, n, RECORD_OPTION_NO_LOCK) {
        let at = place(reader, k)?;
        let lock = LockWanted::NoLock;
        return Ok((RecordOption::Lock { at, lock }, n + 1));
    }
    if let Some(k) = uses(reader, n, RECORD_OPTION_SHARE_LOCK) {
        let at = place(reader, k)?;
        let lock = LockWanted::Share;
        return Ok((RecordOption::Lock { at, lock }, n + 1));
    }
    let k = needs(reader, n, RECORD_OPTION_EXCLUSIVE_LOCK)?;
    let at = place(reader, k)?;
    let lock = LockWanted::Exclusive;
    Ok((RecordOption::Lock { at, lock }, n + 1))
}

/// The options of the record of a FOR.
pub(crate) fn record_options(
    alloc: Global,
    reader: &Reader<'_>,
    begun: usize,
) -> Result<(Vec<RecordOption>, usize), ReadFault>
    ensures is { IfOk result (λ r. AreRecordOptions (source_of reader.now) begun r.1 (map record_option_of r.0.items)) }
    ensures after { IfOk result (λ r. begun < r.1) }
{
    let mut found = Vec::new(alloc);
    let mut n = begun;
    while let Some(k) = uses(reader, n, RECORD_OPTIONS_RECORD_OPTION) {
        let (one, end) = record_option(alloc, reader, n + 1)?;
        found.push(one)?;
        n = end;
    }
    let k = needs(reader, n, RECORD_OPTIONS_NONE)?;
    Ok((found, n + 1))
}
