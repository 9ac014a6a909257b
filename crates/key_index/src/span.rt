//! The keys among which a search looks.

ghost use Rattle.std.specs.Prelude.{◌≡◌, ◌↔◌, ℕ, List, IsTrue, IfOk, MatchOption, true, false};
ghost use Rattle.std.specs.Option.{option_copied};
ghost use Rattle.key_index.specs.Search.{BeginsWith, IsKeyBefore, IsKeyBeyond};
ghost use Rattle.key_index.specs.Span.{IsBeforeEnd, IsFromStart, IsInOrder, IsNoSpan, IsSpan, StartsBefore};

use crate::prefix::after_prefix;
use database_protocol::Cursor;
use std::alloc::{AllocError, Global};
use std::ops::Bound;

/// The two ends of a range of keys.
pub(crate) type Ends = (Bound<Vec<u8>>, Bound<Vec<u8>>);

/// The ends of the keys that a search forward looks through; None where no key is left.
pub(crate) fn span_after(
    alloc: Global,
    cursor: Option<&Cursor>,
    prefix: &[u8],
) -> Result<Option<Ends>, AllocError>
    ensures { IfOk result (λ ends. MatchOption ends (IsNoSpan (option_copied cursor.entry) prefix.now true) (λ e. IsSpan (option_copied cursor.entry) prefix.now true e.0 e.1)) }
{
    let start = start_after(alloc, cursor, prefix)?;
    let end = after_prefix(alloc, prefix)?;
    Ok(in_order(start, end))
}

/// The ends of the keys that a search back looks through; None where no key is left.
pub(crate) fn span_before(
    alloc: Global,
    cursor: Option<&Cursor>,
    prefix: &[u8],
) -> Result<Option<Ends>, AllocError>
    ensures { IfOk result (λ ends. MatchOption ends (IsNoSpan (option_copied cursor.entry) prefix.now false) (λ e. IsSpan (option_copied cursor.entry) prefix.now false e.0 e.1)) }
{
    let start = Bound::Included(Vec::from_slice(alloc, prefix)?);
    let end = end_before(alloc, cursor, prefix)?;
    Ok(in_order(start, end))
}

/// Where the keys with the prefix begin that are beyond the cursor's.
fn start_after(
    alloc: Global,
    cursor: Option<&Cursor>,
    prefix: &[u8],
) -> Result<Bound<Vec<u8>>, AllocError>
    ensures covers { IfOk result (λ start. (key : List ℕ) → BeginsWith key prefix.now → IsKeyBeyond (option_copied cursor.entry) true key → IsFromStart start key) }
    ensures beyond { IfOk result (λ start. (key : List ℕ) → IsFromStart start key → IsKeyBeyond (option_copied cursor.entry) true key) }
{
    let Some(from) = cursor else {
        return Ok(Bound::Included(Vec::from_slice(alloc, prefix)?));
    };
    if is_before(from.key.as_slice(), prefix) {
        return Ok(Bound::Included(Vec::from_slice(alloc, prefix)?));
    }
    Ok(Bound::Excluded(Vec::from_slice(alloc, from.key.as_slice())?))
}

/// An end for the keys before the cursor's: every key with the prefix that precedes the cursor's key
/// precedes these bytes, and every key that precedes these bytes precedes the cursor's key.
fn end_before(
    alloc: Global,
    cursor: Option<&Cursor>,
    prefix: &[u8],
) -> Result<Option<Vec<u8>>, AllocError>
    ensures covers { IfOk result (λ end. (key : List ℕ) → BeginsWith key prefix.now → IsKeyBeyond (option_copied cursor.entry) false key → IsBeforeEnd end key) }
    ensures beyond { IfOk result (λ end. (key : List ℕ) → IsBeforeEnd end key → IsKeyBeyond (option_copied cursor.entry) false key) }
{
    let Some(from) = cursor else {
        return after_prefix(alloc, prefix);
    };
    let end = after_prefix(alloc, prefix)?;
    if is_past(&end, from.key.as_slice()) {
        return Ok(end);
    }
    Ok(Some(Vec::from_slice(alloc, from.key.as_slice())?))
}

/// The ends where some key may lie between them.
fn in_order(start: Bound<Vec<u8>>, end: Option<Vec<u8>>) -> Option<Ends>
    ensures { IsInOrder start end result }
{
    let Some(bytes) = end else {
        return Some((start, Bound::Unbounded));
    };
    if !starts_before(&start, bytes.as_slice()) {
        return None;
    }
    Some((start, Bound::Excluded(bytes)))
}

/// Whether the keys from the start on begin before these bytes.
fn starts_before(start: &Bound<Vec<u8>>, bytes: &[u8]) -> bool
    ensures { StartsBefore start.now bytes.now result }
{
    match start {
        Bound::Included(from) => is_before(from.as_slice(), bytes),
        Bound::Excluded(from) => is_before(from.as_slice(), bytes),
        Bound::Unbounded => true,
    }
}

/// Whether the key does not precede the end.
fn is_past(end: &Option<Vec<u8>>, key: &[u8]) -> bool
    ensures inside { result ≡ false → IsBeforeEnd end.now key.now }
    ensures past { IsTrue result → (other : List ℕ) → IsBeforeEnd end.now other → IsKeyBefore other key.now }
{
    match end {
        Some(bytes) => !is_before(key, bytes.as_slice()),
        None => false,
    }
}

/// Whether a key precedes another.
fn is_before(key: &[u8], other: &[u8]) -> bool
    ensures { IsTrue result ↔ IsKeyBefore key.now other.now }
{
    key.cmp(other).is_lt()
}
