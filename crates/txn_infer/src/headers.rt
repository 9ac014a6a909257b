//! What the header of a block says, and the flags that it gets.

ghost use Rattle.std.specs.Prelude.{◌≡◌};
ghost use Rattle.bound_tree.specs.Bound.{header_of, on_of, to_of, fetch_of};
ghost use Rattle.txn_infer.specs.Undo.{has_undo, is_do};
ghost use Rattle.txn_infer.specs.Updates.{block_updates};
ghost use Rattle.txn_infer.specs.Flags.{flags_where, header_with};
ghost use Rattle.txn_infer.specs.Retry.{block_names_retry, end_retry, fetch_retry, header_retry, on_retry, start_retry};

use crate::retry::{action_retry, asks_retry, maybe_retry, reading_retry};
use crate::updates::fetches_exclusively;
use bound_tree::{BlockKind, Fetch, Flags, Header, OnPhrase, ToPhrase};

/// What statements do, as the block around them sees it.
#[derive(Clone, Copy)]
pub struct Facts {
    /// One of them updates outside inner blocks that themselves start a transaction.
    pub updates: bool,
    /// One of them names RETRY outside inner blocks with the undo property.
    pub names_retry: bool,
}

/// Sets the flags of a block's header, where its statements do this, and returns what the whole
/// block does.
pub fn set_flags(header: &mut Header, inside: Facts) -> Facts
    ensures header { header_of header.new ≡ header_with (header_of header.old) (flags_where (header_of header.old) inside.updates inside.names_retry) }
    ensures updates { result.updates ≡ block_updates (header_of header.old) inside.updates }
    ensures names_retry { result.names_retry ≡ block_names_retry (header_of header.old) inside.names_retry }
{
    let undo = has_undo(header);
    let updates = fetches_exclusively(&header.fetch) || inside.updates;
    let starts = header.transaction || undo && updates;
    let retry_seen = header_retry(header) || inside.names_retry;
    header.flags = Flags {
        starts,
        undo,
        retry_seen,
    };
    Facts {
        updates: !starts && updates,
        names_retry: start_retry(&header.to) || !undo && retry_seen,
    }
}

/// Whether the block has the undo property.
fn has_undo(header: &Header) -> bool
    ensures { result ≡ has_undo (header_of header.now) }
{
    !is_do(header.kind)
        || header.transaction
        || header.on_error.is_some()
        || header.on_endkey.is_some()
}

/// Whether the kind is DO.
fn is_do(kind: BlockKind) -> bool
    ensures { result ≡ is_do kind }
{
    matches!(kind, BlockKind::Do)
}

/// Whether the header names the block's own RETRY.
fn header_retry(header: &Header) -> bool
    ensures { result ≡ header_retry (header_of header.now) }
{
    end_retry(&header.to)
        || maybe_retry(&header.while_test)
        || fetch_retry(&header.fetch)
        || on_retry(&header.on_error)
        || on_retry(&header.on_endkey)
}

/// Whether the first value of TO or BY names RETRY.
fn start_retry(to: &Option<ToPhrase>) -> bool
    ensures { result ≡ start_retry (to_of to.now) }
{
    match to {
        Some(to) => asks_retry(&to.start) || maybe_retry(&to.by),
        None => false,
    }
}

/// Whether the end value of TO names it.
fn end_retry(to: &Option<ToPhrase>) -> bool
    ensures { result ≡ end_retry (to_of to.now) }
{
    match to {
        Some(to) => asks_retry(&to.end),
        None => false,
    }
}

/// Whether the WHERE of a FOR names it.
fn fetch_retry(fetch: &Option<Fetch>) -> bool
    ensures { result ≡ fetch_retry (fetch_of fetch.now) }
{
    match fetch {
        Some(fetch) => reading_retry(&fetch.reading),
        None => false,
    }
}

/// Whether the RETURN of an ON phrase names it.
fn on_retry(on: &Option<OnPhrase>) -> bool
    ensures { result ≡ on_retry (on_of on.now) }
{
    match on {
        Some(on) => action_retry(&on.action),
        None => false,
    }
}
