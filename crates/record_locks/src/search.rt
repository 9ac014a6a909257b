//! Whose locks conflict with whose, and the search for a cycle of waiting clients.

ghost use Rattle.std.specs.Prelude.{◌≡◌, ◌≢◌, ◌↔◌, ◌<◌, ◌≤◌, ◌++◌, ◌∷◌, [], ℕ, Bool, List, length, true, false, IsTrue, IsSome, slice_index_or, OnOk, IfOk, MatchOption};
ghost use Rattle.std.specs.List.{Any, Contains};
ghost use Rattle.database_meaning.specs.Waiting.{Chain, IsCycleFrom, ListsAll, LocksConflict, WithAsked};
ghost use Rattle.record_locks.specs.Paths.{ArePaths, AreDone, Extends, IsFollowed, IsReached};
ghost use Rattle.record_locks.specs.Table.{lock_of, ConflictsOnLock, Waits, WaitsAgainst, WaitsForKey, WaitsForLock};

use crate::locks::{Client, KeyWait};
use abl_base::RowId;
use std::alloc::{AllocError, Global};

/// The client's lock on the row.
pub(crate) fn lock(table: &[Client], client: u16, row: RowId) -> Option<bool>
    ensures { result ≡ lock_of table.now client row.0 }
{
    let at = usize::from(client);
    if at >= table.len() {
        return None;
    }
    table[at].held.lock(row.0)
}

/// Whether a lock conflicts with a requested one.
fn locks_conflict(lock: Option<bool>, exclusive: bool) -> bool
    ensures { IsTrue result ↔ LocksConflict lock exclusive }
{
    match lock {
        None => false,
        Some(true) => true,
        Some(false) => exclusive,
    }
}

/// Whether the lock of another client conflicts with the lock that a client asks for.
fn conflicts_on_lock(table: &[Client], client: u16, row: RowId, exclusive: bool, other: u16) -> bool
    ensures { IsTrue result ↔ ConflictsOnLock table.now client row.0 exclusive other }
{
    if other == client {
        return false;
    }
    locks_conflict(lock(table, other, row), exclusive)
}

/// The clients whose locks conflict with the lock, ascending. An error means out of memory.
pub(crate) fn holders(
    alloc: Global,
    table: &[Client],
    client: u16,
    row: RowId,
    exclusive: bool,
) -> Result<Vec<u16>, AllocError>
    requires { length table.now ≤ 65536 }
    ensures { IfOk result (λ holders. ListsAll holders.items (ConflictsOnLock table.now client row.0 exclusive)) }
{
    let mut holders = Vec::new(alloc);
    for number in 0..table.len() {
        let other = number as u16;
        if conflicts_on_lock(table, client, row, exclusive, other) {
            holders.push(other)?;
        }
    }
    Ok(holders)
}

/// Whether a client waits for another by a lock.
fn waits_for_lock(table: &[Client], a: u16, b: u16) -> bool
    ensures { IsTrue result ↔ WaitsForLock table.now a b }
{
    let at = usize::from(a);
    if at >= table.len() {
        return false;
    }
    match table[at].blocked {
        Some(blocked) => conflicts_on_lock(table, a, blocked.row, blocked.exclusive, b),
        None => false,
    }
}

/// Whether the number is one of these.
fn contains(numbers: &[u16], number: u16) -> bool
    ensures { IsTrue result ↔ Contains numbers.now number }
{
    numbers.contains(&number)
}

/// Whether a client waits for another by a key.
fn waits_for_key(key_waits: &[KeyWait], a: u16, b: u16) -> bool
    ensures { IsTrue result ↔ WaitsForKey key_waits.now a b }
{
    key_waits.iter().any(|blocked| blocked.client == a && contains(blocked.holders.as_slice(), b))
}

/// Whether a client waits for another.
fn waits(table: &[Client], key_waits: &[KeyWait], a: u16, b: u16) -> bool
    ensures { IsTrue result ↔ Waits table.now key_waits.now a b }
{
    waits_for_lock(table, a, b) || waits_for_key(key_waits, a, b)
}

/// What a search for a cycle looks at: the clients, what they wait for by keys, and the client that
/// asks with those that conflict with it.
#[derive(Clone, Copy)]
pub(crate) struct Search<'a> {
    pub(crate) table: &'a [Client],
    pub(crate) key_waits: &'a [KeyWait],
    pub(crate) client: u16,
    pub(crate) against: &'a [u16],
}

/// Whether a client waits for another, where the one that asks counts as waiting for those that
/// conflict with it.
fn waits_with(search: Search<'_>, a: u16, b: u16) -> bool
    ensures { IsTrue result ↔ WaitsAgainst search.entry.table.now search.entry.key_waits.now search.entry.client search.entry.against.now a b }
{
    if a == search.client {
        return contains(search.against, b);
    }
    waits(search.table, search.key_waits, a, b)
}

/// A number above that of each client that waits.
fn bound(table: &[Client], key_waits: &[KeyWait]) -> usize
    requires { length table.now ≤ 65536 }
    ensures limit { result ≤ 65536 }
    ensures waiting { (a b : ℕ) → Waits table.now key_waits.now a b → a < result }
{
    let mut bound = table.len();
    for blocked in key_waits {
        let next = usize::from(blocked.client) + 1;
        if next > bound {
            bound = next;
        }
    }
    bound
}

/// A path of clients from the one that asks: each waits for the next, and the last is the end.
#[derive(Drop)]
pub(crate) struct Path {
    end: u16,
    way: Vec<u16>,
}

/// Whether one of the paths ends at the client.
fn is_reached(paths: &[Path], client: u16) -> bool
    ensures { IsTrue result ↔ IsReached paths.now client }
{
    for path in paths {
        if path.end == client {
            return true;
        }
    }
    false
}

/// The path of the client alone.
fn first_path(alloc: Global, client: u16) -> Result<Path, AllocError>
    ensures end { IfOk result (λ path. path.end ≡ client) }
    ensures way { IfOk result (λ path. path.way.items ≡ client ∷ []) }
{
    Ok(Path {
        end: client,
        way: Vec::from_slice(alloc, &[client])?,
    })
}

/// The path with one more client at its end.
fn longer_path(alloc: Global, path: &Path, client: u16) -> Result<Path, AllocError>
    ensures end { IfOk result (λ longer. longer.end ≡ client) }
    ensures way { IfOk result (λ longer. longer.way.items ≡ path.now.way.items ++ client ∷ []) }
{
    let mut way = Vec::from_slice(alloc, path.way.as_slice())?;
    way.push(client)?;
    Ok(Path { end: client, way })
}

/// Adds a path to each client that the end of a path waits for and that no path reached yet.
fn follow(
    alloc: Global,
    search: Search<'_>,
    bound: usize,
    paths: &mut Vec<Path>,
    at: usize,
) -> Result<(), AllocError>
    requires small { bound ≤ 65536 }
    requires inside { at < length paths.old.items }
    requires are { ArePaths (WaitsAgainst search.table.now search.key_waits.now search.client search.against.now) search.client paths.old.items }
    ensures are { OnOk result (ArePaths (WaitsAgainst search.entry.table.now search.entry.key_waits.now search.entry.client search.entry.against.now) search.entry.client paths.new.items) }
    ensures longer { OnOk result (Extends paths.old.items paths.new.items) }
    ensures followed { OnOk result ((d : Path) → IsFollowed (WaitsAgainst search.entry.table.now search.entry.key_waits.now search.entry.client search.entry.against.now) bound paths.new.items (slice_index_or paths.old.items at d).end) }
{
    let end = paths[at].end;
    for number in 0..bound {
        let next = number as u16;
        if waits_with(search, end, next) && !is_reached(paths.as_slice(), next) {
            let path = longer_path(alloc, &paths[at], next)?;
            paths.push(path)?;
        }
    }
    Ok(())
}

/// A cycle that begins with the client that asks; None where there is none. Its clients all differ.
/// Each waits for the next, and the last for the first. An error means out of memory. Each client is
/// visited once.
pub(crate) fn find_cycle(alloc: Global, search: Search<'_>) -> Result<Option<Vec<u16>>, AllocError>
    requires { length search.table.now ≤ 65536 }
    ensures { IfOk result (λ found. MatchOption found ((others : List ℕ) → ¬ Chain (WaitsAgainst search.entry.table.now search.entry.key_waits.now search.entry.client search.entry.against.now) search.entry.client others search.entry.client)
        (λ cycle. IsCycleFrom (WaitsAgainst search.entry.table.now search.entry.key_waits.now search.entry.client search.entry.against.now) search.entry.client cycle.items)) }
{
    let bound = bound(search.table, search.key_waits);
    let mut paths = Vec::new(alloc);
    let first = first_path(alloc, search.client)?;
    paths.push(first)?;
    for at in 0..usize::MAX {
        if at >= paths.len() {
            return Ok(None);
        }
        if waits_with(search, paths[at].end, search.client) {
            let way = Vec::from_slice(alloc, paths[at].way.as_slice())?;
            return Ok(Some(way));
        }
        follow(alloc, search, bound, &mut paths, at)?;
    }
    Ok(None)
}
