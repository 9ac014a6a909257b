//! Calls on an index where their conditions hold.

ghost use Rattle.std.specs.Prelude.{◌≡◌};

use abl_base::{Bytes, RowId};
use database_protocol::Cursor;
use key_index::Index;
use std::alloc::{AllocError, Global};

/// Enters where that is allowed.
pub fn enter(
    index: &mut Index,
    client: u16,
    key: &Bytes,
    row: u32,
    unique: bool,
) -> Result<bool, AllocError> {
    let free = index.may_enter(client, key, RowId(row));
    if !free {
        return Ok(false);
    }
    let unkept = index.may_keep(client, key);
    if !unkept {
        return Ok(false);
    }
    index.enter(client, key, RowId(row), unique)?;
    Ok(true)
}

/// Leaves where that is allowed.
pub fn leave(index: &mut Index, client: u16, key: &Bytes, row: u32, unique: bool) -> bool {
    let there = index.has_entry(key, RowId(row));
    if !there {
        return false;
    }
    let unkept = index.may_keep(client, key);
    if !unkept {
        return false;
    }
    index.leave(client, key, RowId(row), unique);
    true
}

/// Forgets where there is an entry.
pub fn forget(index: &mut Index, key: &Bytes, row: u32, keeper: Option<u16>) -> bool {
    let there = index.has_entry(key, RowId(row));
    if !there {
        return false;
    }
    index.forget(key, RowId(row), keeper);
    true
}

/// The key of a number: its digits, six at least.
fn numbered(alloc: Global, number: u32) -> Result<Bytes, AllocError> {
    let digits = format!(in alloc; "{number:06}")?;
    Bytes::of(alloc, digits.as_bytes())
}

/// Enters each row below a number under the key of its number. Returns how many were entered.
pub fn fill(
    alloc: Global,
    index: &mut Index,
    client: u16,
    rows: u32,
    unique: bool,
) -> Result<u32, AllocError> {
    let mut entered: u32 = 0;
    for row in 0..rows {
        let key = numbered(alloc, row)?;
        if enter(index, client, &key, row, unique)? {
            entered = entered.wrapping_add(1);
        }
    }
    Ok(entered)
}

/// Leaves each row below a number under the key of its number. Returns how many were left.
pub fn empty(
    alloc: Global,
    index: &mut Index,
    client: u16,
    rows: u32,
    unique: bool,
) -> Result<u32, AllocError> {
    let mut left: u32 = 0;
    for row in 0..rows {
        let key = numbered(alloc, row)?;
        if leave(index, client, &key, row, unique) {
            left = left.wrapping_add(1);
        }
    }
    Ok(left)
}

/// Goes over the entries whose keys begin with a prefix. Returns how many there are, and the last.
pub fn walk(
    index: &Index,
    prefix: &Bytes,
    forward: bool,
) -> Result<(u32, Option<Cursor>), AllocError> {
    let mut entries: u32 = 0;
    let mut cursor = None;
    for _ in 0..1_000_000 {
        match index.next(cursor.as_ref(), prefix, forward)? {
            Some(next) => cursor = Some(next),
            None => return Ok((entries, cursor)),
        }
        entries = entries.wrapping_add(1);
    }
    Ok((entries, cursor))
}
