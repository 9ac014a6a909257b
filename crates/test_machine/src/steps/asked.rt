//! The operation that a row requests.

use crate::steps::values::values_of;
use abl_base::{Items, RowId};
use database_protocol::{Cursor, Op};
use std::alloc::{AllocError, Global};

/// The operation of a verb and its argument, the text after it; None where the row has no meaning.
/// `found` is where the last search ended.
pub fn op_of(
    alloc: Global,
    verb: &str,
    argument: &str,
    found: &Option<Cursor>,
) -> Result<Option<Op>, AllocError> {
    let (word, rest) = argument.split_once(' ').unwrap_or((argument, ""));
    match verb {
        "leave" => Ok(Some(leave(alloc, argument)?)),
        "first" => search(alloc, word, rest, None, true),
        "last" => search(alloc, word, rest, None, false),
        "next" => search(alloc, word, rest, copied(found)?, true),
        "previous" => search(alloc, word, rest, copied(found)?, false),
        "insert" => insert(alloc, word, rest),
        "put" => put(alloc, word, rest),
        _ => Ok(without_memory(verb, word)),
    }
}

/// The operation of a verb whose argument is a row, a number, or nothing.
fn without_memory(verb: &str, word: &str) -> Option<Op> {
    match verb {
        "enter" => Some(Op::Enter),
        "end" => Some(Op::End),
        "share" => lock(word, false, true),
        "exclusive" => lock(word, true, true),
        "try-share" => lock(word, false, false),
        "try-exclusive" => lock(word, true, false),
        "get" | "delete" | "drop" => of_row(verb, word),
        _ => of_number(verb, word.parse::<u32>().ok()?),
    }
}

/// A row and its table: `8192` of table 0, `8195:1` of table 1.
fn place(word: &str) -> Option<(u16, RowId)> {
    let (row, table) = word.split_once(':').unwrap_or((word, "0"));
    let table = table.parse::<u16>().ok()?;
    let row = row.parse::<u32>().ok()?;
    Some((table, RowId(row)))
}

/// The operation of a verb with a row.
fn of_row(verb: &str, word: &str) -> Option<Op> {
    let (table, row) = place(word)?;
    match verb {
        "get" => Some(Op::Get { table, row }),
        "delete" => Some(Op::Delete { table, row }),
        _ => Some(Op::Drop { row }),
    }
}

/// A Lock of a row.
fn lock(word: &str, exclusive: bool, wait: bool) -> Option<Op> {
    let (table, row) = place(word)?;
    Some(Op::Lock {
        table,
        row,
        exclusive,
        wait,
    })
}

/// The operation of a verb with a number.
fn of_number(verb: &str, number: u32) -> Option<Op> {
    match verb {
        "back" => Some(Op::Back { depth: number }),
        "next-value" => Some(Op::NextValue {
            sequence: u16::try_from(number).ok()?,
        }),
        "current-value" => Some(Op::CurrentValue {
            sequence: u16::try_from(number).ok()?,
        }),
        _ => None,
    }
}

/// A Leave that keeps the locks on these rows.
fn leave(alloc: Global, rows: &str) -> Result<Op, AllocError> {
    let mut keep = Vec::new(alloc);
    for row in rows.split(' ') {
        if let Ok(row) = row.parse::<u32>() {
            keep.push(RowId(row))?;
        }
    }
    Ok(Op::Leave {
        keep: Items::from_vec(keep),
    })
}

/// A copy of a place.
fn copied(found: &Option<Cursor>) -> Result<Option<Cursor>, AllocError> {
    match found {
        Some(cursor) => Ok(Some(cursor.copy()?)),
        None => Ok(None),
    }
}

/// A Next in an order, `0.1` the index 1 of table 0, `0` its rows by identity, among the rows whose
/// leading index values are these.
fn search(
    alloc: Global,
    order: &str,
    values: &str,
    cursor: Option<Cursor>,
    forward: bool,
) -> Result<Option<Op>, AllocError> {
    let (table, index) = order.split_once('.').unwrap_or((order, ""));
    let Ok(table) = table.parse::<u16>() else {
        return Ok(None);
    };
    Ok(Some(Op::Next {
        table,
        index: index.parse::<u16>().ok(),
        prefix: values_of(alloc, values)?,
        cursor,
        forward,
    }))
}

/// An Insert into a table.
fn insert(alloc: Global, table: &str, values: &str) -> Result<Option<Op>, AllocError> {
    match table.parse::<u16>() {
        Ok(table) => Ok(Some(Op::Insert {
            table,
            values: values_of(alloc, values)?,
        })),
        Err(_) => Ok(None),
    }
}

/// A Put of a row.
fn put(alloc: Global, row: &str, values: &str) -> Result<Option<Op>, AllocError> {
    match place(row) {
        Some((table, row)) => Ok(Some(Op::Put {
            table,
            row,
            values: values_of(alloc, values)?,
        })),
        None => Ok(None),
    }
}
