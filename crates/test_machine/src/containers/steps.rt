//! Steps on an index.

use crate::containers::entries::{empty, enter, fill, forget, leave, walk};
use crate::containers::words::{Words, done, place, yes_or_no};
use abl_base::RowId;
use database_protocol::Cursor;
use key_index::Index;
use std::alloc::{AllocError, Global};

/// The answers of the steps in turn, on an index with no entry.
pub fn answers(alloc: Global, steps: &str) -> Result<String, AllocError> {
    let mut index = Index::new(alloc);
    let mut line = String::new(alloc);
    for step in steps.split(' ') {
        if !line.is_empty() {
            line.push(' ')?;
        }
        let words = Words::of(alloc, step)?;
        let answer = answer(alloc, &mut index, &words)?;
        line.push_str(answer.as_str())?;
    }
    Ok(line)
}

/// The answer of a step that may change the index.
fn answer(alloc: Global, index: &mut Index, words: &Words) -> Result<String, AllocError> {
    match words.word(0) {
        "enter" => entered(alloc, index, words),
        "leave" => left(alloc, index, words),
        "forget" => forgotten(alloc, index, words),
        "fill" => {
            let rows = fill(
                alloc,
                index,
                words.client(1),
                words.number(2),
                words.is_unique(3),
            )?;
            format!(in alloc; "{rows}")
        }
        "empty" => {
            let rows = empty(
                alloc,
                index,
                words.client(1),
                words.number(2),
                words.is_unique(3),
            )?;
            format!(in alloc; "{rows}")
        }
        "end" => {
            index.end(words.client(1));
            done(alloc, true)
        }
        _ => question(alloc, index, words),
    }
}

/// `enter:CLIENT:KEY:ROW`, with `:u` for a unique key.
fn entered(alloc: Global, index: &mut Index, words: &Words) -> Result<String, AllocError> {
    let key = words.bytes(alloc, 2)?;
    let entered = enter(
        index,
        words.client(1),
        &key,
        words.number(3),
        words.is_unique(4),
    )?;
    done(alloc, entered)
}

/// `leave:CLIENT:KEY:ROW`, with `:u` for a unique key.
fn left(alloc: Global, index: &mut Index, words: &Words) -> Result<String, AllocError> {
    let key = words.bytes(alloc, 2)?;
    let left = leave(
        index,
        words.client(1),
        &key,
        words.number(3),
        words.is_unique(4),
    );
    done(alloc, left)
}

/// `forget:KEY:ROW`, with `:CLIENT` where a client is to keep the key.
fn forgotten(alloc: Global, index: &mut Index, words: &Words) -> Result<String, AllocError> {
    let key = words.bytes(alloc, 1)?;
    let forgotten = forget(index, &key, words.number(2), words.keeper(3));
    done(alloc, forgotten)
}

/// The answer of a question.
fn question(alloc: Global, index: &Index, words: &Words) -> Result<String, AllocError> {
    match words.word(0) {
        "may" => {
            let key = words.bytes(alloc, 2)?;
            yes_or_no(
                alloc,
                index.may_enter(words.client(1), &key, RowId(words.number(3))),
            )
        }
        "keep" => {
            let key = words.bytes(alloc, 2)?;
            yes_or_no(alloc, index.may_keep(words.client(1), &key))
        }
        "has" => {
            let key = words.bytes(alloc, 1)?;
            yes_or_no(alloc, index.has_entry(&key, RowId(words.number(2))))
        }
        "keeps" => yes_or_no(alloc, index.keeps(words.client(1))),
        "keeper" => kept_by(alloc, index, words),
        _ => search(alloc, index, words),
    }
}

/// The client that keeps a key, or `none`.
fn kept_by(alloc: Global, index: &Index, words: &Words) -> Result<String, AllocError> {
    let key = words.bytes(alloc, 1)?;
    match index.keeper(&key) {
        Some(client) => format!(in alloc; "{client}"),
        None => String::from_str(alloc, "none"),
    }
}

/// The answer of a search: `first:PREFIX`, `last:PREFIX`, `next:KEY:ROW:PREFIX`,
/// `prev:KEY:ROW:PREFIX`, and `walk:PREFIX` or `back:PREFIX` for how many entries are found in turn
/// and the last of them.
fn search(alloc: Global, index: &Index, words: &Words) -> Result<String, AllocError> {
    match words.word(0) {
        "first" => end_found(alloc, index, words, true),
        "last" => end_found(alloc, index, words, false),
        "next" => beside_found(alloc, index, words, true),
        "prev" => beside_found(alloc, index, words, false),
        "walk" => walked(alloc, index, words, true),
        "back" => walked(alloc, index, words, false),
        _ => String::from_str(alloc, "no step"),
    }
}

/// The first or the last entry with a prefix.
fn end_found(
    alloc: Global,
    index: &Index,
    words: &Words,
    forward: bool,
) -> Result<String, AllocError> {
    let prefix = words.bytes(alloc, 1)?;
    let found = index.next(None, &prefix, forward)?;
    place(alloc, found.as_ref())
}

/// The entry with a prefix that is next to a place.
fn beside_found(
    alloc: Global,
    index: &Index,
    words: &Words,
    forward: bool,
) -> Result<String, AllocError> {
    let cursor = Cursor {
        key: words.bytes(alloc, 1)?,
        row: RowId(words.number(2)),
    };
    let prefix = words.bytes(alloc, 3)?;
    let found = index.next(Some(&cursor), &prefix, forward)?;
    place(alloc, found.as_ref())
}

/// How many entries are found in turn, and the last.
fn walked(
    alloc: Global,
    index: &Index,
    words: &Words,
    forward: bool,
) -> Result<String, AllocError> {
    let prefix = words.bytes(alloc, 1)?;
    let (entries, last) = walk(index, &prefix, forward)?;
    let last = place(alloc, last.as_ref())?;
    format!(in alloc; "{entries}/{last}")
}
