//! Keys of rows.

use abl_base::{Bytes, Items, Row, Value};
use abl_values::{IndexDef, KeyPart};
use row_keys::codec::{KeyFault, key, part};
use std::alloc::{AllocError, Global};
use test_words::{push_bytes, value_of};

/// The key bytes of a row of these values, each after `+` where its component of the index ascends
/// and after `-` where it descends. Where they are more than 99, their number.
pub fn key_answer(alloc: Global, words: &str) -> Result<String, AllocError> {
    let mut values = Vec::new(alloc);
    let mut parts = Vec::new(alloc);
    for (word, field) in words.split(' ').zip(0..) {
        let Some((descending, value)) = component(alloc, word)? else {
            return String::from_str(alloc, "no value");
        };
        values.push(value)?;
        parts.push(KeyPart { field, descending })?;
    }
    let def = IndexDef {
        name: Bytes::empty(alloc),
        unique: false,
        parts: Items::from_vec(parts),
    };
    match key(&def, &Row::from_vec(values)) {
        Ok(key) => shown(alloc, key.as_slice()),
        Err(KeyFault::TooLong) => String::from_str(alloc, "too long"),
        Err(KeyFault::NoMemory) => Err(AllocError),
    }
}

/// The bytes of one value as a component.
pub fn part_answer(alloc: Global, word: &str) -> Result<String, AllocError> {
    match component(alloc, word)? {
        Some((descending, value)) => shown(alloc, part(alloc, &value, descending)?.as_slice()),
        None => String::from_str(alloc, "no value"),
    }
}

/// Whether a component descends, and its value.
fn component(alloc: Global, word: &str) -> Result<Option<(bool, Value)>, AllocError> {
    let (descending, rest) = match (word.strip_prefix('-'), word.strip_prefix('+')) {
        (Some(rest), _) => (true, rest),
        (None, Some(rest)) => (false, rest),
        (None, None) => return Ok(None),
    };
    match value_of(alloc, rest)? {
        Some(value) => Ok(Some((descending, value))),
        None => Ok(None),
    }
}

/// The bytes, or how many they are.
fn shown(alloc: Global, bytes: &[u8]) -> Result<String, AllocError> {
    if bytes.len() > 99 {
        return format!(in alloc; "{} bytes", bytes.len());
    }
    let mut line = String::new(alloc);
    push_bytes(&mut line, bytes)?;
    Ok(line)
}
