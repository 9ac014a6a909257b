//! Values in rows: `5` an INTEGER, `$5` a DECIMAL, `?` unknown, and any other word a CHARACTER.

use abl_base::{Items, Row, Value};
use std::alloc::{AllocError, Global};

/// What a DECIMAL of 1 is stored as.
const ONE: i128 = 10_000_000_000;

/// A text of more bytes than this is written as its number of bytes.
const SHORT: usize = 8;

/// The values of the words, with a blank between.
pub fn values_of(alloc: Global, words: &str) -> Result<Row, AllocError> {
    let mut values = Vec::new(alloc);
    if words.is_empty() {
        return Ok(Items::from_vec(values));
    }
    for word in words.split(' ') {
        values.push(value_of(alloc, word)?)?;
    }
    Ok(Items::from_vec(values))
}

/// The value of a word.
fn value_of(alloc: Global, word: &str) -> Result<Value, AllocError> {
    if word == "?" {
        return Ok(Value::Unknown);
    }
    if let Ok(number) = word.parse::<i32>() {
        return Ok(Value::Int(number));
    }
    if let Some(number) = word.strip_prefix('$')
        && let Ok(number) = number.parse::<i32>()
    {
        return Ok(Value::Dec(i128::from(number) * ONE));
    }
    Ok(Value::Text(Items::from_vec(text_of(alloc, word)?)))
}

/// The bytes of a text: parts with `+` between, each as it is, or `a*197` for so many letters; `_` is a
/// blank.
fn text_of(alloc: Global, word: &str) -> Result<Vec<u8>, AllocError> {
    let mut text = Vec::new(alloc);
    for part in word.split('+') {
        let (letters, count) = match part.split_once('*') {
            Some((letters, count)) => (letters, count.parse::<u16>().unwrap_or(1)),
            None => (part, 1),
        };
        for _ in 0..count {
            for byte in letters.bytes() {
                text.push(if byte == b'_' { b' ' } else { byte })?;
            }
        }
    }
    Ok(text)
}

/// A name and values after it.
pub fn with_values(alloc: Global, name: &str, values: &[Value]) -> Result<String, AllocError> {
    let mut text = String::from_str(alloc, name)?;
    for value in values {
        let next = value_text(alloc, value)?;
        text.push_str(" ")?;
        text.push_str(next.as_str())?;
    }
    Ok(text)
}

/// A value as a row writes it.
fn value_text(alloc: Global, value: &Value) -> Result<String, AllocError> {
    match value {
        Value::Unknown => String::from_str(alloc, "?"),
        Value::Int(number) => format!(in alloc; "{number}"),
        Value::Dec(number) => format!(in alloc; "${}", *number / ONE),
        Value::Text(text) => short_text(alloc, text.as_slice()),
        _ => String::from_str(alloc, "another value"),
    }
}

/// A text, or how many bytes it has.
fn short_text(alloc: Global, text: &[u8]) -> Result<String, AllocError> {
    match str::from_utf8(text) {
        Ok(short) if text.len() <= SHORT => String::from_str(alloc, short),
        _ => format!(in alloc; "*{}", text.len()),
    }
}
