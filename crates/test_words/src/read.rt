//! The value, the kind or the bytes that a word denotes.

ghost use Rattle.std.specs.Prelude.{◌<◌};

use abl_base::{Items, Kind, Value};
use std::alloc::{AllocError, Global};

/// The value that a word denotes: `?`, `yes`, `no`, or a kind and a number or a text, as `int:5`,
/// `dec:5` for five units of 10^-10, `date:5` for the day of that number, `text:a%20`, or `run:5`
/// for five letters `a`. `None` where it denotes none. Out of memory is the only error.
pub fn value_of(alloc: Global, word: &str) -> Result<Option<Value>, AllocError> {
    match word.split_once(':') {
        Some((kind, rest)) => value_of_kind(alloc, kind, rest),
        None => Ok(bare_value(word)),
    }
}

/// The value of a word without a kind.
fn bare_value(word: &str) -> Option<Value> {
    match word {
        "?" => Some(Value::Unknown),
        "yes" => Some(Value::Logical(true)),
        "no" => Some(Value::Logical(false)),
        _ => None,
    }
}

/// The value of a word with a kind.
fn value_of_kind(alloc: Global, kind: &str, rest: &str) -> Result<Option<Value>, AllocError> {
    match kind {
        "text" => Ok(Some(Value::Text(Items::from_vec(bytes_of(alloc, rest.as_bytes())?)))),
        "run" => run(alloc, rest),
        _ => Ok(number(kind, rest)),
    }
}

/// A text of this number of letters `a`.
fn run(alloc: Global, length: &str) -> Result<Option<Value>, AllocError> {
    match length.parse::<u16>() {
        Ok(length) => Ok(Some(Value::Text(Items::from_vec(vec![in alloc; b'a'; usize::from(
            length
        )]?)))),
        Err(_) => Ok(None),
    }
}

/// A number of a kind.
fn number(kind: &str, digits: &str) -> Option<Value> {
    match kind {
        "int" => Some(Value::Int(digits.parse::<i32>().ok()?)),
        "int64" => Some(Value::Int64(digits.parse::<i64>().ok()?)),
        "dec" => Some(Value::Dec(digits.parse::<i128>().ok()?)),
        "date" => Some(Value::Date(digits.parse::<i32>().ok()?)),
        _ => None,
    }
}

/// The kind with this name.
pub fn kind_of(name: &str) -> Option<Kind> {
    match name {
        "character" => Some(Kind::Character),
        "integer" => Some(Kind::Integer),
        "int64" => Some(Kind::Int64),
        "decimal" => Some(Kind::Decimal),
        "logical" => Some(Kind::Logical),
        "date" => Some(Kind::Date),
        _ => None,
    }
}

/// The bytes of a text, in which `%` and two digits denote the byte of that number in base 16.
pub fn bytes_of(alloc: Global, text: &[u8]) -> Result<Vec<u8>, AllocError> {
    let mut bytes = Vec::new(alloc);
    let mut rest = text;
    while let [first, tail @ ..] = rest {
        let (byte, next) = match tail {
            [high, low, next @ ..] if *first == b'%' => (16 * digit(*high) + digit(*low), next),
            _ => (*first, tail),
        };
        bytes.push(byte)?;
        rest = next;
    }
    Ok(bytes)
}

/// The number of a digit in base 16, and 0 of another byte.
fn digit(byte: u8) -> u8
    ensures { result < 16 }
{
    match byte {
        b'0'..=b'9' => byte - b'0',
        b'a'..=b'f' => byte - b'a' + 10,
        _ => 0,
    }
}
