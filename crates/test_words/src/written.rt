//! The word that is written for a value or for bytes.

ghost use Rattle.std.specs.Prelude.{◌<◌};

use abl_base::Value;
use std::alloc::{AllocError, Global};

/// The word of a value. The word of a text of more than 99 bytes gives only its length. Out of memory
/// is the only error.
pub fn word_of(alloc: Global, value: &Value) -> Result<String, AllocError> {
    match value {
        Value::Text(text) => text_word(alloc, text.as_slice()),
        Value::Int(n) => format!(in alloc; "int:{n}"),
        Value::Int64(n) => format!(in alloc; "int64:{n}"),
        Value::Dec(n) => format!(in alloc; "dec:{n}"),
        Value::Logical(true) => String::from_str(alloc, "yes"),
        Value::Logical(false) => String::from_str(alloc, "no"),
        Value::Date(day) => format!(in alloc; "date:{day}"),
        Value::Unknown => String::from_str(alloc, "?"),
    }
}

/// The word of a text.
fn text_word(alloc: Global, text: &[u8]) -> Result<String, AllocError> {
    if text.len() > 99 {
        return format!(in alloc; "text of {} bytes", text.len());
    }
    let mut word = String::from_str(alloc, "text:")?;
    push_bytes(&mut word, text)?;
    Ok(word)
}

/// Writes bytes as a word: `%` and two digits in base 16 for each that is no graphic character.
pub fn push_bytes(word: &mut String, bytes: &[u8]) -> Result<(), AllocError> {
    for byte in bytes {
        push_byte(word, *byte)?;
    }
    Ok(())
}

/// Writes bytes as lines: as `push_bytes`, but with each blank and line feed as it is.
pub fn push_lines(lines: &mut String, bytes: &[u8]) -> Result<(), AllocError> {
    for byte in bytes {
        if *byte == b' ' || *byte == b'\n' {
            lines.push(char::from(*byte))?;
        } else {
            push_byte(lines, *byte)?;
        }
    }
    Ok(())
}

/// Writes a byte of a word.
fn push_byte(word: &mut String, byte: u8) -> Result<(), AllocError> {
    if byte.is_ascii_graphic() && byte != b'%' {
        word.push(char::from(byte))
    } else {
        word.push('%')?;
        word.push(digit(byte / 16))?;
        word.push(digit(byte % 16))
    }
}

/// The digit of a number below 16.
fn digit(n: u8) -> char
    requires { n < 16 }
{
    char::from(if n < 10 { b'0' + n } else { b'a' + (n - 10) })
}
