//! How a row writes the bytes of files and streams.

use abl_base::{Bytes, Items};
use std::alloc::{AllocError, Global};

/// The most bytes of a stream that are written whole.
const MOST_SHOWN: usize = 400;

/// The bytes at each end of a longer one that are written.
const SHOWN_AT_ENDS: usize = 80;

/// The bytes that a row writes so: `|` is a line feed, `^` is 10,000 letters `x`, a backtick is `^`,
/// and `{N*TEXT}` is the text N times, where `@` is the number of the repetition, from 1.
pub fn text_of(alloc: Global, written: &str) -> Result<Bytes, AllocError> {
    let mut bytes = Vec::new(alloc);
    for (at, piece) in written.split('{').enumerate() {
        match piece.split_once('}') {
            Some((repeated, plain)) if at > 0 => {
                add_repeated(&mut bytes, alloc, repeated)?;
                add_text(&mut bytes, plain.as_bytes(), b"@")?;
            }
            _ => add_text(&mut bytes, piece.as_bytes(), b"@")?,
        }
    }
    Ok(Items::from_vec(bytes))
}

/// Adds the text of `N*TEXT`, which is N times TEXT.
fn add_repeated(bytes: &mut Vec<u8>, alloc: Global, repeated: &str) -> Result<(), AllocError> {
    let (count, text) = repeated.split_once('*').unwrap_or(("0", ""));
    let count = count.parse::<u32>().unwrap_or(0);
    for at in 0..count {
        let number = format!(in alloc; "{}", u64::from(at) + 1)?;
        add_text(bytes, text.as_bytes(), number.as_bytes())?;
    }
    Ok(())
}

/// Adds what the bytes of a row's text denote, with this number where it has `@`.
fn add_text(bytes: &mut Vec<u8>, text: &[u8], number: &[u8]) -> Result<(), AllocError> {
    for byte in text {
        match *byte {
            b'|' => bytes.push(b'\n')?,
            b'^' => bytes.extend_from_slice(&[b'x'; 10_000])?,
            b'`' => bytes.push(b'^')?,
            b'@' => bytes.extend_from_slice(number)?,
            _ => bytes.push(*byte)?,
        }
    }
    Ok(())
}

/// The bytes as a text, with `|` for a line feed.
pub fn whole(alloc: Global, bytes: &[u8]) -> Result<String, AllocError> {
    let mut text = String::new(alloc);
    add_shown(&mut text, bytes)?;
    Ok(text)
}

/// The bytes as a text, with `|` for a line feed. Of more than 400 bytes the first and the last 80
/// are written, and between them the number of all.
pub fn shown(alloc: Global, bytes: &[u8]) -> Result<String, AllocError> {
    if bytes.len() <= MOST_SHOWN {
        return whole(alloc, bytes);
    }
    let mut text = String::new(alloc);
    let (head, _) = bytes.split_at(SHOWN_AT_ENDS);
    let (_, tail) = bytes.split_at(bytes.len() - SHOWN_AT_ENDS);
    add_shown(&mut text, head)?;
    let length = format!(in alloc; "..{} bytes..", bytes.len())?;
    text.push_str(length.as_str())?;
    add_shown(&mut text, tail)?;
    Ok(text)
}

/// Adds the bytes, with `|` for a line feed.
fn add_shown(text: &mut String, bytes: &[u8]) -> Result<(), AllocError> {
    for byte in bytes {
        text.push(if *byte == b'\n' {
            '|'
        } else {
            char::from(*byte)
        })?;
    }
    Ok(())
}
