//! The source that a row shows.

use std::alloc::{AllocError, Global};
use test_words::bytes_of;

/// The bytes of a source: `%` and two digits in base 16 are the byte of that number, and `{3|x}` is
/// `xxx`. A repetition that is not of this form is empty.
pub fn source_of(alloc: Global, shown: &str) -> Result<Vec<u8>, AllocError> {
    let mut source = Vec::new(alloc);
    for piece in shown.split('{') {
        match piece.split_once('}') {
            Some((repeated, after)) => {
                add_repeated(alloc, &mut source, repeated)?;
                add(alloc, &mut source, after, 1)?;
            }
            None => add(alloc, &mut source, piece, 1)?,
        }
    }
    Ok(source)
}

/// Adds a text as often as the number before its `|` says.
fn add_repeated(alloc: Global, source: &mut Vec<u8>, repeated: &str) -> Result<(), AllocError> {
    let Some((times, text)) = repeated.split_once('|') else {
        return Ok(());
    };
    match times.parse::<u32>() {
        Ok(times) => add(alloc, source, text, times),
        Err(_) => Ok(()),
    }
}

/// Adds the bytes that a text shows, a number of times.
fn add(alloc: Global, source: &mut Vec<u8>, shown: &str, times: u32) -> Result<(), AllocError> {
    let bytes = bytes_of(alloc, shown.as_bytes())?;
    for _ in 0..times {
        source.extend_from_slice(bytes.as_slice())?;
    }
    Ok(())
}
