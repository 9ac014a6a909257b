//! Lines of a text, from the rows of the input.

use std::alloc::{AllocError, Global};
use test_words::bytes_of;

/// Adds the lines of a row. `%` and two digits in base 16 denote a byte, and `%-` at the end omits
/// the line feed. A row `%*3 x` denotes three lines: `x` followed by 0, 1 and 2, where a `#` in it
/// marks the place of the number.
pub fn add_row(alloc: Global, text: &mut Vec<u8>, row: &str) -> Result<(), AllocError> {
    if let Some(repeated) = row.strip_prefix("%*") {
        if let Some((count, line)) = repeated.split_once(' ') {
            if let Ok(count) = count.parse::<u16>() {
                return add_numbered(alloc, text, count, line);
            }
        }
    }
    match row.strip_suffix("%-") {
        Some(shown) => add_bytes(alloc, text, shown),
        None => {
            add_bytes(alloc, text, row)?;
            text.push(b'\n')?;
            Ok(())
        }
    }
}

/// Adds numbered lines.
fn add_numbered(
    alloc: Global,
    text: &mut Vec<u8>,
    count: u16,
    line: &str,
) -> Result<(), AllocError> {
    for number in 0..count {
        match line.split_once('#') {
            Some((before, after)) => {
                let numbered = format!(in alloc; "{before}{number}{after}")?;
                add_bytes(alloc, text, numbered.as_str())?;
            }
            None => add_bytes(alloc, text, line)?,
        }
        text.push(b'\n')?;
    }
    Ok(())
}

/// Adds the bytes that a row denotes.
fn add_bytes(alloc: Global, text: &mut Vec<u8>, row: &str) -> Result<(), AllocError> {
    text.extend_from_slice(bytes_of(alloc, row.as_bytes())?.as_slice())
}
