//! Lines and columns.

ghost use Rattle.std.specs.Prelude.{◌≡◌, ◌+◌, ◌<◌, ◌≤◌, ◌^◌, IfOk, length, slice_get, unwrap_or};
ghost use Rattle.preprocessor.specs.Places.{line_starts, moved, offset_of, past, start};

use abl_base::{Items, Place};
use std::alloc::{AllocError, Global};

/// The place of the first byte of a text.
pub fn start() -> Place
    ensures { result ≡ start }
{
    Place { line: 1, column: 1 }
}

/// The place after this byte.
pub fn moved(place: Place, byte: u8) -> Place
    requires line { place.line < 2 ^ 31 }
    requires column { place.column < 2 ^ 31 }
    ensures is { result ≡ moved place byte }
    ensures down { result.line ≤ place.line + 1 }
    ensures along { result.column ≤ place.column + 1 }
{
    if byte == b'\n' {
        Place {
            line: place.line + 1,
            column: 1,
        }
    } else {
        Place {
            line: place.line,
            column: place.column + 1,
        }
    }
}

/// The place after these bytes.
pub fn past(place: Place, bytes: &[u8]) -> Place
    requires line { place.line + length bytes.now < 2 ^ 31 }
    requires column { place.column + length bytes.now < 2 ^ 31 }
    ensures is { result ≡ past place bytes.now }
    ensures down { result.line ≤ place.line + length bytes.now }
    ensures along { result.column ≤ place.column + length bytes.now }
{
    let mut here = place;
    let mut rest = bytes;
    while let [first, tail @ ..] = rest {
        here = moved(here, *first);
        rest = tail;
    }
    here
}

/// The offsets at which the lines of a text begin. Out of memory is the only error.
#[tactic(auto, using(crate::proofs::Lines::one_start, crate::proofs::Lines::no_start))]
pub fn line_starts(alloc: Global, bytes: &[u8]) -> Result<Items<usize>, AllocError>
    ensures { IfOk result (λ starts. starts ≡ line_starts bytes.now) }
{
    let mut starts: Items<usize> = Items::empty(alloc);
    starts.push(0)?;
    let mut n: usize = 0;
    let mut rest = bytes;
    while let [first, tail @ ..] = rest {
        n += 1;
        if *first == b'\n' {
            starts.push(n)?;
        }
        rest = tail;
    }
    Ok(starts)
}

// Where this line begins, which counts from 0, or the text's length.
fn start_or(starts: &[usize], line: usize, total: usize) -> usize
    ensures { result ≡ unwrap_or (slice_get starts.now line) total }
{
    match starts.get(line) {
        Some(start) => *start,
        None => total,
    }
}

// The offset of the column in the line from `start` up to `end`, or the text's length where the line
// does not have it.
fn in_line(total: usize, start: usize, end: usize, column: usize) -> usize
    requires { 0 < column }
    ensures there { start + column ≤ end → result + 1 ≡ start + column }
    ensures past { end < start + column → result ≡ total }
{
    if column > end.saturating_sub(start) {
        return total;
    }
    start + (column - 1)
}

/// The offset of the first byte at this place of the text, whose lines begin at these offsets, or
/// the text's length where no byte is there. It takes the same time at each place.
pub fn offset_of(bytes: &[u8], starts: &[usize], place: Place) -> usize
    requires { starts.now ≡ line_starts bytes.now }
    ensures { result ≡ offset_of bytes.now place }
{
    let total = bytes.len();
    let line = place.line as usize;
    let column = place.column as usize;
    if line == 0 {
        return total;
    }
    if column == 0 {
        return total;
    }
    match starts.get(line - 1) {
        Some(start) => in_line(total, *start, start_or(starts, line, total), column),
        None => total,
    }
}
