//! The answers of rows.

ghost use Rattle.std.specs.Prelude.{◌≤◌, length};

use crate::formats::shown;
use abl_base::{Items, Kind};
use std::alloc::{AllocError, Global};
use test_words::{bytes_of, kind_of, push_bytes, value_of};
use value_formats::{ImportFault, export_line, import_line, masked, number_in, plain};

/// The answer of a row: the name of a call and its arguments, with a blank between.
pub fn answer(alloc: Global, row: &str) -> Result<String, AllocError> {
    if let Some((call, arguments)) = row.split_once(' ') {
        if let Some(answer) = answer_of(alloc, call, arguments)? {
            return Ok(answer);
        }
    }
    String::from_str(alloc, "no row")
}

/// The answer of a call.
fn answer_of(alloc: Global, call: &str, arguments: &str) -> Result<Option<String>, AllocError> {
    match call {
        "put" => under(alloc, arguments),
        "plain" => plain_text(alloc, arguments),
        "number" => number(alloc, arguments),
        "export" => exported(alloc, arguments),
        "import" => imported(alloc, arguments),
        _ => Ok(None),
    }
}

/// What is written of a value under a mask.
fn under(alloc: Global, arguments: &str) -> Result<Option<String>, AllocError> {
    let Some((mask, word)) = arguments.split_once(' ') else {
        return Ok(None);
    };
    let mask = bytes_of(alloc, mask.as_bytes())?;
    match value_of(alloc, word)? {
        Some(value) => Ok(Some(text(alloc, masked(alloc, mask.as_slice(), &value)?.as_slice())?)),
        None => Ok(None),
    }
}

/// The plain text of a value.
fn plain_text(alloc: Global, word: &str) -> Result<Option<String>, AllocError> {
    match value_of(alloc, word)? {
        Some(value) => Ok(Some(text(alloc, plain(alloc, &value)?.as_slice())?)),
        None => Ok(None),
    }
}

/// The number that a text denotes, in units of 10^-10.
fn number(alloc: Global, word: &str) -> Result<Option<String>, AllocError> {
    match number_in(bytes_of(alloc, word.as_bytes())?.as_slice()) {
        Some(n) => Ok(Some(format!(in alloc; "{n}")?)),
        None => Ok(Some(String::from_str(alloc, "no number")?)),
    }
}

/// The line that EXPORT writes of values with blanks between.
fn exported(alloc: Global, arguments: &str) -> Result<Option<String>, AllocError> {
    let mut row = Vec::new(alloc);
    for word in arguments.split_whitespace() {
        match value_of(alloc, word)? {
            Some(value) => row.push(value)?,
            None => return Ok(None),
        }
    }
    Ok(Some(text(alloc, export_line(alloc, &Items::from_vec(row))?.as_slice())?))
}

/// What a line gives, from kinds with commas between, a place and the bytes of the input.
fn imported(alloc: Global, arguments: &str) -> Result<Option<String>, AllocError> {
    let Some((kinds, rest)) = arguments.split_once(' ') else {
        return Ok(None);
    };
    let Some((from, input)) = rest.split_once(' ') else {
        return Ok(None);
    };
    let kinds = kinds_of(alloc, kinds)?;
    let input = input_of(alloc, input)?;
    match from.parse::<usize>() {
        Ok(from) if from <= input.len() => {
            Ok(Some(line(alloc, input.as_slice(), from, kinds.as_slice())?))
        }
        _ => Ok(None),
    }
}

/// The bytes of an input: those of the word, or of `run:5` five letters `a`.
fn input_of(alloc: Global, word: &str) -> Result<Vec<u8>, AllocError> {
    if let Some(length) = word.strip_prefix("run:") {
        if let Ok(length) = length.parse::<u16>() {
            return vec![in alloc; b'a'; usize::from(length)];
        }
    }
    bytes_of(alloc, word.as_bytes())
}

/// The kinds of targets, without one for a word that names none.
fn kinds_of(alloc: Global, words: &str) -> Result<Vec<Option<Kind>>, AllocError> {
    let mut kinds = Vec::new(alloc);
    for word in words.split(',') {
        if word != "none" {
            kinds.push(kind_of(word))?;
        }
    }
    Ok(kinds)
}

/// What a line gives.
fn line(
    alloc: Global,
    input: &[u8],
    from: usize,
    kinds: &[Option<Kind>],
) -> Result<String, AllocError>
    requires { from ≤ length input.now }
{
    match import_line(alloc, input, from, kinds) {
        Ok(read) => shown::imported(alloc, &read),
        Err(ImportFault::AtEnd) => String::from_str(alloc, "end of input"),
        Err(ImportFault::BadField { number, next }) => {
            format!(in alloc; "element {number} is bad, next {next}")
        }
        Err(ImportFault::NoMemory) => Err(AllocError),
    }
}

/// Bytes as a word, and of more than 999 their number.
fn text(alloc: Global, bytes: &[u8]) -> Result<String, AllocError> {
    if bytes.len() > 999 {
        return format!(in alloc; "{} bytes", bytes.len());
    }
    let mut word = String::new(alloc);
    push_bytes(&mut word, bytes)?;
    Ok(word)
}
