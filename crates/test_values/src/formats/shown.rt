//! Answers as words.

use std::alloc::{AllocError, Global};
use test_words::word_of;
use value_formats::Imported;

/// What is written of a line that was read: a word for each target, `-` where it gets no value, and
/// where the next line begins.
pub fn imported(alloc: Global, read: &Imported) -> Result<String, AllocError> {
    let mut words = String::new(alloc);
    for got in read.values.as_slice() {
        match got {
            Some(got) => words.push_str(word_of(alloc, got)?.as_str())?,
            None => words.push('-')?,
        }
        words.push(' ')?;
    }
    words.push_str(format!(in alloc; "next {}", read.next)?.as_str())?;
    Ok(words)
}
