//! Answers as words.

use abl_base::Value;
use abl_values::ArithFault;
use std::alloc::{AllocError, Global};
use std::cmp::Ordering;
use test_words::{push_bytes, word_of};

/// The word of an operator's answer.
pub fn answer(alloc: Global, answer: Result<Value, ArithFault>) -> Result<String, AllocError> {
    match answer {
        Ok(result) => word_of(alloc, &result),
        Err(ArithFault::Overflow) => String::from_str(alloc, "overflow"),
        Err(ArithFault::NoMemory) => Err(AllocError),
    }
}

/// The position of the first of two values relative to the second.
pub fn order(order: Ordering) -> &'static str {
    match order {
        Ordering::Less => "below",
        Ordering::Equal => "level",
        Ordering::Greater => "above",
    }
}

/// Bytes as a word.
pub fn text(alloc: Global, bytes: &[u8]) -> Result<String, AllocError> {
    let mut word = String::new(alloc);
    push_bytes(&mut word, bytes)?;
    Ok(word)
}
