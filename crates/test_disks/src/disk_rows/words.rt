//! The numbers of a row.

use std::alloc::{AllocError, Global};

/// The numbers among the words.
pub fn numbers(alloc: Global, words: &str) -> Result<Vec<u64>, AllocError> {
    let mut numbers = Vec::new(alloc);
    for word in words.split(' ') {
        if let Ok(number) = word.parse::<u64>() {
            numbers.push(number)?;
        }
    }
    Ok(numbers)
}

/// The number at a place, or 0.
pub fn number(numbers: &[u64], at: usize) -> u64 {
    if at < numbers.len() { numbers[at] } else { 0 }
}

/// The first word as a number, or 0, and the words after it.
pub fn split_number(words: &str) -> (u64, &str) {
    let (word, rest) = words.split_once(' ').unwrap_or((words, ""));
    (word.parse::<u64>().unwrap_or(0), rest)
}

/// The lowest byte of a number.
pub fn byte_of(number: u64) -> u8 {
    (number % 256) as u8
}

/// The lowest two bytes of a number.
pub fn u16_of(number: u64) -> u16 {
    (number % 65_536) as u16
}

/// The lowest four bytes of a number.
pub fn u32_of(number: u64) -> u32 {
    (number % 4_294_967_296) as u32
}

/// Whether the number is a multiple of `step`; none is of 0.
pub fn is_multiple(number: u64, step: u64) -> bool {
    if step == 0 {
        return false;
    }
    number % step == 0
}
