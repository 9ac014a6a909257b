//! Rows of calls on containers: `key +int:5 -yes` is answered with the key bytes of a row, and
//! `index enter:0:k:4:u keeper:k` with the answer of each step on an index that is empty at first.

mod entries;
mod keys;
mod steps;
mod words;

use std::alloc::{AllocError, Global};

/// The answer of a row: the name of a container and the steps, with a blank between.
pub fn answer(alloc: Global, row: &str) -> Result<String, AllocError> {
    match row.split_once(' ') {
        Some(("key", values)) => keys::key_answer(alloc, values),
        Some(("part", value)) => keys::part_answer(alloc, value),
        Some(("index", steps)) => steps::answers(alloc, steps),
        _ => String::from_str(alloc, "no row"),
    }
}
