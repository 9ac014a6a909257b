//! The words of a row, for programs that compute rows and write them with their answers: the value,
//! kind or bytes that a word denotes, and the word of a value or of bytes. It depends on `abl_base`.
//! No contract says what a word means: the rows of `test_values`, `test_values` and
//! `test_sources` show it.
#![tactic(auto)]

mod read;
mod written;

pub use read::{bytes_of, kind_of, value_of};
pub use written::{push_bytes, push_lines, word_of};
