//! The rows of a table as lines: `write_table`, over any store of rows and any output. It depends on
//! `row_store` for the search of rows and on `value_masks` for the line of a row. The layer above relies
//! on the exact text (`HasWritten` in specs/Calls.antt, over `AreAll` of specs/Order.antt).

pub mod writing;

pub use writing::{TableError, write_table};
