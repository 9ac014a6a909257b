//! The lines of a program of rows.

use crate::commands::answer;
use std::alloc::{AllocError, Global};
use std::sync::Wait;
use std::thread::Threads;

/// What is kept from line to line: the schema file of the rows that have none of their own.
#[derive(Drop)]
pub struct Lines {
    alloc: Global,
    schema: String,
}

impl Lines {
    /// Before the first line: no schema file.
    pub fn new(alloc: Global) -> Lines {
        Lines {
            alloc,
            schema: String::new(alloc),
        }
    }

    /// The line as the program writes it: a row with its answer, after a tab. A line that begins with
    /// `#` is a heading, and one that begins with `= ` has the schema file of the rows after it that
    /// have none: both are written as they are. Out of memory is the only error.
    pub fn answered<R: Threads + Wait + Sync>(
        &mut self,
        rt: &R,
        line: &str,
    ) -> Result<String, AllocError> {
        if line.starts_with('#') {
            return String::from_str(self.alloc, line);
        }
        if let Some(schema) = line.strip_prefix("= ") {
            self.schema = String::from_str(self.alloc, schema)?;
            return String::from_str(self.alloc, line);
        }
        let answer = answer(rt, self.alloc, line, self.schema.as_str())?;
        format!(in self.alloc; "{line}\t{answer}")
    }
}
