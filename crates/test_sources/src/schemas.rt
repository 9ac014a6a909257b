//! Schema files: each follows a line `== name`, and its meaning is written: its canonical text, or the
//! rule that it breaks and the line, as `F1 at line 1`. Where the name ends in `spelt`, the names, their
//! numbers and the masks of the fields follow; where it ends in `size`, the length of the canonical text
//! and its last line are written in its place.

mod answers;

use crate::lines::add_row;
use std::alloc::{AllocError, Global};

/// The schema file that is being read: its name, and its text so far.
#[derive(Drop)]
pub struct Schemas {
    file: Option<String>,
    text: Vec<u8>,
}

impl Schemas {
    /// No file has begun.
    pub fn new(alloc: Global) -> Schemas {
        Schemas {
            file: None,
            text: Vec::new(alloc),
        }
    }

    /// Takes a line, and returns what is written of the file that ends before it, if one does.
    pub fn line(&mut self, alloc: Global, row: &str) -> Result<String, AllocError> {
        match row.strip_prefix("== ") {
            None => {
                add_row(alloc, &mut self.text, row)?;
                Ok(String::new(alloc))
            }
            Some(next) => {
                let written = self.end(alloc)?;
                self.text.clear();
                self.file = Some(String::from_str(alloc, next)?);
                Ok(written)
            }
        }
    }

    /// What is written of the last file.
    pub fn end(&self, alloc: Global) -> Result<String, AllocError> {
        match &self.file {
            None => Ok(String::new(alloc)),
            Some(name) => {
                let answer = answers::answer(alloc, name.as_str(), self.text.as_slice())?;
                format!(in alloc; "== {name}\n{answer}\n")
            }
        }
    }
}
