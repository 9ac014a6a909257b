//! Sources that are bound over a schema. A line `== schema types` or `== schema scopes` begins a
//! schema file; each other line `== name` begins a source, which is read against the last schema.
//! `sections` says what is written of it.

mod sections;

use sections::{Section, answer_in};
use std::alloc::{AllocError, Global};

/// The schema, and the file or source that is being read: its name, and its text so far.
#[derive(Drop)]
pub struct Bindings {
    section: Option<Section>,
    name: String,
    text: Vec<u8>,
}

impl Bindings {
    /// Nothing has begun.
    pub fn new(alloc: Global) -> Bindings {
        Bindings {
            section: None,
            name: String::new(alloc),
            text: Vec::new(alloc),
        }
    }

    /// Takes a line, and returns what is written of the source that ends before it, if one does.
    pub fn line(&mut self, alloc: Global, row: &str) -> Result<String, AllocError> {
        match row.strip_prefix("== ") {
            None => {
                self.text.extend_from_slice(row.as_bytes())?;
                self.text.push(b'\n')?;
                Ok(String::new(alloc))
            }
            Some(next) => {
                let written = self.end(alloc)?;
                self.text.clear();
                self.name = String::from_str(alloc, next)?;
                Ok(written)
            }
        }
    }

    /// What is written of the last source.
    pub fn end(&mut self, alloc: Global) -> Result<String, AllocError> {
        let name = self.name.as_str();
        match answer_in(alloc, &mut self.section, name, self.text.as_slice())? {
            Some(answer) => format!(in alloc; "== {name}\n{answer}"),
            None => Ok(String::new(alloc)),
        }
    }
}
