//! Expansions: a line `== name` begins a row, and a line `-- FILE` one of its texts, the source first.
//! What the source expands to is written, or the rule that it breaks with the file and the place, as
//! `E1 at a.p:1:5`, or the file that it needs. Where the name of the row ends in `places`, the pieces of
//! the expansion are written with their origins; where it ends in `size`, its length and the last origin;
//! where it ends in `judged`, `ok`, or the first rule that the source breaks, over the schema file that
//! the row `schema` has.

mod answers;

use crate::lines::add_row;
use abl_base::Items;
use abl_values::Schema;
use preprocessor::NamedText;
use schema_reader::read_df;
use std::alloc::{AllocError, Global};
use test_words::bytes_of;

/// The schema of the rows, and the row that is being read: its name, and its texts so far.
#[derive(Drop)]
pub struct Expansions {
    schema: Option<Schema>,
    name: Option<String>,
    texts: Vec<NamedText>,
}

impl Expansions {
    /// No row has begun.
    pub fn new(alloc: Global) -> Expansions {
        Expansions {
            schema: None,
            name: None,
            texts: Vec::new(alloc),
        }
    }

    /// Takes a line, and returns what is written of the row that ends before it, if one does.
    pub fn line(&mut self, alloc: Global, row: &str) -> Result<String, AllocError> {
        if let Some(next) = row.strip_prefix("== ") {
            let written = self.end(alloc)?;
            self.texts.clear();
            self.name = Some(String::from_str(alloc, next)?);
            return Ok(written);
        }
        match row.strip_prefix("-- ") {
            Some(file) => self.begin_text(alloc, file)?,
            None => self.add(alloc, row)?,
        }
        Ok(String::new(alloc))
    }

    /// Begins a text of this name.
    fn begin_text(&mut self, alloc: Global, file: &str) -> Result<(), AllocError> {
        self.texts.push(NamedText {
            name: Items::from_vec(bytes_of(alloc, file.as_bytes())?),
            bytes: Items::empty(alloc),
        })?;
        Ok(())
    }

    /// Adds the lines of a row to the last text.
    fn add(&mut self, alloc: Global, row: &str) -> Result<(), AllocError> {
        let mut bytes = Vec::new(alloc);
        add_row(alloc, &mut bytes, row)?;
        match self.texts.last_mut() {
            Some(text) => text.bytes.extend_from_slice(bytes.as_slice()),
            None => Ok(()),
        }
    }

    /// What is written of the last row. The row `schema` has the schema of those after it, and nothing is
    /// written of it.
    pub fn end(&mut self, alloc: Global) -> Result<String, AllocError> {
        let Some(name) = &self.name else {
            return Ok(String::new(alloc));
        };
        let texts = self.texts.as_slice();
        if name.as_str() == "schema" {
            self.schema = match texts {
                [text, ..] => read_df(alloc, text.bytes.as_slice()).ok(),
                [] => None,
            };
            return Ok(String::new(alloc));
        }
        let answer = answers::answer(alloc, name.as_str(), &self.schema, texts)?;
        format!(in alloc; "== {name}\n{answer}\n")
    }
}
