//! The names of a database's files.

use std::alloc::{AllocError, Global};

/// The names of the files of the three areas, and of the directory that they are in.
#[derive(Drop)]
pub struct Names {
    has_database: bool,
    directory: String,
    d0: String,
    b1: String,
    b2: String,
}

impl Names {
    /// The names of the files of this database. Out of memory is the only error.
    pub fn new(alloc: Global, database: &str) -> Result<Names, AllocError> {
        Ok(Names {
            has_database: !database.is_empty(),
            directory: String::from_str(alloc, directory_of(database))?,
            d0: format!(in alloc; "{database}.d0")?,
            b1: format!(in alloc; "{database}.b1")?,
            b2: format!(in alloc; "{database}.b2")?,
        })
    }

    /// Whether the database has a name; an argument that is not UTF-8 is read as none.
    pub fn has_database(&self) -> bool {
        self.has_database
    }

    /// The directory of the files.
    pub fn directory(&self) -> &str {
        self.directory.as_str()
    }

    /// The name of the area's file.
    pub fn of_area(&self, area: usize) -> &str {
        match area {
            0 => self.d0.as_str(),
            1 => self.b1.as_str(),
            _ => self.b2.as_str(),
        }
    }
}

/// The directory that a file of that name is in.
fn directory_of(name: &str) -> &str {
    match name.rsplit_once('/') {
        None => ".",
        Some((directory, _)) if directory.is_empty() => "/",
        Some((directory, _)) => directory,
    }
}
