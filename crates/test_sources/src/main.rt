//! Judges sources and schema files: what sources expand to, their tokens and trees, the meaning of a
//! schema file, and the names, types and scopes of sources over a schema. A line `## NAME` begins a
//! section; what is written of its lines is said at its module. `tools/expansion_rows.py`,
//! `tools/source_rows.py`, `tools/schema_rows.py` and `tools/binding_rows.py` write the rows and the
//! answers that they must get.
#![tactic(auto)]

mod bindings;
mod expansions;
mod lines;
mod schemas;
mod sources;

use bindings::Bindings;
use expansions::Expansions;
use schemas::Schemas;
use std::alloc::{AllocError, Global};
use std::io;

/// What the lines of a section are of.
#[derive(Drop)]
enum Section {
    Sources,
    Schemas(Schemas),
    Bindings(Bindings),
    Expansions(Expansions),
    /// No section has the name.
    Unknown,
}

impl Section {
    /// The section of that name, at its beginning.
    fn named(alloc: Global, name: &str) -> Section {
        match name {
            "sources" => Section::Sources,
            "schemas" => Section::Schemas(Schemas::new(alloc)),
            "bindings" => Section::Bindings(Bindings::new(alloc)),
            "expansions" => Section::Expansions(Expansions::new(alloc)),
            _ => Section::Unknown,
        }
    }

    /// Takes a line, and returns what is written then.
    fn line(&mut self, alloc: Global, row: &str) -> Result<String, AllocError> {
        match self {
            Section::Sources => {
                let answer = sources::answer(alloc, row)?;
                format!(in alloc; "{row} = {answer}\n")
            }
            Section::Schemas(schemas) => schemas.line(alloc, row),
            Section::Bindings(bindings) => bindings.line(alloc, row),
            Section::Expansions(expansions) => expansions.line(alloc, row),
            Section::Unknown => format!(in alloc; "{row} = no section\n"),
        }
    }

    /// What is written at the end of the section.
    fn end(&mut self, alloc: Global) -> Result<String, AllocError> {
        match self {
            Section::Schemas(schemas) => schemas.end(alloc),
            Section::Bindings(bindings) => bindings.end(alloc),
            Section::Expansions(expansions) => expansions.end(alloc),
            Section::Sources | Section::Unknown => Ok(String::new(alloc)),
        }
    }

    /// Ends the section, and begins the one of this name, which the row has.
    fn begin(&mut self, alloc: Global, row: &str, name: &str) -> Result<String, AllocError> {
        let rest = self.end(alloc)?;
        *self = Section::named(alloc, name);
        format!(in alloc; "{rest}{row}\n")
    }

    /// Takes a row of the input, and returns what is written then.
    fn take(&mut self, alloc: Global, row: &str) -> Result<String, AllocError> {
        match row.strip_prefix("## ") {
            Some(name) => self.begin(alloc, row, name),
            None => self.line(alloc, row),
        }
    }
}

/// Takes each line of the input, and writes what is to be written of it.
fn judge(rt: &HostRuntime, section: &mut Section) -> io::Result<()> {
    for line in rt.lines(rt.alloc()) {
        let row = line?;
        let text = section.take(rt.alloc(), row.as_str())?;
        print!(rt; "{text}")?;
    }
    let rest = section.end(rt.alloc())?;
    print!(rt; "{rest}")
}

fn main(rt: HostRuntime) -> io::Result<()> {
    let mut section = Section::Unknown;
    judge(&rt, &mut section)
}
