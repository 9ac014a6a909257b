//! Runs rows of calls on the parts of the database machine: containers, locks, rows over slots, and
//! steps of the machine. It reads a row a line, as `0 share 8192`, and writes the row with its answer,
//! as `0 share 8192 = Granted`. A line `## NAME` begins a section of rows, and in it a line that begins
//! with `==` is a heading, where what the rows are about is new. `tools/container_rows.py`,
//! `tools/lock_rows.py`, `tools/chain_rows.py` and `tools/machine_rows.py` write the rows and the
//! answers that they must get.
#![tactic(auto)]

mod chains;
mod containers;
mod locks;
mod steps;

use locks::Table;
use std::alloc::{AllocError, Global};
use std::io;

/// What the rows of a section are of.
#[derive(Drop)]
enum Section {
    Containers,
    Locks(Table),
    Chains(Option<chains::Rows>),
    /// The rows since the last heading, which are run together.
    Steps(Vec<String>),
    /// No section has the name.
    Unknown,
}

impl Section {
    /// The section of that name, at its beginning.
    fn named(alloc: Global, name: &str) -> Result<Section, AllocError> {
        match name {
            "containers" => Ok(Section::Containers),
            "locks" => Ok(Section::Locks(Table::new(alloc))),
            "chains" => Ok(Section::Chains(chains::Rows::new(alloc)?)),
            "steps" => Ok(Section::Steps(Vec::new(alloc))),
            _ => Ok(Section::Unknown),
        }
    }

    /// Takes a heading, and returns what is written before it.
    fn heading(&mut self, alloc: Global) -> Result<String, AllocError> {
        match self {
            Section::Locks(table) => {
                *table = Table::new(alloc);
                Ok(String::new(alloc))
            }
            Section::Steps(rows) => {
                let text = steps::answered(alloc, rows.as_slice())?;
                rows.clear();
                Ok(text)
            }
            Section::Containers | Section::Chains(_) | Section::Unknown => Ok(String::new(alloc)),
        }
    }

    /// Takes a row, and returns its answer, or None where it is answered at the next heading.
    fn answer(&mut self, alloc: Global, row: &str) -> Result<Option<String>, AllocError> {
        match self {
            Section::Containers => Ok(Some(containers::answer(alloc, row)?)),
            Section::Locks(table) => Ok(Some(table.answer(alloc, row)?)),
            Section::Chains(Some(rows)) => Ok(Some(rows.answer(alloc, row)?)),
            Section::Chains(None) => Ok(Some(String::from_str(alloc, "no slots")?)),
            Section::Steps(rows) => {
                rows.push(String::from_str(alloc, row)?)?;
                Ok(None)
            }
            Section::Unknown => Ok(Some(String::from_str(alloc, "no section")?)),
        }
    }
}

/// What is written for a line.
fn written(alloc: Global, section: &mut Section, row: &str) -> Result<String, AllocError> {
    if let Some(name) = row.strip_prefix("## ") {
        let rest = section.heading(alloc)?;
        *section = Section::named(alloc, name)?;
        return format!(in alloc; "{rest}{row}\n");
    }
    if row.starts_with("==") {
        let rest = section.heading(alloc)?;
        return format!(in alloc; "{rest}{row}\n");
    }
    match section.answer(alloc, row)? {
        Some(answer) => format!(in alloc; "{row} = {answer}\n"),
        None => Ok(String::new(alloc)),
    }
}

fn main(rt: HostRuntime) -> io::Result<()> {
    let mut section = Section::Unknown;
    for line in rt.lines(rt.alloc()) {
        let row = line?;
        let text = written(rt.alloc(), &mut section, row.as_str())?;
        print!(rt; "{text}")?;
    }
    let rest = section.heading(rt.alloc())?;
    print!(rt; "{rest}")
}
