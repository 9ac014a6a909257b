//! Computes rows of values, of masked values and input lines, and of expressions: reads a row a line,
//! as `add int:1 dec:5`, and writes the row with its answer, as `add int:1 dec:5 = dec:10000000005`. A
//! line `## NAME` begins a section of rows. `tools/value_rows.py`, `tools/format_rows.py` and
//! `tools/expression_rows.py` write the rows and the answers that they must get, from integers,
//! decimals, a calendar and regular expressions of another language, and from rows worked by hand.
#![tactic(auto)]

mod expressions;
mod formats;
mod values;

use std::alloc::{AllocError, Global};
use std::io;

/// What the rows of a section are of.
#[derive(Clone, Copy)]
enum Section {
    Values,
    Formats,
    Expressions,
    /// No section has the name.
    Unknown,
}

impl Section {
    /// The section of that name.
    fn named(name: &str) -> Section {
        match name {
            "values" => Section::Values,
            "formats" => Section::Formats,
            "expressions" => Section::Expressions,
            _ => Section::Unknown,
        }
    }

    /// The answer of a row of the section.
    fn answer(self, alloc: Global, row: &str) -> Result<String, AllocError> {
        match self {
            Section::Values => values::answer(alloc, row),
            Section::Formats => formats::answer(alloc, row),
            Section::Expressions => expressions::answer(alloc, row),
            Section::Unknown => String::from_str(alloc, "no section"),
        }
    }
}

fn main(rt: HostRuntime) -> io::Result<()> {
    let mut section = Section::Unknown;
    for line in rt.lines(rt.alloc()) {
        let row = line?;
        match row.as_str().strip_prefix("## ") {
            Some(name) => {
                section = Section::named(name);
                println!(rt; "{row}")?;
            }
            None => {
                let answer = section.answer(rt.alloc(), row.as_str())?;
                println!(rt; "{row} = {answer}")?;
            }
        }
    }
    Ok(())
}
