//! Sections of rows: a schema, and what is asked of the sources that follow it.

use abl_base::{Bytes, Place};
use abl_values::Schema;
use schema_reader::read_df;
use source_reader::listing::{OwnLines, listing};
use source_reader::{SourceFault, judge_names, read_scopes};
use std::alloc::{AllocError, Global};

/// The most bytes of a source that are read.
const MOST_BYTES: usize = 1 << 30;

/// A source that was not put together of others: each place has its own line.
struct OneText;

impl OwnLines for OneText {
    ghost own_line = { λ text place. place.line };

    fn line_of(&self, place: Place) -> u32 {
        place.line
    }
}

/// What is written of a source.
#[derive(Clone, Copy)]
enum Asked {
    /// `ok`, or the first rule L, G or Y that it breaks, with its place.
    Types,
    /// Its listing, or the first rule L, G, Y or S that it breaks, with its place.
    Scopes,
}

/// A schema, and what is asked of the sources that are read against it.
#[derive(Drop)]
pub struct Section {
    schema: Schema,
    asked: Asked,
}

impl Section {
    /// The section that a schema file under this heading begins, where it is a heading of one and the
    /// file breaks no rule.
    fn begun_by(alloc: Global, heading: &str, text: &[u8]) -> Option<Section> {
        let asked = match heading {
            "schema types" => Asked::Types,
            "schema scopes" => Asked::Scopes,
            _ => return None,
        };
        let schema = read_df(alloc, text).ok()?;
        Some(Section { schema, asked })
    }

    /// What is written of a source.
    fn answer(&self, alloc: Global, text: &[u8]) -> Result<String, AllocError> {
        if text.len() > MOST_BYTES {
            return Err(AllocError);
        }
        match self.asked {
            Asked::Types => match judge_names(alloc, &self.schema, text) {
                Ok(()) => format!(in alloc; "ok\n"),
                Err(fault) => broken(alloc, fault),
            },
            Asked::Scopes => match read_scopes(alloc, &self.schema, text) {
                Ok(bound) => shown(alloc, &listing(alloc, &bound, &OneText)?),
                Err(fault) => broken(alloc, fault),
            },
        }
    }
}

/// What is written of the text that follows a line `== name`. A schema file begins a section, and
/// nothing is written of it.
pub fn answer_in(
    alloc: Global,
    section: &mut Option<Section>,
    name: &str,
    text: &[u8],
) -> Result<Option<String>, AllocError> {
    if let Some(begun) = Section::begun_by(alloc, name, text) {
        *section = Some(begun);
        return Ok(None);
    }
    match section {
        Some(section) => Ok(Some(section.answer(alloc, text)?)),
        None => Ok(None),
    }
}

/// The rule that is broken, with its place.
fn broken(alloc: Global, fault: SourceFault) -> Result<String, AllocError> {
    match fault {
        SourceFault::Broken { rule, place } => {
            format!(in alloc; "{rule:?} at {}:{}\n", place.line, place.column)
        }
        SourceFault::NoMemory => Err(AllocError),
    }
}

/// The listing as text. The rows have names of ASCII letters alone.
fn shown(alloc: Global, text: &Bytes) -> Result<String, AllocError> {
    match str::from_utf8(text.as_slice()) {
        Ok(text) => String::from_str(alloc, text),
        Err(_) => format!(in alloc; "no text\n"),
    }
}
