//! What the program says about itself, without a command.

use command_help::{SPELLINGS, names, place_of, summaries, text};
use std::io;

/// The line on standard error where standard output does not take the text.
const NO_OUTPUT: &str = "abl: output\n";

/// The line on standard error where no page has the name.
const NO_PAGE: &str = "abl: there is no page of that name; abl --explain lists them\n";

/// How wide the names of the list are.
const BLANKS: &str = "               ";

/// Writes the text to standard output; the status that the program then ends with.
pub fn print(output: &mut impl Print, diagnostics: &mut impl Print, text: &str) -> u8 {
    status(diagnostics, output.write_all(text.as_bytes()))
}

/// Writes the page of that name; the status that the program then ends with.
pub fn explain(output: &mut impl Print, diagnostics: &mut impl Print, name: &[u8]) -> u8 {
    match page(name) {
        Some(page) => print(output, diagnostics, page),
        None => {
            let _ = diagnostics.write_all(NO_PAGE.as_bytes());
            1
        }
    }
}

/// The page of that name or of the word that is spelt so, if there is one.
fn page(name: &[u8]) -> Option<&'static str> {
    let name = str::from_utf8(name).ok()?;
    let place = place_of(names(), spelt_name(name).unwrap_or(name))?;
    text(place)
}

/// The name of the page of a word that is spelt in another way than its page, if it is such a word.
fn spelt_name(spelling: &str) -> Option<&'static str> {
    for line in SPELLINGS.lines() {
        match line.split_once('=') {
            Some((known, name)) if known.eq_ignore_ascii_case(spelling) => return Some(name),
            _ => {}
        }
    }
    None
}

/// Writes a line for each page; the status that the program then ends with.
pub fn list_pages(output: &mut impl Print, diagnostics: &mut impl Print) -> u8 {
    for (name, summary) in names().iter().zip(summaries()) {
        let blanks = BLANKS.get(name.len()..).unwrap_or(" ");
        for part in [*name, blanks, *summary, "\n"] {
            if let Err(error) = output.write_all(part.as_bytes()) {
                return status(diagnostics, Err(error));
            }
        }
    }
    0
}

/// The status after a text was written.
fn status(diagnostics: &mut impl Print, written: io::Result<()>) -> u8 {
    match written {
        Ok(()) => 0,
        Err(_) => {
            let _ = diagnostics.write_all(NO_OUTPUT.as_bytes());
            6
        }
    }
}
