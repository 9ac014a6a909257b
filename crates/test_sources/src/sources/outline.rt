//! Tokens and trees as words.

use crate::sources::names::NAMES;
use parse_tree::{CivilDate, Meaning, Token, Tree};
use std::alloc::{AllocError, Global};
use test_words::push_bytes;

/// The tokens with a comma between: each with its kind, its line and column, its length and its
/// value, as `WholeNumber 1:5+2=12`.
pub fn tokens_shown(alloc: Global, tokens: &[Token]) -> Result<String, AllocError> {
    let mut line = String::new(alloc);
    for token in tokens {
        if !line.is_empty() {
            line.push_str(", ")?;
        }
        push_token(alloc, &mut line, token)?;
    }
    Ok(line)
}

/// Writes a token.
fn push_token(alloc: Global, line: &mut String, token: &Token) -> Result<(), AllocError> {
    let kind = token.kind;
    let (row, column) = (token.place.line, token.place.column);
    let length = token.end.wrapping_sub(token.start);
    line.push_str(format!(in alloc; "{kind:?} {row}:{column}+{length}")?.as_str())?;
    push_meaning(alloc, line, &token.meaning)
}

/// Writes `=` and the value of a token, if it has one beside its kind.
fn push_meaning(alloc: Global, line: &mut String, meaning: &Meaning) -> Result<(), AllocError> {
    match meaning {
        Meaning::KindAlone => Ok(()),
        Meaning::Spelling(name) => push_text(line, "=", name.as_slice()),
        Meaning::Parts(first, second) => {
            push_text(line, "=", first.as_slice())?;
            push_text(line, "|", second.as_slice())
        }
        Meaning::Whole(n) => line.push_str(format!(in alloc; "={n}")?.as_str()),
        Meaning::Scaled(n) => line.push_str(format!(in alloc; "={n}")?.as_str()),
        Meaning::Day(date) => push_date(alloc, line, date),
        Meaning::TextBytes(text) => push_text(line, "=", text.as_slice()),
    }
}

/// Writes a sign and the bytes of a text.
fn push_text(line: &mut String, sign: &str, text: &[u8]) -> Result<(), AllocError> {
    line.push_str(sign)?;
    push_bytes(line, text)
}

/// Writes `=` and a date.
fn push_date(alloc: Global, line: &mut String, date: &CivilDate) -> Result<(), AllocError> {
    let (month, day, year) = (date.month, date.day, date.year);
    line.push_str(format!(in alloc; "={month}/{day}/{year}")?.as_str())
}

/// The nodes with a comma between: each with its production, its first token and its end.
pub fn tree_shown(alloc: Global, tree: &Tree) -> Result<String, AllocError> {
    let mut line = String::new(alloc);
    for node in tree.as_slice() {
        if !line.is_empty() {
            line.push_str(", ")?;
        }
        let (name, first, end) = (name_of(node.production), node.first, node.end);
        line.push_str(format!(in alloc; "{name} {first} {end}")?.as_str())?;
    }
    Ok(line)
}

/// How many nodes use the production of a name.
pub fn uses(tree: &Tree, name: &str) -> usize {
    tree.as_slice()
        .iter()
        .filter(|node| name_of(node.production) == name)
        .count()
}

/// The name of a production.
fn name_of(production: u16) -> &'static str {
    match NAMES.get(usize::from(production)) {
        Some(name) => name,
        None => "none",
    }
}
