//! The answers of rows.

ghost use Rattle.std.specs.Prelude.{◌<◌, ◌+◌, ◌^◌, length};

use crate::sources::outline::{tokens_shown, tree_shown, uses};
use crate::sources::source::source_of;
use abl_base::{Place, Rule};
use lexer::{LexRefusal, lex};
use parse_tree::{Tokens, Tree};
use parser::{SyntaxRefusal, parse};
use std::alloc::{AllocError, Global};

/// The answer for a source: what was asked for, or the answer that says which rule it breaks.
enum Reading<T> {
    Read(T),
    Refused(String),
}

/// The answer of a row: the name of a question and a source, with a blank between.
pub fn answer(alloc: Global, row: &str) -> Result<String, AllocError> {
    match row.split_once(' ') {
        Some(("uses", named)) => uses_answer(alloc, named),
        Some((question, shown)) => {
            let source = source_of(alloc, shown)?;
            source_answer(alloc, question, source.as_slice())
        }
        None => String::from_str(alloc, "no row"),
    }
}

/// The answer of a question that needs no more than a source.
fn source_answer(alloc: Global, question: &str, source: &[u8]) -> Result<String, AllocError> {
    let tokens = match tokens_of(alloc, source)? {
        Reading::Read(tokens) => tokens,
        Reading::Refused(answer) => return Ok(answer),
    };
    if question == "tokens" {
        return tokens_shown(alloc, tokens.as_slice());
    }
    match tree_of(alloc, &tokens)? {
        Reading::Read(tree) => tree_answer(alloc, question, &tokens, &tree),
        Reading::Refused(answer) => Ok(answer),
    }
}

/// The answer of a question about a program.
fn tree_answer(
    alloc: Global,
    question: &str,
    tokens: &Tokens,
    tree: &Tree,
) -> Result<String, AllocError> {
    match question {
        "parse" => String::from_str(alloc, "program"),
        "tree" => tree_shown(alloc, tree),
        "size" => format!(in alloc; "{} tokens, {} nodes", tokens.len(), tree.len()),
        _ => String::from_str(alloc, "no row"),
    }
}

/// The number of nodes that use a production, which is named before the source.
fn uses_answer(alloc: Global, named: &str) -> Result<String, AllocError> {
    let Some((name, shown)) = named.split_once(' ') else {
        return String::from_str(alloc, "no row");
    };
    let source = source_of(alloc, shown)?;
    let tokens = match tokens_of(alloc, source.as_slice())? {
        Reading::Read(tokens) => tokens,
        Reading::Refused(answer) => return Ok(answer),
    };
    match tree_of(alloc, &tokens)? {
        Reading::Read(tree) => format!(in alloc; "{}", uses(&tree, name)),
        Reading::Refused(answer) => Ok(answer),
    }
}

/// The tokens of a source.
fn tokens_of(alloc: Global, source: &[u8]) -> Result<Reading<Tokens>, AllocError> {
    if source.len() > 2_000_000 {
        return Ok(Reading::Refused(String::from_str(alloc, "too long a row")?));
    }
    match lex(alloc, source) {
        Ok(tokens) => Ok(Reading::Read(tokens)),
        Err(LexRefusal::Broken { rule, place }) => {
            Ok(Reading::Refused(broken(alloc, rule, place)?))
        }
        Err(LexRefusal::NoMemory) => Err(AllocError),
    }
}

/// The tree of a list of tokens.
fn tree_of(alloc: Global, tokens: &Tokens) -> Result<Reading<Tree>, AllocError> {
    match parse(alloc, tokens) {
        Ok(tree) => Ok(Reading::Read(tree)),
        Err(SyntaxRefusal::Broken { rule, at }) => {
            Ok(Reading::Refused(stopped(alloc, tokens, rule, at)?))
        }
        Err(SyntaxRefusal::NoMemory) => Err(AllocError),
    }
}

/// The rule and the place.
fn broken(alloc: Global, rule: Rule, place: Place) -> Result<String, AllocError> {
    let (line, column) = (place.line, place.column);
    format!(in alloc; "{rule:?} at {line}:{column}")
}

/// The rule, the token and its place.
fn stopped(alloc: Global, tokens: &Tokens, rule: Rule, at: u32) -> Result<String, AllocError> {
    match tokens.as_slice().get(at as usize) {
        Some(token) => {
            let (line, column) = (token.place.line, token.place.column);
            format!(in alloc; "{rule:?} at token {at}, {line}:{column}")
        }
        None => format!(in alloc; "{rule:?} at token {at}"),
    }
}
