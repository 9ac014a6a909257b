//! The text of a run of several clients, without what the schedule chooses.

use abl_cli::Arg;
use std::alloc::{AllocError, Global};
use std::str;

/// The lines of the text in the order of their bytes, with `*` for the name of a client in its
/// heading and in the line of its end: so it is the same whichever of the clients ended so. A text
/// that is not UTF-8 is left as it is.
pub fn unnamed(alloc: Global, text: &[u8], arguments: &[Arg]) -> Result<Vec<u8>, AllocError> {
    let mut shown = Vec::new(alloc);
    let Ok(text) = str::from_utf8(text) else {
        shown.extend_from_slice(text)?;
        return Ok(shown);
    };
    let mut lines = Vec::new(alloc);
    for line in text.lines() {
        lines.push(without_name(alloc, line, arguments)?)?;
    }
    lines.sort()?;
    for line in &lines {
        shown.extend_from_slice(line.as_str().as_bytes())?;
        shown.push(b'\n')?;
    }
    Ok(shown)
}

/// The line, with `*` for the name of a client.
fn without_name(alloc: Global, line: &str, arguments: &[Arg]) -> Result<String, AllocError> {
    for argument in arguments {
        if let Ok(argument) = str::from_utf8(argument.as_slice())
            && let Some((name, _)) = argument.split_once('=')
        {
            if let Some(after) = after_name(line, "== ", name) {
                return format!(in alloc; "== *{after}");
            }
            if let Some(after) = after_name(line, "abl: client ", name) {
                return format!(in alloc; "abl: client *{after}");
            }
        }
    }
    String::from_str(alloc, line)
}

/// What follows the name in the line, where the line begins with these words and the name, and a
/// blank or a colon is next.
fn after_name<'a>(line: &'a str, words: &str, name: &str) -> Option<&'a str> {
    let after = line.strip_prefix(words)?.strip_prefix(name)?;
    (after.starts_with(' ') || after.starts_with(':')).then_some(after)
}
