//! Lines, and the words and quoted texts of a line.

ghost use Rattle.std.specs.Prelude.{◌≡◌, ◌∷◌, ◌-◌, ◌<◌, ◌≤◌, [], false, length, take, IfOk, IfSome, MatchOption, Some, None};
ghost use Rattle.abl_values.specs.Masks.{after_run};
ghost use Rattle.schema_lines.specs.Lines.{after_word, begins, inside, is_blank, is_line_byte, is_margin, is_word_byte, past_word, pieces, quote_of, quoted_bytes, run, text_of, trimmed, without_end, word_of};

use abl_base::{Bytes, Items};
use abl_values::same_bytes;
use std::alloc::{AllocError, Global};

/// A blank or a tab.
pub fn is_blank(byte: u8) -> bool
    ensures { result ≡ is_blank byte }
{
    byte == b' ' || byte == b'\t'
}

/// What does not count at the ends of a line: a blank, a tab, a carriage return.
fn is_margin(byte: u8) -> bool
    ensures { result ≡ is_margin byte }
{
    is_blank(byte) || byte == b'\r'
}

/// The line without what does not count at its ends.
pub fn trimmed(line: &[u8]) -> &[u8]
    ensures { result.now ≡ trimmed line.now }
{
    without_end(after_margin(line))
}

fn after_margin(line: &[u8]) -> &[u8]
    ensures rest { result.now ≡ after_run is_margin line.now }
    ensures within { length result.now ≤ length line.now }
{
    let mut rest = line;
    while let [first, tail @ ..] = rest {
        if !is_margin(*first) {
            break;
        }
        rest = tail;
    }
    rest
}

fn without_end(line: &[u8]) -> &[u8]
    ensures { result.now ≡ without_end line.now }
{
    let mut end = line.len();
    while end > 0 && is_margin(line[end - 1]) {
        end -= 1;
    }
    &line[..end]
}

/// A text up to its first line feed, and the rest after that.
#[derive(Clone, Copy)]
pub struct Piece<'a> {
    pub line: &'a [u8],
    pub rest: Option<&'a [u8]>,
}

/// The first line of a text.
pub fn first_piece(text: &[u8]) -> Piece<'_>
    ensures pieces { MatchOption result.rest (pieces text.now ≡ result.line.now ∷ []) (λ rest. pieces text.now ≡ result.line.now ∷ pieces rest.now) }
    ensures shorter { IfSome result.rest (λ rest. length rest.now < length text.now) }
{
    let end = after_line(text);
    let line = front_of(text, end);
    match end {
        [] => Piece { line, rest: None },
        [_, tail @ ..] => Piece {
            line,
            rest: Some(tail),
        },
    }
}

/// All bytes but a line feed.
fn is_line_byte(byte: u8) -> bool
    ensures { result ≡ is_line_byte byte }
{
    byte != b'\n'
}

/// The text from its first line feed on.
fn after_line(text: &[u8]) -> &[u8]
    ensures rest { result.now ≡ after_run is_line_byte text.now }
    ensures within { length result.now ≤ length text.now }
{
    let mut rest = text;
    while let [first, tail @ ..] = rest {
        if !is_line_byte(*first) {
            break;
        }
        rest = tail;
    }
    rest
}

/// All but blanks, tabs and quotation marks.
fn is_word_byte(byte: u8) -> bool
    ensures { result ≡ is_word_byte byte }
{
    !(is_blank(byte) || byte == b'"')
}

/// The word at the head of a line, which may be empty.
pub fn word_of(line: &[u8]) -> &[u8]
    ensures { result.now ≡ word_of line.now }
{
    front_of(line, after_word_bytes(line))
}

/// The text without this end of it.
pub fn front_of<'a>(text: &'a [u8], end: &[u8]) -> &'a [u8]
    requires { length end.now ≤ length text.now }
    ensures { result.now ≡ take (length text.now - length end.now) text.now }
{
    &text[..text.len() - end.len()]
}

/// The rest of the line after its first word and the blanks after that.
pub fn after_word(line: &[u8]) -> &[u8]
    ensures { result.now ≡ after_word line.now }
{
    after_blanks(after_word_bytes(line))
}

fn after_word_bytes(line: &[u8]) -> &[u8]
    ensures rest { result.now ≡ after_run is_word_byte line.now }
    ensures within { length result.now ≤ length line.now }
{
    let mut rest = line;
    while let [first, tail @ ..] = rest {
        if !is_word_byte(*first) {
            break;
        }
        rest = tail;
    }
    rest
}

fn after_blanks(line: &[u8]) -> &[u8]
    ensures rest { result.now ≡ after_run is_blank line.now }
    ensures within { length result.now ≤ length line.now }
{
    let mut rest = line;
    while let [first, tail @ ..] = rest {
        if !is_blank(*first) {
            break;
        }
        rest = tail;
    }
    rest
}

/// Says whether the line begins with this word.
pub fn begins(word: &[u8], line: &[u8]) -> bool
    ensures { result ≡ begins word.now line.now }
{
    same_bytes(word_of(line), word)
}

/// The rest of the line after this word, where the line begins with it.
pub fn past_word<'a>(word: &[u8], line: &'a [u8]) -> Option<&'a [u8]>
    ensures { MatchOption result (past_word word.now line.now ≡ None) (λ rest. past_word word.now line.now ≡ Some rest.now) }
{
    if begins(word, line) {
        Some(after_word(line))
    } else {
        None
    }
}

/// The rest of the line after the quoted text that it begins with and the blanks after that, where
/// the line begins with a quoted text that is closed.
pub fn after_quote(line: &[u8]) -> Option<&[u8]>
    ensures { MatchOption result (quote_of line.now ≡ None) (λ rest. quote_of line.now ≡ Some (record { text = quoted_bytes line.now; rest = rest.now })) }
{
    match line {
        [b'"', bytes @ ..] => after_inside(bytes),
        _ => None,
    }
}

/// The bytes after the quoted text whose opening mark is directly before these bytes.
fn after_inside(bytes: &[u8]) -> Option<&[u8]>
    ensures { MatchOption result (inside false bytes.now ≡ None) (λ rest. inside false bytes.now ≡ Some (record { text = text_of (inside false bytes.now); rest = rest.now })) }
{
    let mut rest = bytes;
    let mut marked = false;
    while let [first, tail @ ..] = rest {
        let is_mark = *first == b'"';
        if marked && !is_mark {
            return Some(after_blanks(rest));
        }
        marked = is_mark && !marked;
        rest = tail;
    }
    if marked { Some(rest) } else { None }
}

/// The quoted text at the head of the line, with each inner mark once; empty where none is closed
/// there.
pub fn quoted_bytes(alloc: Global, line: &[u8]) -> Result<Bytes, AllocError>
    ensures { IfOk result (λ text. text ≡ quoted_bytes line.now) }
{
    match line {
        [b'"', bytes @ ..] => bytes_inside(alloc, bytes),
        _ => Ok(Items::empty(alloc)),
    }
}

/// The quoted text whose opening mark is directly before these bytes.
fn bytes_inside(alloc: Global, bytes: &[u8]) -> Result<Bytes, AllocError>
    ensures { IfOk result (λ text. text ≡ text_of (inside false bytes.now)) }
{
    let mut text = Items::empty(alloc);
    let mut rest = bytes;
    let mut marked = false;
    while let [first, tail @ ..] = rest {
        let is_mark = *first == b'"';
        if is_mark && !marked {
            marked = true;
        } else if marked && !is_mark {
            return Ok(text);
        } else {
            text.push(*first)?;
            marked = false;
        }
        rest = tail;
    }
    if marked {
        Ok(text)
    } else {
        Ok(Items::empty(alloc))
    }
}
