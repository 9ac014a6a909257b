//! Words that begin with `&`, and the definitions that they make.

ghost use Rattle.std.specs.Prelude.{◌≡◌, ◌+◌, ◌≤◌, [], IfOk, false, length};
ghost use Rattle.preprocessor.specs.Directives.{definition_of, directive_in, directive_of, line_length, made_of, maker_of};

use crate::mode::Mode;
use crate::names::{Definition, Maker, is_name, same_name};
use crate::words::is_blank;
use abl_base::{Bytes, Items};
use std::alloc::{AllocError, Global};

/// What a word that begins with `&` is.
#[derive(Clone, Copy)]
pub enum Directive {
    /// `&SCOPED-DEFINE`.
    Scoped,
    /// `&GLOBAL-DEFINE`.
    Global,
    If,
    Then,
    ElseIf,
    Else,
    EndIf,
    Unknown,
}

/// What the word is, without its `&`. Case is ignored.
pub fn directive_of(word: &[u8]) -> Directive
    ensures { result ≡ directive_of word.now }
{
    if same_name(word, b"scoped-define") {
        Directive::Scoped
    } else if same_name(word, b"global-define") {
        Directive::Global
    } else if same_name(word, b"if") {
        Directive::If
    } else if same_name(word, b"then") {
        Directive::Then
    } else if same_name(word, b"elseif") {
        Directive::ElseIf
    } else if same_name(word, b"else") {
        Directive::Else
    } else if same_name(word, b"endif") {
        Directive::EndIf
    } else {
        Directive::Unknown
    }
}

/// What the word is in this mode: none of them in a condition and after a number.
pub fn directive_in(mode: Mode, word: &[u8]) -> Directive
    ensures { result ≡ directive_in mode word.now }
{
    if mode.condition || mode.number {
        Directive::Unknown
    } else {
        directive_of(word)
    }
}

/// The number of bytes before the first line feed, or of all.
pub fn line_length(bytes: &[u8]) -> usize
    ensures is { result ≡ line_length bytes.now }
    ensures within { result ≤ length bytes.now }
{
    let mut n: usize = 0;
    let mut rest = bytes;
    while let [first, tail @ ..] = rest {
        if *first == b'\n' {
            return n;
        }
        n += 1;
        rest = tail;
    }
    n
}

/// What makes a definition that holds in all that follows, or in its text.
pub fn maker_of(global: bool) -> Maker
    ensures { result ≡ maker_of global }
{
    if global {
        Maker::ByGlobal
    } else {
        Maker::ByScoped
    }
}

// The definition that a line makes.
fn made_of(alloc: Global, maker: Maker, line: &[u8]) -> Result<Definition, AllocError>
    ensures { IfOk result (λ d. d ≡ made_of maker [] false [] [] line.now) }
{
    let mut name: Bytes = Items::empty(alloc);
    let mut ended = false;
    let mut value: Bytes = Items::empty(alloc);
    let mut pending: Bytes = Items::empty(alloc);
    let mut rest = line;
    while let [first, tail @ ..] = rest {
        if ended {
            if is_blank(*first) {
                if value.len() > 0 {
                    pending.push(*first)?;
                }
            } else {
                value.extend_from_slice(pending.as_slice())?;
                value.push(*first)?;
                pending = Items::empty(alloc);
            }
        } else if is_blank(*first) {
            ended = name.len() > 0;
        } else {
            name.push(*first)?;
        }
        rest = tail;
    }
    Ok(Definition { name, value, maker })
}

/// The definition that a line makes, where it begins with a name. Out of memory is the only error.
pub fn definition_of(
    alloc: Global,
    maker: Maker,
    line: &[u8],
) -> Result<Option<Definition>, AllocError>
    ensures { IfOk result (λ d. d ≡ definition_of maker line.now) }
{
    let made = made_of(alloc, maker, line)?;
    if is_name(made.name.as_slice()) {
        Ok(Some(made))
    } else {
        Ok(None)
    }
}
