//! Where the parts of an `&IF` end.

ghost use Rattle.std.specs.Prelude.{◌≡◌, ◌+◌, ◌<◌, ◌≤◌, ◌^◌, [], length, take, IfOk, IfSome};
ghost use Rattle.preprocessor.specs.Braces.{closing};
ghost use Rattle.preprocessor.specs.Modes.{inner};
ghost use Rattle.preprocessor.specs.Parts.{depth_after, ends_outer, ends_part, line_of, part_length, span, up_to_closing, word_at, word_in, word_size};

use crate::braces::closing;
use crate::directive::{Directive, directive_in, directive_of, line_length};
use crate::mode::{Mode, next_byte};
use crate::names::word_length;
use crate::slices::{after, front};
use std::alloc::{AllocError, Global};

// The bytes up to and with the `}` that closes the reference, or all.
fn up_to_closing(alloc: Global, bytes: &[u8]) -> Result<usize, AllocError>
    requires { length bytes.now < 2 ^ 30 }
    ensures is { IfOk result (λ n. n ≡ up_to_closing bytes.now (closing [] inner bytes.now)) }
    ensures within { IfOk result (λ n. n ≤ length bytes.now) }
{
    match closing(alloc, bytes)? {
        Some(n) => Ok(n + 1),
        None => Ok(bytes.len()),
    }
}

// How many `&IF`s are open inside, after this word.
fn depth_after(depth: usize, word: Directive) -> usize
    requires { depth < 2 ^ 30 }
    ensures is { result ≡ depth_after depth word }
    ensures grown { result ≤ depth + 1 }
{
    match word {
        Directive::If => depth + 1,
        Directive::EndIf => depth.saturating_sub(1),
        Directive::Scoped
        | Directive::Global
        | Directive::Then
        | Directive::ElseIf
        | Directive::Else
        | Directive::Unknown => depth,
    }
}

fn ends_outer(last: bool, word: Directive) -> bool
    ensures { result ≡ ends_outer last word }
{
    match word {
        Directive::EndIf => true,
        Directive::Then | Directive::ElseIf | Directive::Else => !last,
        Directive::If | Directive::Scoped | Directive::Global | Directive::Unknown => false,
    }
}

fn ends_part(last: bool, depth: usize, word: Directive) -> bool
    ensures { result ≡ ends_part last depth word }
{
    if depth == 0 {
        ends_outer(last, word)
    } else {
        false
    }
}

fn line_of(word: Directive, bytes: &[u8]) -> usize
    ensures is { result ≡ line_of word bytes.now }
    ensures within { result ≤ length bytes.now }
{
    match word {
        Directive::Scoped | Directive::Global => line_length(bytes),
        Directive::If
        | Directive::Then
        | Directive::ElseIf
        | Directive::Else
        | Directive::EndIf
        | Directive::Unknown => 0,
    }
}

/// What the word is whose `&` is directly before, in this mode.
pub fn word_in(mode: Mode, bytes: &[u8]) -> Directive
    ensures { result ≡ word_in mode bytes.now }
{
    directive_in(mode, front(bytes, word_length(bytes)))
}

fn span(word: Directive, bytes: &[u8]) -> usize
    ensures is { result ≡ span word bytes.now }
    ensures within { result ≤ length bytes.now }
{
    let n = word_length(bytes);
    n + line_of(word, after(bytes, n))
}

/// The number of bytes before the word that ends the condition or the part which these bytes begin:
/// `&THEN`, `&ELSEIF`, `&ELSE` or `&ENDIF` of the `&IF` that is open, or with `last` its `&ENDIF`.
/// `None` says that there is none. Out of memory is the only error.
pub fn part_length(alloc: Global, last: bool, bytes: &[u8]) -> Result<Option<usize>, AllocError>
    requires { length bytes.now ≤ 2 ^ 30 }
    ensures is { IfOk result (λ end. end ≡ part_length last bytes.now) }
    ensures within { IfOk result (λ end. IfSome end (λ n. n < length bytes.now)) }
{
    let mut depth: usize = 0;
    let mut skip: usize = 0;
    let mut mode = Mode::plain();
    let mut n: usize = 0;
    let mut rest = bytes;
    while let [first, tail @ ..] = rest {
        if skip > 0 {
            skip -= 1;
        } else if mode.opens(*first) {
            skip = up_to_closing(alloc, tail)?;
            mode = mode.beside();
        } else if mode.begins_word(*first) {
            let word = word_in(mode, tail);
            if ends_part(last, depth, word) {
                return Ok(Some(n));
            }
            depth = depth_after(depth, word);
            skip = span(word, tail);
            mode = Mode::plain();
        } else {
            mode = mode.after(*first, next_byte(tail));
        }
        n += 1;
        rest = tail;
    }
    Ok(None)
}

/// The number of bytes of the word that these bytes begin with, its `&` included.
pub fn word_size(bytes: &[u8]) -> usize
    ensures is { result ≡ word_size bytes.now }
    ensures within { result ≤ length bytes.now }
{
    match bytes {
        [_, tail @ ..] => 1 + word_length(tail),
        [] => 0,
    }
}

/// What that word is.
pub fn word_at(bytes: &[u8]) -> Directive
    ensures { result ≡ word_at bytes.now }
{
    match bytes {
        [_, tail @ ..] => directive_of(front(tail, word_length(tail))),
        [] => Directive::Unknown,
    }
}
