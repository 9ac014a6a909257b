//! The tokens of a condition.

ghost use Rattle.std.specs.Prelude.{◌≡◌, ◌==◌, ◌||◌, ◌++◌, [], IfOk, true};
ghost use Rattle.preprocessor.specs.Conditions.{escape_length, escaped, control_of, is_octal, is_sign, last_token, octal_of, sign_of, sign_rest, tokens, word_before};

use crate::mode::next_byte;
use crate::words::is_blank;
use abl_base::{Bytes, Items};
use std::alloc::{AllocError, Global};

/// A token of a condition.
#[derive(Drop)]
pub enum Token {
    Word(Bytes),
    /// The bytes that a TEXT denotes.
    Text(Bytes),
    /// `=`.
    Equal,
    /// `<>`.
    Unequal,
    /// `(`.
    Open,
    /// `)`.
    Close,
    /// Another sign, or a TEXT that does not end.
    Wrong,
}

fn is_octal(bytes: &[u8]) -> bool
    ensures { result ≡ is_octal bytes.now }
{
    match bytes {
        [a, b, c, ..] => {
            (*a >= b'0' && *a <= b'3') && (*b >= b'0' && *b <= b'7') && (*c >= b'0' && *c <= b'7')
        }
        _ => false,
    }
}

fn octal_of(bytes: &[u8]) -> u8
    requires { is_octal bytes.now ≡ true }
    ensures { result ≡ octal_of bytes.now }
{
    match bytes {
        [a, b, c, ..] => (*a - b'0') * 64 + (*b - b'0') * 8 + (*c - b'0'),
        _ => 0,
    }
}

fn escape_length(bytes: &[u8]) -> usize
    ensures { result ≡ escape_length bytes.now }
{
    if is_octal(bytes) { 3 } else { 1 }
}

fn control_of(byte: u8) -> u8
    ensures { result ≡ control_of byte }
{
    if byte == b'n' {
        b'\n'
    } else if byte == b't' {
        b'\t'
    } else if byte == b'r' {
        b'\r'
    } else {
        byte
    }
}

// What `~` before these bytes denotes.
fn escaped(alloc: Global, bytes: &[u8]) -> Result<Bytes, AllocError>
    ensures { IfOk result (λ denoted. denoted ≡ escaped bytes.now) }
{
    match bytes {
        [] => Ok(Items::empty(alloc)),
        [first, ..] => {
            if is_octal(bytes) {
                Items::of(alloc, &[octal_of(bytes)])
            } else if *first == b'\n' {
                Ok(Items::empty(alloc))
            } else {
                Items::of(alloc, &[control_of(*first)])
            }
        }
    }
}

// A quotation mark.
fn is_mark(byte: u8) -> bool
    ensures { result ≡ (byte == 34 || byte == 39) }
{
    byte == b'"' || byte == b'\''
}

fn is_sign(byte: u8) -> bool
    ensures { result ≡ is_sign byte }
{
    (byte == b'(' || byte == b')') || (byte >= b'<' && byte <= b'>')
}

fn sign_of(byte: u8, next: u8) -> Token
    ensures { result ≡ sign_of byte next }
{
    if byte == b'(' {
        Token::Open
    } else if byte == b')' {
        Token::Close
    } else if byte == b'=' {
        Token::Equal
    } else if byte == b'<' && next == b'>' {
        Token::Unequal
    } else {
        Token::Wrong
    }
}

fn sign_rest(byte: u8, next: u8) -> usize
    ensures { result ≡ sign_rest byte next }
{
    if byte == b'<' && next == b'>' { 1 } else { 0 }
}

// The tokens, and then the word that is open, where it has bytes.
fn with_word(tokens: Items<Token>, held: Bytes) -> Result<Items<Token>, AllocError>
    ensures { IfOk result (λ all. all ≡ tokens ++ word_before held []) }
{
    let mut tokens = tokens;
    if held.len() > 0 {
        tokens.push(Token::Word(held))?;
    }
    Ok(tokens)
}

/// The tokens of a condition. Out of memory is the only error.
pub fn tokens(alloc: Global, bytes: &[u8]) -> Result<Items<Token>, AllocError>
    ensures { IfOk result (λ all. all ≡ tokens 0 0 [] bytes.now) }
{
    let mut done: Items<Token> = Items::empty(alloc);
    let mut quote: u8 = 0;
    let mut skip: usize = 0;
    let mut held: Bytes = Items::empty(alloc);
    let mut rest = bytes;
    while let [first, tail @ ..] = rest {
        if skip > 0 {
            skip -= 1;
        } else if quote > 0 {
            if *first == b'~' {
                skip = escape_length(tail);
                let denoted = escaped(alloc, tail)?;
                held.extend_from_slice(denoted.as_slice())?;
            } else if *first == quote {
                if next_byte(tail) == quote {
                    skip = 1;
                    held.push(*first)?;
                } else {
                    done.push(Token::Text(held))?;
                    held = Items::empty(alloc);
                    quote = 0;
                }
            } else {
                held.push(*first)?;
            }
        } else if is_blank(*first) {
            done = with_word(done, held)?;
            held = Items::empty(alloc);
        } else if is_mark(*first) {
            done = with_word(done, held)?;
            held = Items::empty(alloc);
            quote = *first;
        } else if is_sign(*first) {
            done = with_word(done, held)?;
            held = Items::empty(alloc);
            let next = next_byte(tail);
            done.push(sign_of(*first, next))?;
            skip = sign_rest(*first, next);
        } else {
            held.push(*first)?;
        }
        rest = tail;
    }
    if quote > 0 {
        done.push(Token::Wrong)?;
        Ok(done)
    } else {
        with_word(done, held)
    }
}
