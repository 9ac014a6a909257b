//! The meanings of lexemes.

ghost use Rattle.std.specs.Prelude.{◌+◌, ◌<◌, ◌≤◌, ◌≡◌, ◌++◌, ℕ, List, drop, length, true, IfOk, OnOk};
ghost use Rattle.std.specs.List.{list_all, prefix_len};
ghost use Rattle.lexer.specs.Bytes.{is_digit, is_name_byte};
ghost use Rattle.lexer.specs.Forms.{after_separator, form, leading};
ghost use Rattle.lexer.specs.Meanings.{control_of, escape_length, escaped, inside, is_octal, kind_of, meaning_of, octal_of, pair_kind, scaled_of, single_kind, symbol_kind, text_of};
ghost use Rattle.lexer.specs.Texts.{IsFit};
ghost use Rattle.parse_tree.specs.declared.token.Meaning.TheVariants.{Parts, Scaled};

use crate::bytes::{has_byte_at, piece, rest_from};
use crate::form::Form;
use crate::number::{date, number, scaled};
use crate::word::{digits_len, name_len};
use abl_base::Items;
use parse_tree::{Meaning, TokenKind, keyword_of};
use std::alloc::{AllocError, Global};

// Whether the text begins with three octal digits up to 377.
fn is_octal(rest: &[u8]) -> bool
    ensures { result ≡ is_octal rest.now }
{
    if rest.len() < 3 {
        return false;
    }
    let (a, b, c) = (rest[0], rest[1], rest[2]);
    (a >= b'0' && a <= b'3') && (b >= b'0' && b <= b'7') && (c >= b'0' && c <= b'7')
}

// The byte that the three octal digits at the start denote.
fn octal(rest: &[u8]) -> u8
    requires { is_octal rest.now ≡ true }
    ensures { result ≡ octal_of rest.now }
{
    (rest[0] - b'0') * 64 + (rest[1] - b'0') * 8 + (rest[2] - b'0')
}

fn control(b: u8) -> u8
    ensures { result ≡ control_of b }
{
    match b {
        b'n' => b'\n',
        b't' => b'\t',
        b'r' => b'\r',
        _ => b,
    }
}

// Writes what `~` and the bytes after it denote, and says how many of these belong to it.
fn push_escaped(bytes: &mut Vec<u8>, rest: &[u8]) -> Result<usize, AllocError>
    ensures length { IfOk result (λ n. n ≡ escape_length rest.now) }
    ensures bytes { OnOk result (bytes.new.items ≡ bytes.old.items ++ escaped rest.now) }
    ensures within { IfOk result (λ n. n ≤ length rest.now) }
{
    if rest.len() == 0 {
        return Ok(0);
    }
    if is_octal(rest) {
        bytes.push(octal(rest))?;
        return Ok(3);
    }
    if rest[0] != b'\n' {
        bytes.push(control(rest[0]))?;
    }
    Ok(1)
}

// What the bytes after an opening quote denote, up to the closing one.
fn inside(alloc: Global, rest: &[u8], quote: u8) -> Result<Vec<u8>, AllocError>
    ensures { IfOk result (λ v. v.items ≡ inside quote 0 rest.now) }
{
    let mut bytes = Vec::with_capacity(alloc, rest.len())?;
    let mut i = 0;
    while i < rest.len() {
        let b = rest[i];
        if b == b'~' {
            i += 1 + push_escaped(&mut bytes, rest_from(rest, i + 1))?;
        } else if b != quote {
            bytes.push(b)?;
            i += 1;
        } else if has_byte_at(rest, i + 1, quote) {
            bytes.push(quote)?;
            i += 2;
        } else {
            return Ok(bytes);
        }
    }
    Ok(bytes)
}

fn text(alloc: Global, word: &[u8]) -> Result<Vec<u8>, AllocError>
    ensures { IfOk result (λ v. v.items ≡ text_of word.now) }
{
    if word.len() == 0 {
        return Ok(Vec::new(alloc));
    }
    inside(alloc, rest_from(word, 1), word[0])
}

fn pair_kind(b: u8, c: u8) -> TokenKind
    ensures { result ≡ pair_kind b c }
{
    if b == b'>' {
        TokenKind::GreaterOrEqual
    } else if c == b'>' {
        TokenKind::NotEqual
    } else {
        TokenKind::LessOrEqual
    }
}

fn single_kind(b: u8) -> TokenKind
    ensures { result ≡ single_kind b }
{
    match b {
        b'(' => TokenKind::LeftParenthesis,
        b')' => TokenKind::RightParenthesis,
        b'*' => TokenKind::Star,
        b'+' => TokenKind::Plus,
        b',' => TokenKind::Comma,
        b'-' => TokenKind::Minus,
        b'.' => TokenKind::Period,
        b'/' => TokenKind::Slash,
        b':' => TokenKind::Colon,
        b'<' => TokenKind::Less,
        b'=' => TokenKind::Equals,
        b'>' => TokenKind::Greater,
        b'?' => TokenKind::QuestionMark,
        _ => TokenKind::Caret,
    }
}

fn symbol_kind(word: &[u8]) -> TokenKind
    ensures { result ≡ symbol_kind word.now }
{
    if word.len() == 0 {
        return TokenKind::Caret;
    }
    if word.len() == 1 {
        return single_kind(word[0]);
    }
    pair_kind(word[0], word[1])
}

fn qualified(alloc: Global, word: &[u8]) -> Result<Meaning, AllocError>
    requires { prefix_len is_name_byte word.now < length word.now }
    ensures { IfOk result (λ meaning. meaning ≡ Parts (leading is_name_byte word.now) (after_separator is_name_byte word.now)) }
{
    let n = name_len(word);
    let first = Items::of(alloc, piece(word, 0, n))?;
    let second = Items::of(alloc, rest_from(word, n + 1))?;
    Ok(Meaning::Parts(first, second))
}

fn fractional(word: &[u8]) -> Meaning
    requires point { prefix_len is_digit word.now < length word.now }
    requires few_before { prefix_len is_digit word.now ≤ 18 }
    requires few_after { length (after_separator is_digit word.now) ≤ 10 }
    requires digits_after { list_all is_digit (after_separator is_digit word.now) ≡ true }
    ensures { result ≡ Scaled (scaled_of (leading is_digit word.now) (after_separator is_digit word.now)) }
{
    let n = digits_len(word);
    Meaning::Scaled(scaled(piece(word, 0, n), rest_from(word, n + 1)))
}

/// The kind of a lexeme of this form, and what it denotes.
pub fn meaning(alloc: Global, shape: Form, word: &[u8]) -> Result<(TokenKind, Meaning), AllocError>
    requires form { (after : List ℕ) × (form shape word.now after ≡ true) }
    requires fit { IsFit shape word.now }
    ensures kind { IfOk result (λ found. found.0 ≡ kind_of shape word.now) }
    ensures meaning { IfOk result (λ found. found.1 ≡ meaning_of shape word.now) }
{
    match shape {
        Form::Word => match keyword_of(word) {
            Some(kind) => Ok((kind, Meaning::KindAlone)),
            None => Ok((TokenKind::Name, Meaning::Spelling(Items::of(alloc, word)?))),
        },
        Form::Qualified => Ok((TokenKind::QualifiedName, qualified(alloc, word)?)),
        Form::Digits => Ok((TokenKind::WholeNumber, Meaning::Whole(number(word)))),
        Form::Fractional => Ok((TokenKind::DecimalNumber, fractional(word))),
        Form::Dated => Ok((TokenKind::DateLiteral, Meaning::Day(date(word)))),
        Form::Quoted => Ok((
            TokenKind::TextLiteral,
            Meaning::TextBytes(Items::from_vec(text(alloc, word)?)),
        )),
        Form::Symbol => Ok((symbol_kind(word), Meaning::KindAlone)),
    }
}
