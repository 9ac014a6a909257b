//! The longest form that a text begins with.

ghost use Rattle.std.specs.Prelude.{◌&&◌, ◌==◌, ◌||◌, ◌+◌, ◌<◌, ◌≤◌, ◌≡◌, ℕ, false, length, true, IfErr, IfNone, IfOk, IfSome};
ghost use Rattle.std.specs.List.{prefix_len};
ghost use Rattle.lexer.specs.Bytes.{is_digit, is_letter, is_name_byte, is_quote, slash, starts_digit, starts_letter, starts_quote};
ghost use Rattle.lexer.specs.Forms.{closing, is_pair, leading, is_single, one_or_two, parted, starts_pair, DatedAt, DayYearAt, Longest, NoForm};
ghost use Rattle.lexer.specs.Texts.{BreaksFront};
ghost use Rattle.lexer.specs.declared.form.Form.TheVariants.{Symbol};

use crate::bytes::{
    has_byte_at, is_digit, is_letter, is_name_byte, is_quote, is_symbol_byte, piece, rest_from,
    starts_letter,
};
use crate::form::Form;
use crate::gap::ends_here;
use abl_base::Rule;
use parse_tree::keyword_of;

/// How many bytes of a name the text begins with.
pub fn name_len(rest: &[u8]) -> usize
    ensures is { result ≡ prefix_len is_name_byte rest.now }
    ensures within { result ≤ length rest.now }
{
    let mut i = 0;
    while i < rest.len() && is_name_byte(rest[i]) {
        i += 1;
    }
    i
}

/// How many digits the text begins with.
pub fn digits_len(rest: &[u8]) -> usize
    ensures is { result ≡ prefix_len is_digit rest.now }
    ensures within { result ≤ length rest.now }
{
    let mut i = 0;
    while i < rest.len() && is_digit(rest[i]) {
        i += 1;
    }
    i
}

// How many bytes end the text between quotes whose opening quote was read.
fn closing_len(rest: &[u8], quote: u8) -> Option<usize>
    ensures is { result ≡ closing quote false rest.now }
    ensures within { IfSome result (λ n. n ≤ length rest.now) }
{
    let mut i = 0;
    while i < rest.len() {
        if rest[i] == b'~' {
            i += 2;
        } else if rest[i] != quote {
            i += 1;
        } else if has_byte_at(rest, i + 1, quote) {
            i += 2;
        } else {
            return Some(i + 1);
        }
    }
    None
}

// The longest name or qualified name.
fn named(rest: &[u8]) -> (Form, usize)
    requires { starts_letter rest.now ≡ true }
    ensures { Longest result.0 result.1 rest.now }
{
    let n = name_len(rest);
    if has_byte_at(rest, n, b'.') {
        let second = rest_from(rest, n + 1);
        if starts_letter(second) && keyword_of(piece(rest, 0, n)).is_none() {
            return (Form::Qualified, n + 1 + name_len(second));
        }
    }
    (Form::Word, n)
}

fn is_one_or_two(n: usize) -> bool
    ensures { result ≡ (n == 1 || n == 2) }
{
    n == 1 || n == 2
}

// Whether the n digits at the start are one or two, with `/` after them.
fn ends_in_slash(rest: &[u8], n: usize) -> bool
    requires { n ≡ prefix_len is_digit rest.now }
    ensures { result ≡ (parted is_digit slash rest.now && one_or_two (leading is_digit rest.now)) }
{
    if has_byte_at(rest, n, b'/') {
        is_one_or_two(n)
    } else {
        false
    }
}

fn is_two_or_four(n: usize) -> bool
    ensures { result ≡ (n == 2 || n == 4) }
{
    n == 2 || n == 4
}

// How many bytes the day, `/` and year have that the text begins with.
fn day_year_len(rest: &[u8]) -> Option<usize>
    ensures found { IfSome result (λ m. DayYearAt rest.now m) }
    ensures none { IfNone result ((m : ℕ) → DayYearAt rest.now m → ⊥) }
{
    let n = digits_len(rest);
    if !ends_in_slash(rest, n) {
        return None;
    }
    let years = digits_len(rest_from(rest, n + 1));
    if is_two_or_four(years) {
        Some(n + 1 + years)
    } else {
        None
    }
}

// How many bytes the date has that the text begins with.
fn dated_len(rest: &[u8]) -> Option<usize>
    ensures found { IfSome result (λ m. DatedAt rest.now m) }
    ensures none { IfNone result ((m : ℕ) → DatedAt rest.now m → ⊥) }
{
    let n = digits_len(rest);
    if !ends_in_slash(rest, n) {
        return None;
    }
    match day_year_len(rest_from(rest, n + 1)) {
        Some(m) => Some(n + 1 + m),
        None => None,
    }
}

// The longest number or date.
fn numbered(rest: &[u8]) -> (Form, usize)
    requires { starts_digit rest.now ≡ true }
    ensures { Longest result.0 result.1 rest.now }
{
    let n = digits_len(rest);
    if has_byte_at(rest, n, b'.') {
        let m = digits_len(rest_from(rest, n + 1));
        return if m > 0 {
            (Form::Fractional, n + 1 + m)
        } else {
            (Form::Digits, n)
        };
    }
    match dated_len(rest) {
        Some(m) => (Form::Dated, m),
        None => (Form::Digits, n),
    }
}

// Whether the two bytes are `<>`, `<=` or `>=`.
fn is_pair(b: u8, c: u8) -> bool
    ensures { result ≡ is_pair b c }
{
    (b == b'<' && (c == b'>' || c == b'=')) || (b == b'>' && c == b'=')
}

// Whether the byte is a symbol before what follows.
fn is_single(b: u8, after: &[u8]) -> bool
    ensures { result ≡ is_single b after.now }
{
    if !is_symbol_byte(b) {
        return false;
    }
    match b {
        b'/' => !has_byte_at(after, 0, b'*'),
        b'.' => ends_here(after),
        _ => true,
    }
}

// Whether the text begins with a symbol of two bytes.
fn starts_pair(rest: &[u8]) -> bool
    ensures { result ≡ starts_pair rest.now }
{
    if rest.len() > 1 {
        is_pair(rest[0], rest[1])
    } else {
        false
    }
}

// The longest symbol.
fn symbol_len(rest: &[u8]) -> Option<usize>
    requires some { 0 < length rest.now }
    requires no_letter { starts_letter rest.now ≡ false }
    requires no_digit { starts_digit rest.now ≡ false }
    requires no_quote { starts_quote rest.now ≡ false }
    ensures found { IfSome result (λ n. Longest Symbol n rest.now) }
    ensures none { IfNone result (NoForm rest.now) }
{
    if starts_pair(rest) {
        return Some(2);
    }
    if is_single(rest[0], rest_from(rest, 1)) {
        Some(1)
    } else {
        None
    }
}

/// The longest form that the text begins with, and its number of bytes. Where no form matches, L3 if
/// the text begins with a quote and L1 if not.
pub fn word(rest: &[u8]) -> Result<(Form, usize), Rule>
    requires { 0 < length rest.now }
    ensures found { IfOk result (λ w. Longest w.0 w.1 rest.now) }
    ensures broken { IfErr result (λ rule. BreaksFront rule rest.now) }
{
    let b = rest[0];
    if is_letter(b) {
        return Ok(named(rest));
    }
    if is_digit(b) {
        return Ok(numbered(rest));
    }
    if is_quote(b) {
        return match closing_len(rest_from(rest, 1), b) {
            Some(n) => Ok((Form::Quoted, n + 1)),
            None => Err(Rule::L3),
        };
    }
    match symbol_len(rest) {
        Some(n) => Ok((Form::Symbol, n)),
        None => Err(Rule::L1),
    }
}
