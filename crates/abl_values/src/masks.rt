//! Masks, by which PUT and STRING write values. (OpenEdge ABL Reference, Formats; which masks are
//! taken is this project's choice.)

ghost use Rattle.std.specs.Prelude.{◌≡◌, length, codes};
ghost use Rattle.std.specs.List.{list_all, list_any};
ghost use Rattle.abl_values.specs.Masks.{after_run, is_date_mask, is_digit, is_digit_sign, is_fixed, is_floating, is_fraction, is_mask_word_byte, is_nine, is_number_mask, is_second_word, is_text_mask, is_width, is_word_mask, is_x, mask_is_for, same_bytes, without_minus};

use crate::names::is_digit;
use abl_base::Kind;
use abl_base::limits::MAX_NUMBER_MASK_BYTES;

/// Says whether the mask is one for values of the kind: `x(n)` with n from 1 to 999 or a run of `x`
/// for CHARACTER; two words with one `/` between them for LOGICAL; `99/99/99` or `99/99/9999` for
/// DATE; for numbers an optional `-`, then `>`, `z` and commas, then `9` and commas, and for DECIMAL
/// an optional point and `9`s, with at least one sign of a digit, in at most 40 bytes.
#[tactic(auto, unfolding(crate::specs::Masks::mask_is_for))]
pub fn mask_fits(mask: &[u8], kind: Kind) -> bool
    ensures { result ≡ mask_is_for mask.now kind }
{
    match kind {
        Kind::Character => is_text_mask(mask),
        Kind::Integer => is_number_mask(mask, false),
        Kind::Int64 => is_number_mask(mask, false),
        Kind::Decimal => is_number_mask(mask, true),
        Kind::Logical => is_word_mask(mask),
        Kind::Date => is_date_mask(mask),
    }
}

/// A run of `x`, or `x(n)`.
fn is_text_mask(mask: &[u8]) -> bool
    ensures { result ≡ is_text_mask mask.now }
{
    match mask {
        [] => false,
        [only] => is_x(*only),
        [first, second, rest @ ..] => {
            if !is_x(*first) {
                return false;
            }
            if *second == b'(' {
                is_width(rest)
            } else {
                is_x(*second) && are_x(rest)
            }
        }
    }
}

fn is_x(byte: u8) -> bool
    ensures { result ≡ is_x byte }
{
    byte == b'x' || byte == b'X'
}

fn are_x(bytes: &[u8]) -> bool
    ensures { result ≡ list_all is_x bytes.now }
{
    bytes.iter().all(|byte| is_x(*byte))
}

/// One to three digits that are not all zero, and a closing parenthesis.
fn is_width(bytes: &[u8]) -> bool
    ensures { result ≡ is_width bytes.now }
{
    match bytes {
        [a, b] => is_digit(*a) && *a != b'0' && *b == b')',
        [a, b, c] => { is_digit(*a) && is_digit(*b) && !(*a == b'0' && *b == b'0') && *c == b')' }
        [a, b, c, d] => {
            is_digit(*a)
                && is_digit(*b)
                && is_digit(*c)
                && !(*a == b'0' && *b == b'0' && *c == b'0')
                && *d == b')'
        }
        _ => false,
    }
}

/// Two words with one `/` between them.
fn is_word_mask(mask: &[u8]) -> bool
    ensures { result ≡ is_word_mask mask.now }
{
    match mask {
        [] => false,
        [first, rest @ ..] => is_mask_word_byte(*first) && is_second_word(after_word(rest)),
    }
}

fn is_mask_word_byte(byte: u8) -> bool
    ensures { result ≡ is_mask_word_byte byte }
{
    byte != b'/'
}

/// A `/` and a word.
fn is_second_word(bytes: &[u8]) -> bool
    ensures { result ≡ is_second_word bytes.now }
{
    match bytes {
        [] => false,
        [_] => false,
        [_, second, rest @ ..] => is_mask_word_byte(*second) && are_letters(rest),
    }
}

fn are_letters(bytes: &[u8]) -> bool
    ensures { result ≡ list_all is_mask_word_byte bytes.now }
{
    bytes.iter().all(|byte| is_mask_word_byte(*byte))
}

/// What is left after a word.
fn after_word(bytes: &[u8]) -> &[u8]
    ensures { result.now ≡ after_run is_mask_word_byte bytes.now }
{
    let mut rest = bytes;
    while let [first, tail @ ..] = rest {
        if !is_mask_word_byte(*first) {
            break;
        }
        rest = tail;
    }
    rest
}

/// A mask for numbers, with decimals or without.
fn is_number_mask(mask: &[u8], decimals: bool) -> bool
    ensures { result ≡ is_number_mask decimals mask.now }
{
    if mask.len() > MAX_NUMBER_MASK_BYTES {
        return false;
    }
    if !has_digit_sign(mask) {
        return false;
    }
    is_fraction(after_fixed(after_floating(without_minus(mask))), decimals)
}

fn has_digit_sign(mask: &[u8]) -> bool
    ensures { result ≡ list_any is_digit_sign mask.now }
{
    mask.iter().any(|byte| is_digit_sign(*byte))
}

/// A sign of a number mask that denotes a digit.
pub fn is_digit_sign(byte: u8) -> bool
    ensures { result ≡ is_digit_sign byte }
{
    byte == b'>' || byte == b'z' || byte == b'Z' || byte == b'9'
}

fn is_floating(byte: u8) -> bool
    ensures { result ≡ is_floating byte }
{
    byte == b'>' || byte == b'z' || byte == b'Z' || byte == b','
}

fn is_fixed(byte: u8) -> bool
    ensures { result ≡ is_fixed byte }
{
    byte == b'9' || byte == b','
}

/// The text after its `-`, where it has one.
pub fn without_minus(mask: &[u8]) -> &[u8]
    ensures { result.now ≡ without_minus mask.now }
{
    match mask {
        [b'-', rest @ ..] => rest,
        _ => mask,
    }
}

/// What is left after `>`, `z` and commas.
fn after_floating(bytes: &[u8]) -> &[u8]
    ensures { result.now ≡ after_run is_floating bytes.now }
{
    let mut rest = bytes;
    while let [first, tail @ ..] = rest {
        if !is_floating(*first) {
            break;
        }
        rest = tail;
    }
    rest
}

/// What is left after `9` and commas.
fn after_fixed(bytes: &[u8]) -> &[u8]
    ensures { result.now ≡ after_run is_fixed bytes.now }
{
    let mut rest = bytes;
    while let [first, tail @ ..] = rest {
        if !is_fixed(*first) {
            break;
        }
        rest = tail;
    }
    rest
}

/// Nothing more, or with decimals a point and at least one `9`.
fn is_fraction(bytes: &[u8], decimals: bool) -> bool
    ensures { result ≡ is_fraction decimals bytes.now }
{
    match bytes {
        [] => true,
        [_] => false,
        [point, first, rest @ ..] => {
            decimals && *point == b'.' && *first == b'9' && are_nines(rest)
        }
    }
}

fn are_nines(bytes: &[u8]) -> bool
    ensures { result ≡ list_all is_nine bytes.now }
{
    bytes.iter().all(|byte| *byte == b'9')
}

/// `99/99/99` or `99/99/9999`.
fn is_date_mask(mask: &[u8]) -> bool
    ensures { result ≡ is_date_mask mask.now }
{
    same_bytes(mask, b"99/99/99") || same_bytes(mask, b"99/99/9999")
}

/// Says whether two texts have the same bytes.
pub fn same_bytes(a: &[u8], b: &[u8]) -> bool
    ensures { result ≡ same_bytes a.now b.now }
{
    if a.len() != b.len() {
        return false;
    }
    for i in 0..a.len() {
        if a[i] != b[i] {
            return false;
        }
    }
    true
}
