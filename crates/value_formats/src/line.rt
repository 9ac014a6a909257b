//! The elements of a line of input.

ghost use Rattle.std.specs.Prelude.{◌≡◌, ◌≤◌, ◌<◌, ◌∷◌, IfOk, IsTrue, length};
ghost use Rattle.value_formats.specs.Lines.{after_end, first_line, is_blank, is_input_end, readings, starts_element, starts_end};

use crate::element::Element;
use abl_base::Items;
use std::alloc::{AllocError, Global};

/// A blank or a tab.
fn is_blank(byte: u8) -> bool
    ensures { result ≡ is_blank byte }
{
    byte == b' ' || byte == b'\t'
}

/// Whether the bytes begin with a line feed, or with a carriage return and a line feed.
fn starts_end(bytes: &[u8]) -> bool
    ensures { result ≡ starts_end bytes.now }
{
    match bytes {
        [] => false,
        [b'\n', ..] => true,
        [b'\r', b'\n', ..] => true,
        _ => false,
    }
}

/// What follows the line end at the start of the bytes.
fn after_end(bytes: &[u8]) -> &[u8]
    ensures { result.now ≡ after_end bytes.now }
{
    match bytes {
        [] => bytes,
        [b'\n', rest @ ..] => rest,
        [_] => &[],
        [_, _, rest @ ..] => rest,
    }
}

/// Whether the input is at its end: no byte is left, or its first line is a point alone.
pub fn is_input_end(input: &[u8]) -> bool
    ensures { result ≡ is_input_end input.now }
{
    match input {
        [] => true,
        [only] => *only == b'.',
        [first, rest @ ..] => *first == b'.' && starts_end(rest),
    }
}

/// The elements of the first line of an input, and what follows the line. Out of memory is
/// the only refusal.
#[tactic(auto, unfolding(crate::specs::Lines::first_line))]
pub fn first_line(alloc: Global, input: &[u8]) -> Result<(Vec<Element>, &[u8]), AllocError>
    ensures elements { IfOk result (λ read. read.0.items ≡ (first_line input.now).elements) }
    ensures rest { IfOk result (λ read. read.1.now ≡ (first_line input.now).rest) }
    ensures shorter { IfOk result (λ read. length read.1.now ≤ length input.now) }
{
    let mut elements = Vec::new(alloc);
    let mut rest = input;
    while let [first, tail @ ..] = rest {
        if starts_end(rest) {
            return Ok((elements, after_end(rest)));
        }
        if is_blank(*first) {
            rest = tail;
        } else {
            let (element, after) = element_at(alloc, rest)?;
            elements.push(element)?;
            rest = after;
        }
    }
    Ok((elements, rest))
}

/// The element that begins here, and what follows it.
fn element_at(alloc: Global, bytes: &[u8]) -> Result<(Element, &[u8]), AllocError>
    requires { IsTrue (starts_element bytes.now) }
    ensures elements { IfOk result (λ read. (readings bytes.now).between.elements ≡ read.0 ∷ (readings read.1.now).between.elements) }
    ensures rest { IfOk result (λ read. (readings bytes.now).between.rest ≡ (readings read.1.now).between.rest) }
    ensures shorter { IfOk result (λ read. length read.1.now < length bytes.now) }
{
    match bytes {
        [b'"', tail @ ..] => {
            let (text, after) = quoted(alloc, tail)?;
            Ok((Element::Quoted(Items::from_vec(text)), after))
        }
        _ => {
            let (word, after) = bare(alloc, bytes)?;
            Ok((Element::Bare(Items::from_vec(word)), after))
        }
    }
}

/// The bytes of a bare element, and what follows it.
fn bare(alloc: Global, bytes: &[u8]) -> Result<(Vec<u8>, &[u8]), AllocError>
    ensures word { IfOk result (λ read. read.0.items ≡ (readings bytes.now).in_bare.open_bytes) }
    ensures elements { IfOk result (λ read. (readings read.1.now).between.elements ≡ (readings bytes.now).in_bare.elements) }
    ensures rest { IfOk result (λ read. (readings read.1.now).between.rest ≡ (readings bytes.now).in_bare.rest) }
    ensures shorter { IfOk result (λ read. length read.1.now ≤ length bytes.now) }
    ensures some { IsTrue (starts_element bytes.now) → IfOk result (λ read. length read.1.now < length bytes.now) }
{
    let mut word = Vec::new(alloc);
    let mut rest = bytes;
    while let [first, tail @ ..] = rest {
        if starts_end(rest) || is_blank(*first) {
            break;
        }
        word.push(*first)?;
        rest = tail;
    }
    Ok((word, rest))
}

/// The text of an element after its opening mark, and what follows its closing one.
fn quoted(alloc: Global, bytes: &[u8]) -> Result<(Vec<u8>, &[u8]), AllocError>
    ensures text { IfOk result (λ read. read.0.items ≡ (readings bytes.now).in_quotes.open_bytes) }
    ensures elements { IfOk result (λ read. (readings read.1.now).between.elements ≡ (readings bytes.now).in_quotes.elements) }
    ensures rest { IfOk result (λ read. (readings read.1.now).between.rest ≡ (readings bytes.now).in_quotes.rest) }
    ensures shorter { IfOk result (λ read. length read.1.now ≤ length bytes.now) }
{
    let mut text = Vec::new(alloc);
    let mut rest = bytes;
    while let [first, tail @ ..] = rest {
        if *first != b'"' {
            text.push(*first)?;
            rest = tail;
        } else {
            match tail {
                [b'"', beyond @ ..] => {
                    text.push(b'"')?;
                    rest = beyond;
                }
                _ => return Ok((text, tail)),
            }
        }
    }
    Ok((text, rest))
}
