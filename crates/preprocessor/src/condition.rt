//! What a condition is: true, false, or none.

ghost use Rattle.std.specs.Prelude.{◌≡◌, ◌≤◌, [], map, IfOk, false};
ghost use Rattle.preprocessor.specs.Names.{lower};
ghost use Rattle.preprocessor.specs.Conditions.{alone, begun_with, compared, compared_with, comparison, defined, defined_name, digit, first_operand, holds, is_close, is_not, is_open, number_at, number_of, operand_of, rest_of, same_operand, second_of, truth, truth_of, turned, without_leading, without_trailing};

use crate::mode::is_digit;
use crate::names::{is_name, lower, same_bytes, same_name};
use crate::texts::{State, defined_number};
use crate::tokens::{Token, tokens};
use abl_base::{Bytes, Items};
use std::alloc::{AllocError, Global};

/// An operand as it is compared.
#[derive(Drop)]
pub enum Operand {
    /// The digits before the point without zeros at their start, and those after it without zeros
    /// at their end.
    Number(Bytes, Bytes),
    /// The bytes of a TEXT, its letters small, without blanks at their end.
    Quoted(Bytes),
}

/// An operand, and how many tokens it has.
#[derive(Drop)]
pub struct Read {
    pub operand: Operand,
    pub tokens: usize,
}

fn without_leading(alloc: Global, dropped: u8, bytes: &[u8]) -> Result<Bytes, AllocError>
    ensures { IfOk result (λ kept. kept ≡ without_leading dropped bytes.now) }
{
    let mut rest = bytes;
    while let [first, tail @ ..] = rest {
        if *first != dropped {
            return Items::of(alloc, rest);
        }
        rest = tail;
    }
    Ok(Items::empty(alloc))
}

fn without_trailing(alloc: Global, dropped: u8, bytes: &[u8]) -> Result<Bytes, AllocError>
    ensures { IfOk result (λ kept. kept ≡ without_trailing dropped [] [] bytes.now) }
{
    let mut kept: Bytes = Items::empty(alloc);
    let mut run: Bytes = Items::empty(alloc);
    let mut rest = bytes;
    while let [first, tail @ ..] = rest {
        if *first == dropped {
            run.push(*first)?;
        } else {
            kept.extend_from_slice(run.as_slice())?;
            kept.push(*first)?;
            run = Items::empty(alloc);
        }
        rest = tail;
    }
    Ok(kept)
}

fn number_of(
    alloc: Global,
    point: bool,
    whole: &[u8],
    fraction: &[u8],
) -> Result<Option<Operand>, AllocError>
    ensures { IfOk result (λ operand. operand ≡ number_of point whole.now fraction.now) }
{
    if whole.len() > 0 && (!point || fraction.len() > 0) {
        let before = without_leading(alloc, b'0', whole)?;
        let after = without_trailing(alloc, b'0', fraction)?;
        Ok(Some(Operand::Number(before, after)))
    } else {
        Ok(None)
    }
}

fn number_at(alloc: Global, word: &[u8]) -> Result<Option<Operand>, AllocError>
    ensures { IfOk result (λ operand. operand ≡ number_at false [] [] word.now) }
{
    let mut point = false;
    let mut whole: Bytes = Items::empty(alloc);
    let mut fraction: Bytes = Items::empty(alloc);
    let mut rest = word;
    while let [first, tail @ ..] = rest {
        if is_digit(*first) {
            if point {
                fraction.push(*first)?;
            } else {
                whole.push(*first)?;
            }
        } else if point {
            return Ok(None);
        } else if *first == b'.' {
            point = true;
        } else {
            return Ok(None);
        }
        rest = tail;
    }
    number_of(alloc, point, whole.as_slice(), fraction.as_slice())
}

fn lowered(alloc: Global, bytes: &[u8]) -> Result<Bytes, AllocError>
    ensures { IfOk result (λ all. all ≡ map lower bytes.now) }
{
    let mut all = Vec::with_capacity(alloc, bytes.len())?;
    for byte in bytes {
        all.push(lower(*byte))?;
    }
    Ok(Items::from_vec(all))
}

fn compared(alloc: Global, text: &[u8]) -> Result<Bytes, AllocError>
    ensures { IfOk result (λ bytes. bytes ≡ compared text.now) }
{
    let kept = without_trailing(alloc, b' ', text)?;
    lowered(alloc, kept.as_slice())
}

fn digit(alloc: Global, n: u8) -> Result<Operand, AllocError>
    requires { n ≤ 9 }
    ensures { IfOk result (λ operand. operand ≡ digit n) }
{
    let before = without_leading(alloc, b'0', &[b'0' + n])?;
    Ok(Operand::Number(before, Items::empty(alloc)))
}

fn alone(operand: Option<Operand>) -> Option<Read>
    ensures { result ≡ alone operand }
{
    match operand {
        Some(operand) => Some(Read { operand, tokens: 1 }),
        None => None,
    }
}

fn is_open(token: &Token) -> bool
    ensures { result ≡ is_open token.now }
{
    match token {
        Token::Open => true,
        _ => false,
    }
}

fn is_close(token: &Token) -> bool
    ensures { result ≡ is_close token.now }
{
    match token {
        Token::Close => true,
        _ => false,
    }
}

fn is_not(token: &Token) -> bool
    ensures { result ≡ is_not token.now }
{
    match token {
        Token::Word(word) => same_name(word.as_slice(), b"not"),
        _ => false,
    }
}

fn defined_name(alloc: Global, state: &State, token: &Token) -> Result<Option<Read>, AllocError>
    ensures { IfOk result (λ read. read ≡ defined_name state.now token.now) }
{
    match token {
        Token::Word(name) => {
            if is_name(name.as_slice()) {
                let operand = digit(alloc, defined_number(state, name.as_slice()))?;
                Ok(Some(Read { operand, tokens: 4 }))
            } else {
                Ok(None)
            }
        }
        _ => Ok(None),
    }
}

fn defined(alloc: Global, state: &State, tokens: &[Token]) -> Result<Option<Read>, AllocError>
    ensures { IfOk result (λ read. read ≡ defined state.now tokens.now) }
{
    match tokens {
        [open, name, close, ..] => {
            if is_open(open) && is_close(close) {
                defined_name(alloc, state, name)
            } else {
                Ok(None)
            }
        }
        _ => Ok(None),
    }
}

fn first_operand(
    alloc: Global,
    state: &State,
    token: &Token,
    tokens: &[Token],
) -> Result<Option<Read>, AllocError>
    ensures { IfOk result (λ read. read ≡ first_operand state.now token.now tokens.now) }
{
    match token {
        Token::Text(text) => {
            let operand = Operand::Quoted(compared(alloc, text.as_slice())?);
            Ok(Some(Read { operand, tokens: 1 }))
        }
        Token::Word(word) => {
            if same_name(word.as_slice(), b"defined") {
                defined(alloc, state, tokens)
            } else {
                Ok(alone(number_at(alloc, word.as_slice())?))
            }
        }
        _ => Ok(None),
    }
}

fn operand_of(alloc: Global, state: &State, tokens: &[Token]) -> Result<Option<Read>, AllocError>
    ensures { IfOk result (λ read. read ≡ operand_of state.now tokens.now) }
{
    match tokens {
        [] => Ok(None),
        [first, tail @ ..] => first_operand(alloc, state, first, tail),
    }
}

fn holds(operand: &Operand) -> Option<bool>
    ensures { result ≡ holds operand.now }
{
    match operand {
        Operand::Number(whole, fraction) => Some(whole.len() > 0 || fraction.len() > 0),
        Operand::Quoted(_) => None,
    }
}

fn same_operand(first: &Operand, second: &Operand) -> Option<bool>
    ensures { result ≡ same_operand first.now second.now }
{
    match first {
        Operand::Number(a, b) => match second {
            Operand::Number(c, d) => Some(
                same_bytes(a.as_slice(), c.as_slice()) && same_bytes(b.as_slice(), d.as_slice()),
            ),
            Operand::Quoted(_) => None,
        },
        Operand::Quoted(a) => match second {
            Operand::Number(_, _) => None,
            Operand::Quoted(b) => Some(same_bytes(a.as_slice(), b.as_slice())),
        },
    }
}

fn turned(negated: bool, truth: Option<bool>) -> Option<bool>
    ensures { result ≡ turned negated truth }
{
    match truth {
        Some(truth) => { if negated { Some(!truth) } else { Some(truth) } }
        None => None,
    }
}

fn compared_with(first: &Operand, tokens: &[Token], second: Option<Read>) -> Option<bool>
    ensures { result ≡ compared_with first.now tokens.now second }
{
    match second {
        Some(second) => {
            if tokens.len() == second.tokens {
                same_operand(first, &second.operand)
            } else {
                None
            }
        }
        None => None,
    }
}

fn second_of(
    alloc: Global,
    state: &State,
    first: &Operand,
    token: &Token,
    tokens: &[Token],
) -> Result<Option<bool>, AllocError>
    ensures { IfOk result (λ answer. answer ≡ second_of state.now first.now token.now tokens.now) }
{
    match token {
        Token::Equal => {
            let second = operand_of(alloc, state, tokens)?;
            Ok(compared_with(first, tokens, second))
        }
        Token::Unequal => {
            let second = operand_of(alloc, state, tokens)?;
            Ok(turned(true, compared_with(first, tokens, second)))
        }
        _ => Ok(None),
    }
}

fn rest_of(
    alloc: Global,
    state: &State,
    first: &Operand,
    tokens: &[Token],
) -> Result<Option<bool>, AllocError>
    ensures { IfOk result (λ answer. answer ≡ rest_of state.now first.now tokens.now) }
{
    match tokens {
        [] => Ok(holds(first)),
        [token, tail @ ..] => second_of(alloc, state, first, token, tail),
    }
}

fn comparison(alloc: Global, state: &State, tokens: &[Token]) -> Result<Option<bool>, AllocError>
    ensures { IfOk result (λ answer. answer ≡ comparison state.now tokens.now) }
{
    match operand_of(alloc, state, tokens)? {
        Some(first) => {
            let rest = tokens.get(first.tokens..).unwrap_or(&[]);
            rest_of(alloc, state, &first.operand, rest)
        }
        None => Ok(None),
    }
}

fn truth_of(alloc: Global, state: &State, tokens: &[Token]) -> Result<Option<bool>, AllocError>
    ensures { IfOk result (λ answer. answer ≡ truth_of state.now tokens.now) }
{
    match tokens {
        [] => Ok(None),
        [first, tail @ ..] => {
            if is_not(first) {
                Ok(turned(true, comparison(alloc, state, tail)?))
            } else {
                comparison(alloc, state, tokens)
            }
        }
    }
}

/// Says whether the condition holds; `None` where it is of no form. Out of memory is the only
/// error.
pub fn truth(alloc: Global, state: &State, bytes: &[u8]) -> Result<Option<bool>, AllocError>
    ensures { IfOk result (λ answer. answer ≡ truth state.now bytes.now) }
{
    let tokens = tokens(alloc, bytes)?;
    truth_of(alloc, state, tokens.as_slice())
}
