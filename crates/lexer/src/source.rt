//! The tokens of a source.

ghost use Rattle.std.specs.Prelude.{◌+◌, ◌<◌, ◌≤◌, ◌≡◌, ◌^◌, ℕ, length, Err, IfErr, IfNone, IfOk, IfSome};
ghost use Rattle.abl_base.specs.declared.place.Place.{Place};
ghost use Rattle.abl_base.specs.declared.rule.Rule.{Rule};
ghost use Rattle.lexer.specs.Texts.{Breaks, EndsAt, HasTokens, IsBrokenFirst, IsFit, IsRefused, IsNextWord, bytes_of, end_token, place_of, token_of};

use crate::bytes::{piece, rest_from};
use crate::form::Form;
use crate::gap::gap;
use crate::meaning::meaning;
use crate::misfit::misfit;
use crate::place::moved;
use crate::word::word;
use abl_base::{Place, Rule};
use parse_tree::{Meaning, Token, TokenKind, Tokens};
use std::alloc::{AllocError, AllocFailed, Global};

/// Why a source has no tokens.
#[derive(Debug, Drop)]
pub enum LexRefusal {
    /// The first rule of tokens that the source breaks, L1 to L5, and its place.
    Broken { rule: Rule, place: Place },
    /// Out of memory for the tokens.
    NoMemory,
}

impl From<AllocError> for LexRefusal {
    ghost use Rattle.lexer.specs.declared.source.LexRefusal.TheVariants.{NoMemory};

    ghost from_gives = { λ _ e. e ≡ NoMemory };

    fn from(_error: AllocError) -> Self {
        LexRefusal::NoMemory
    }
}

impl<T: Drop> From<AllocFailed<T>> for LexRefusal {
    ghost use Rattle.lexer.specs.declared.source.LexRefusal.TheVariants.{NoMemory};

    ghost from_gives = { λ _ e. e ≡ NoMemory };

    fn from(_error: AllocFailed<T>) -> Self {
        LexRefusal::NoMemory
    }
}

// A lexeme of a source: its form, its first byte and the byte after its last.
#[derive(Clone, Copy)]
struct Found {
    form: Form,
    start: usize,
    end: usize,
}

// The next lexeme after the gap, or none at the end, or the first rule that is broken there.
fn next(text: &[u8], at: usize) -> Result<Option<Found>, (Rule, usize)>
    requires { at ≤ length text.now }
    ensures word { IfOk result (λ found. IfSome found (λ w. IsNextWord text.now at w.form w.start w.end × IsFit w.form (bytes_of text.now w.start w.end))) }
    ensures end { IfOk result (λ found. IfNone found (EndsAt text.now at)) }
    ensures broken { IfErr result (λ e. IsBrokenFirst text.now at e.0 e.1) }
{
    match gap(rest_from(text, at)) {
        Err(n) => Err((Rule::L2, at + n)),
        Ok(n) => {
            let start = at + n;
            if start == text.len() {
                return Ok(None);
            }
            match word(rest_from(text, start)) {
                Err(rule) => Err((rule, start)),
                Ok((form, long)) => fitting(text, at, form, start, start + long),
            }
        }
    }
}

// The lexeme, or the first rule that it breaks.
fn fitting(
    text: &[u8],
    at: usize,
    form: Form,
    start: usize,
    end: usize,
) -> Result<Option<Found>, (Rule, usize)>
    requires within { at ≤ length text.now }
    requires word { IsNextWord text.now at form start end }
    ensures word { IfOk result (λ found. IfSome found (λ w. IsNextWord text.now at w.form w.start w.end × IsFit w.form (bytes_of text.now w.start w.end))) }
    ensures end { IfOk result (λ found. IfNone found (EndsAt text.now at)) }
    ensures broken { IfErr result (λ e. IsBrokenFirst text.now at e.0 e.1) }
{
    match misfit(form, piece(text, start, end)) {
        Some((rule, offset)) => Err((rule, start + offset)),
        None => Ok(Some(Found { form, start, end })),
    }
}

// The token of a lexeme, at its place.
fn token(
    alloc: Global,
    text: &[u8],
    at: usize,
    found: Found,
    place: Place,
) -> Result<Token, AllocError>
    requires small { length text.now + 1 < 2 ^ 32 }
    requires within { at ≤ length text.now }
    requires word { IsNextWord text.now at found.form found.start found.end }
    requires fit { IsFit found.form (bytes_of text.now found.start found.end) }
    requires known { place ≡ place_of text.now found.start }
    ensures { IfOk result (λ t. t ≡ token_of text.now found.form found.start found.end) }
{
    let (kind, meaning) = meaning(alloc, found.form, piece(text, found.start, found.end))?;
    Ok(Token {
        kind,
        start: found.start as u32,
        end: found.end as u32,
        place,
        meaning,
    })
}

// The end token, from a place before the end.
fn end(text: &[u8], place: Place, at: usize) -> Token
    requires small { length text.now + 1 < 2 ^ 32 }
    requires within { at ≤ length text.now }
    requires known { place ≡ place_of text.now at }
    ensures { result ≡ end_token text.now }
{
    Token {
        kind: TokenKind::EndOfSource,
        start: text.len() as u32,
        end: text.len() as u32,
        place: moved(text, place, at, text.len()),
        meaning: Meaning::KindAlone,
    }
}

/// The tokens of the source, or the first rule of L1 to L5 that it breaks, with its line and column.
/// The tokens come exactly where the source breaks no rule, and then they are the only ones that
/// it has. `NoMemory` may be returned in place of either.
pub fn lex(alloc: Global, text: &[u8]) -> Result<Tokens, LexRefusal>
    requires { length text.now + 1 < 2 ^ 32 }
    ensures tokens { IfOk result (λ list. HasTokens text.now list) }
    ensures clean { IfOk result (λ list. (rule : Rule) (spot : ℕ) → Breaks text.now rule spot → ⊥) }
    ensures refused { (rule : Rule) (place : Place) → result ≡ Err (LexRefusal.Broken rule place) → IsRefused text.now rule place }
{
    let mut list = Vec::new(alloc);
    let mut at = 0;
    let mut place = Place { line: 1, column: 1 };
    loop {
        match next(text, at) {
            Err((rule, spot)) => {
                return Err(LexRefusal::Broken {
                    rule,
                    place: moved(text, place, at, spot),
                });
            }
            Ok(None) => {
                list.push(end(text, place, at))?;
                return Ok(Tokens::from_vec(list));
            }
            Ok(Some(found)) => {
                let start = moved(text, place, at, found.start);
                list.push(token(alloc, text, at, found, start)?)?;
                place = moved(text, start, found.start, found.end);
                at = found.end;
            }
        }
    }
}
