//! One turn of the expansion after another.

ghost use Rattle.std.specs.Prelude.{◌≡◌, ◌+◌, ◌<◌, ◌≤◌, ◌^◌, IfOk, length};
ghost use Rattle.preprocessor.specs.Expansion.{expansion};
ghost use Rattle.preprocessor.specs.Machine.{IsBelow, branch_word, comes_to, meaning, measure, text_word, under, word_read, work_left};
ghost use Rattle.preprocessor.specs.Texts.{AreTexts};

use crate::conditionals::{
    all_ended, condition, conditional, decided, goes_on, in_part, part_ended,
};
use crate::definitions::{line_made, lined};
use crate::directive::Directive;
use crate::layer::Layer;
use crate::limits::{MAX_OPEN_TEXTS, MAX_WORK_BYTES};
use crate::machine::{Machine, Turn, Waiting, copied};
use crate::mode::Mode;
use crate::names::word_length;
use crate::parts::word_in;
use crate::places::{moved, past, start};
use crate::references::{left, opened, resolved};
use crate::slices::{after, front};
use crate::texts::{Here, NamedText, Outcome, State, bytes_at};
use abl_base::{Items, Place, Rule};
use std::alloc::{AllocError, Global};

// A word of a text; these bytes follow it.
#[tactic(auto, using(crate::proofs::Machines::breaks_at))]
fn directed<'a>(
    alloc: Global,
    texts: &'a [NamedText],
    stack: Vec<Waiting<'a>>,
    here: Here,
    layer: Layer<'a>,
    state: State,
    next: Place,
    bytes: &'a [u8],
    word: Directive,
) -> Result<Turn<'a>, AllocError>
    requires lines { next.line + length bytes.now ≤ 2 ^ 30 }
    requires columns { next.column + length bytes.now ≤ 2 ^ 30 }
    requires fewer { length bytes.now < length layer.rest.now }
    ensures is { IfOk result (λ turn. comes_to texts.now turn ≡ under texts.now here stack.entry.items (text_word texts.now here layer.entry next state bytes.now word)) }
    ensures falls { IfOk result (λ turn. IsBelow (measure stack.entry.items layer.entry.rest.now state) turn) }
{
    match word {
        Directive::Scoped => lined(alloc, texts, stack, here, layer, state, next, false, bytes),
        Directive::Global => lined(alloc, texts, stack, here, layer, state, next, true, bytes),
        Directive::If => {
            conditional(
                alloc,
                texts,
                stack,
                here,
                state,
                layer.given,
                layer.at,
                next,
                bytes,
            )
        }
        Directive::ElseIf | Directive::Else => {
            part_ended(
                alloc,
                texts,
                stack,
                here,
                state,
                layer.given,
                layer.at,
                next,
                bytes,
            )
        }
        Directive::EndIf => {
            Ok(all_ended(
                texts,
                stack,
                here,
                state,
                layer.given,
                layer.at,
                next,
                bytes,
            ))
        }
        Directive::Then => Ok(Turn::Ends(Outcome::Breaks(Rule::E3, here.text, layer.at))),
        Directive::Unknown => Ok(Turn::Ends(Outcome::Breaks(Rule::E7, here.text, layer.at))),
    }
}

// The word that ends a part which was not chosen.
#[tactic(auto, using(crate::proofs::Machines::breaks_at))]
fn passed_by<'a>(
    alloc: Global,
    texts: &'a [NamedText],
    stack: Vec<Waiting<'a>>,
    here: Here,
    layer: Layer<'a>,
    state: State,
    next: Place,
    bytes: &'a [u8],
    word: Directive,
) -> Result<Turn<'a>, AllocError>
    requires lines { next.line + length bytes.now ≤ 2 ^ 30 }
    requires columns { next.column + length bytes.now ≤ 2 ^ 30 }
    requires fewer { length bytes.now < length layer.rest.now }
    ensures is { IfOk result (λ turn. comes_to texts.now turn ≡ under texts.now here stack.entry.items (branch_word texts.now here layer.entry next state bytes.now word)) }
    ensures falls { IfOk result (λ turn. IsBelow (measure stack.entry.items layer.entry.rest.now state) turn) }
{
    match word {
        Directive::ElseIf => {
            condition(
                alloc,
                texts,
                stack,
                here,
                state,
                layer.given,
                layer.at,
                next,
                bytes,
            )
        }
        Directive::Else => {
            let inside = in_part(true, state)?;
            Ok(goes_on(
                texts,
                stack,
                here,
                Mode::plain(),
                inside,
                layer.given,
                next,
                bytes,
            ))
        }
        Directive::EndIf => {
            Ok(goes_on(
                texts,
                stack,
                here,
                Mode::plain(),
                state,
                layer.given,
                next,
                bytes,
            ))
        }
        Directive::Then
        | Directive::If
        | Directive::Scoped
        | Directive::Global
        | Directive::Unknown => Ok(Turn::Ends(Outcome::Breaks(Rule::E3, here.text, layer.at))),
    }
}

// A word begins, which this tail follows.
fn worded<'a>(
    alloc: Global,
    texts: &'a [NamedText],
    stack: Vec<Waiting<'a>>,
    here: Here,
    layer: Layer<'a>,
    state: State,
    tail: &'a [u8],
) -> Result<Turn<'a>, AllocError>
    requires { length layer.rest.now ≡ length tail.now + 1 }
    ensures is { IfOk result (λ turn. comes_to texts.now turn ≡ under texts.now here stack.entry.items (word_read texts.now here layer.entry state tail.now)) }
    ensures falls { IfOk result (λ turn. IsBelow (measure stack.entry.items layer.entry.rest.now state) turn) }
{
    let n = word_length(tail);
    let word = word_in(layer.mode, tail);
    let next = past(moved(layer.at, b'&'), front(tail, n));
    let bytes = after(tail, n);
    if layer.mode.branch {
        passed_by(alloc, texts, stack, here, layer, state, next, bytes, word)
    } else {
        directed(alloc, texts, stack, here, layer, state, next, bytes, word)
    }
}

// One more byte, or the end of a layer.
#[tactic(auto, using(crate::proofs::Machines::whole_ends, crate::proofs::Machines::inside_ends, crate::proofs::Machines::file_ends, crate::proofs::Machines::line_ends, crate::proofs::Machines::condition_ends, crate::proofs::Heights::height_push))]
fn advanced<'a>(
    alloc: Global,
    texts: &'a [NamedText],
    machine: Machine<'a>,
) -> Result<Turn<'a>, AllocError>
    requires { AreTexts texts.now }
    ensures is { IfOk result (λ turn. comes_to texts.now turn ≡ meaning texts.now machine.entry) }
    ensures falls { IfOk result (λ turn. IsBelow (work_left machine.entry) turn) }
{
    let Machine {
        mut stack,
        here,
        layer,
        state,
    } = machine;
    match layer.rest {
        [byte, tail @ ..] => {
            if layer.mode.opens(*byte) {
                opened(alloc, texts, stack, here, layer, state, tail)
            } else if layer.mode.begins_word(*byte) {
                worded(alloc, texts, stack, here, layer, state, tail)
            } else {
                copied(texts, stack, here, layer, state, *byte, tail)
            }
        }
        [] => match stack.pop() {
            None => Ok(Turn::Ends(Outcome::Gives(layer.given, state))),
            Some(Waiting::Inside(outer)) => {
                resolved(alloc, texts, stack, here, outer, state, layer.given)
            }
            Some(Waiting::Line(outer, global)) => {
                line_made(alloc, texts, stack, here, outer, global, state, layer.given)
            }
            Some(Waiting::Condition(outer)) => {
                decided(alloc, texts, stack, here, outer, state, layer.given)
            }
            Some(Waiting::Included(outer, below, n, branches)) => {
                left(texts, stack, below, outer, n, branches, state, layer.given)
            }
        },
    }
}

/// What the first of the texts expands to. Out of memory is the only error.
pub fn expansion(alloc: Global, texts: &[NamedText]) -> Result<Outcome, AllocError>
    requires { AreTexts texts.now }
    ensures { IfOk result (λ outcome. outcome ≡ expansion texts.now) }
{
    let source = bytes_at(texts, 0);
    let mut machine = Machine {
        stack: Vec::new(alloc),
        here: Here {
            text: 0,
            arguments: Items::empty(alloc),
            left: MAX_OPEN_TEXTS - 1,
        },
        layer: Layer {
            mode: Mode::plain(),
            start: start(),
            at: start(),
            rest: source,
            given: Items::empty(alloc),
        },
        state: State {
            locals: Items::empty(alloc),
            globals: Items::empty(alloc),
            branches: Items::empty(alloc),
            budget: MAX_WORK_BYTES.saturating_sub(source.len()),
        },
    };
    loop {
        match advanced(alloc, texts, machine)? {
            Turn::Next(next) => machine = next,
            Turn::Ends(outcome) => return Ok(outcome),
        }
    }
}
