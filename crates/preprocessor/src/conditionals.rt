//! `&IF`, its conditions and its parts.

ghost use Rattle.std.specs.Prelude.{◌≡◌, ◌+◌, ◌≤◌, ◌^◌, IfOk, false, length, slice_get, true};
ghost use Rattle.preprocessor.specs.Expansion.{after_part, all_ended, branched, condition, conditional, in_part, layer, part_ended, passed_over, skipped};
ghost use Rattle.preprocessor.specs.Machine.{IsBelow, comes_to, condition_ended, measure, under};
ghost use Rattle.preprocessor.specs.Parts.{part_length};
ghost use Rattle.preprocessor.specs.Texts.{last_of};
ghost use Rattle.preprocessor.specs.declared.texts.Outcome.TheVariants.{Gives};

use crate::condition::truth;
use crate::directive::Directive;
use crate::layer::Layer;
use crate::machine::{Machine, Turn, Waiting};
use crate::mode::Mode;
use crate::parts::{part_length, word_at, word_size};
use crate::places::past;
use crate::slices::{after, front};
use crate::texts::{Here, Mark, NamedText, Outcome, State, bytes_of};
use abl_base::{Items, Place, Rule};
use std::alloc::{AllocError, Global};

/// A condition is read before the rest; it begins at the place `next`, and its word is at `start`.
#[tactic(auto, using(crate::proofs::Machines::condition_opens, crate::proofs::Machines::breaks_at, crate::proofs::Heights::height_push))]
pub fn condition<'a>(
    alloc: Global,
    texts: &'a [NamedText],
    stack: Vec<Waiting<'a>>,
    here: Here,
    state: State,
    given: Items<Mark>,
    start: Place,
    next: Place,
    bytes: &'a [u8],
) -> Result<Turn<'a>, AllocError>
    requires lines { next.line + length bytes.now ≤ 2 ^ 30 }
    requires columns { next.column + length bytes.now ≤ 2 ^ 30 }
    ensures is { IfOk result (λ turn. comes_to texts.now turn ≡ under texts.now here stack.entry.items (condition (layer texts.now) here start next state given bytes.now (part_length false bytes.now))) }
    ensures falls { IfOk result (λ turn. IsBelow (measure stack.entry.items bytes.now state + 2) turn) }
{
    let Some(k) = part_length(alloc, false, bytes)? else {
        return Ok(Turn::Ends(Outcome::Breaks(Rule::E3, here.text, start)));
    };
    let outer = Layer {
        mode: Mode::plain(),
        start,
        at: past(next, front(bytes, k)),
        rest: after(bytes, k),
        given,
    };
    let mut stack = stack;
    stack.push(Waiting::Condition(outer))?;
    Ok(Turn::Next(Machine {
        stack,
        here,
        layer: Layer {
            mode: Mode::in_condition(),
            start: next,
            at: next,
            rest: front(bytes, k),
            given: Items::empty(alloc),
        },
        state,
    }))
}

/// An `&IF` has its `&ENDIF` in the same text.
#[tactic(auto, using(crate::proofs::Machines::breaks_at))]
pub fn conditional<'a>(
    alloc: Global,
    texts: &'a [NamedText],
    stack: Vec<Waiting<'a>>,
    here: Here,
    state: State,
    given: Items<Mark>,
    start: Place,
    next: Place,
    bytes: &'a [u8],
) -> Result<Turn<'a>, AllocError>
    requires lines { next.line + length bytes.now ≤ 2 ^ 30 }
    requires columns { next.column + length bytes.now ≤ 2 ^ 30 }
    ensures is { IfOk result (λ turn. comes_to texts.now turn ≡ under texts.now here stack.entry.items (conditional (layer texts.now) here start next state given bytes.now (part_length true bytes.now))) }
    ensures falls { IfOk result (λ turn. IsBelow (measure stack.entry.items bytes.now state + 2) turn) }
{
    match part_length(alloc, true, bytes)? {
        None => Ok(Turn::Ends(Outcome::Breaks(Rule::E3, here.text, start))),
        Some(_) => condition(alloc, texts, stack, here, state, given, start, next, bytes),
    }
}

/// The text goes on at this place with these bytes, in this mode.
pub fn goes_on<'a>(
    texts: &'a [NamedText],
    stack: Vec<Waiting<'a>>,
    here: Here,
    mode: Mode,
    state: State,
    given: Items<Mark>,
    at: Place,
    bytes: &'a [u8],
) -> Turn<'a>
    requires lines { at.line + length bytes.now ≤ 2 ^ 30 }
    requires columns { at.column + length bytes.now ≤ 2 ^ 30 }
    requires comments { mode.comments ≡ 0 }
    ensures is { comes_to texts.now result ≡ under texts.now here stack.entry.items (layer texts.now here at mode state given bytes.now) }
    ensures falls { IsBelow (measure stack.entry.items bytes.now state + 1) result }
{
    Turn::Next(Machine {
        stack,
        here,
        layer: Layer {
            mode,
            start: at,
            at,
            rest: bytes,
            given,
        },
        state,
    })
}

// A part that is not chosen is passed over, up to the word that ends it.
#[tactic(auto, using(crate::proofs::Machines::breaks_at))]
fn passed_over<'a>(
    alloc: Global,
    texts: &'a [NamedText],
    stack: Vec<Waiting<'a>>,
    here: Here,
    state: State,
    given: Items<Mark>,
    start: Place,
    next: Place,
    bytes: &'a [u8],
) -> Result<Turn<'a>, AllocError>
    requires lines { next.line + length bytes.now ≤ 2 ^ 30 }
    requires columns { next.column + length bytes.now ≤ 2 ^ 30 }
    ensures is { IfOk result (λ turn. comes_to texts.now turn ≡ under texts.now here stack.entry.items (passed_over (layer texts.now) here start next state given bytes.now (part_length false bytes.now))) }
    ensures falls { IfOk result (λ turn. IsBelow (measure stack.entry.items bytes.now state + 1) turn) }
{
    let Some(k) = part_length(alloc, false, bytes)? else {
        return Ok(Turn::Ends(Outcome::Breaks(Rule::E3, here.text, start)));
    };
    let at = past(next, front(bytes, k));
    let rest = after(bytes, k);
    Ok(goes_on(
        texts,
        stack,
        here,
        Mode::at_branch(),
        state,
        given,
        at,
        rest,
    ))
}

/// In a part of an `&IF`, which is that of `&ELSE` where `last` is true.
pub fn in_part(last: bool, state: State) -> Result<State, AllocError>
    ensures is { IfOk result (λ inside. inside ≡ in_part last state) }
    ensures same { IfOk result (λ inside. inside.budget ≡ state.budget) }
{
    let mut state = state;
    state.branches.push(last)?;
    Ok(state)
}

// The condition holds, or not, or is none; `&THEN` is at the place `next`.
#[tactic(auto, using(crate::proofs::Machines::breaks_at))]
fn branched<'a>(
    alloc: Global,
    texts: &'a [NamedText],
    stack: Vec<Waiting<'a>>,
    here: Here,
    state: State,
    given: Items<Mark>,
    start: Place,
    next: Place,
    bytes: &'a [u8],
    truth: Option<bool>,
) -> Result<Turn<'a>, AllocError>
    requires lines { next.line + length bytes.now ≤ 2 ^ 30 }
    requires columns { next.column + length bytes.now ≤ 2 ^ 30 }
    ensures is { IfOk result (λ turn. comes_to texts.now turn ≡ under texts.now here stack.entry.items (branched (layer texts.now) here start next state given bytes.now truth)) }
    ensures falls { IfOk result (λ turn. IsBelow (measure stack.entry.items bytes.now state + 1) turn) }
{
    let Some(holds) = truth else {
        return Ok(Turn::Ends(Outcome::Breaks(Rule::E4, here.text, start)));
    };
    let n = word_size(bytes);
    let at = past(next, front(bytes, n));
    let rest = after(bytes, n);
    if holds {
        let inside = in_part(false, state)?;
        Ok(goes_on(texts, stack, here, Mode::plain(), inside, given, at, rest))
    } else {
        passed_over(alloc, texts, stack, here, state, given, start, at, rest)
    }
}

/// The condition of the layer gave this.
#[tactic(auto, using(crate::proofs::Machines::breaks_at))]
pub fn decided<'a>(
    alloc: Global,
    texts: &'a [NamedText],
    stack: Vec<Waiting<'a>>,
    here: Here,
    layer: Layer<'a>,
    state: State,
    marks: Items<Mark>,
) -> Result<Turn<'a>, AllocError>
    ensures is { IfOk result (λ turn. comes_to texts.now turn ≡ under texts.now here stack.entry.items (condition_ended texts.now here layer.entry (Gives marks state))) }
    ensures falls { IfOk result (λ turn. IsBelow (measure stack.entry.items layer.entry.rest.now state + 1) turn) }
{
    match word_at(layer.rest) {
        Directive::Then => {
            let bytes = bytes_of(alloc, marks.as_slice())?;
            let truth = truth(alloc, &state, bytes.as_slice())?;
            branched(
                alloc,
                texts,
                stack,
                here,
                state,
                layer.given,
                layer.start,
                layer.at,
                layer.rest,
                truth,
            )
        }
        Directive::Scoped
        | Directive::Global
        | Directive::If
        | Directive::ElseIf
        | Directive::Else
        | Directive::EndIf
        | Directive::Unknown => Ok(Turn::Ends(Outcome::Breaks(Rule::E3, here.text, layer.at))),
    }
}

fn got(branches: &[bool], i: usize) -> Option<bool>
    ensures { result ≡ slice_get branches.now i }
{
    match branches.get(i) {
        Some(branch) => Some(*branch),
        None => None,
    }
}

// Whether the last `&IF` that is open is in the part of `&ELSE`; `None` where none is open.
#[tactic(auto, using(crate::proofs::Branches::last_got))]
fn last_of(state: &State) -> Option<bool>
    ensures { result ≡ last_of state.now.branches }
{
    let branches = state.branches.as_slice();
    got(branches, branches.len().saturating_sub(1))
}

// The last `&IF` that is open is closed.
#[tactic(auto, using(crate::proofs::Branches::front_taken))]
fn after_part(state: State) -> State
    ensures { result ≡ after_part state }
{
    let mut branches = state.branches.into_vec();
    let n = branches.len().saturating_sub(1);
    branches.truncate(n);
    State {
        locals: state.locals,
        globals: state.globals,
        branches: Items::from_vec(branches),
        budget: state.budget,
    }
}

// After a chosen part all up to `&ENDIF` is passed over.
#[tactic(auto, using(crate::proofs::Machines::breaks_at))]
fn skipped<'a>(
    alloc: Global,
    texts: &'a [NamedText],
    stack: Vec<Waiting<'a>>,
    here: Here,
    state: State,
    given: Items<Mark>,
    start: Place,
    next: Place,
    bytes: &'a [u8],
) -> Result<Turn<'a>, AllocError>
    requires lines { next.line + length bytes.now ≤ 2 ^ 30 }
    requires columns { next.column + length bytes.now ≤ 2 ^ 30 }
    ensures is { IfOk result (λ turn. comes_to texts.now turn ≡ under texts.now here stack.entry.items (skipped (layer texts.now) here start next state given bytes.now (part_length true bytes.now))) }
    ensures falls { IfOk result (λ turn. IsBelow (measure stack.entry.items bytes.now state + 1) turn) }
{
    let Some(k) = part_length(alloc, true, bytes)? else {
        return Ok(Turn::Ends(Outcome::Breaks(Rule::E3, here.text, start)));
    };
    let word = past(next, front(bytes, k));
    let ending = after(bytes, k);
    let n = word_size(ending);
    let at = past(word, front(ending, n));
    let rest = after(ending, n);
    let outer = after_part(state);
    Ok(goes_on(texts, stack, here, Mode::plain(), outer, given, at, rest))
}

/// `&ELSEIF` or `&ELSE` after a chosen part.
#[tactic(auto, using(crate::proofs::Machines::breaks_at))]
pub fn part_ended<'a>(
    alloc: Global,
    texts: &'a [NamedText],
    stack: Vec<Waiting<'a>>,
    here: Here,
    state: State,
    given: Items<Mark>,
    start: Place,
    next: Place,
    bytes: &'a [u8],
) -> Result<Turn<'a>, AllocError>
    requires lines { next.line + length bytes.now ≤ 2 ^ 30 }
    requires columns { next.column + length bytes.now ≤ 2 ^ 30 }
    ensures is { IfOk result (λ turn. comes_to texts.now turn ≡ under texts.now here stack.entry.items (part_ended (layer texts.now) here start next state given bytes.now (last_of state.branches))) }
    ensures falls { IfOk result (λ turn. IsBelow (measure stack.entry.items bytes.now state + 1) turn) }
{
    match last_of(&state) {
        Some(false) => skipped(alloc, texts, stack, here, state, given, start, next, bytes),
        _ => Ok(Turn::Ends(Outcome::Breaks(Rule::E3, here.text, start))),
    }
}

/// `&ENDIF` after a chosen part.
#[tactic(auto, using(crate::proofs::Machines::breaks_at))]
pub fn all_ended<'a>(
    texts: &'a [NamedText],
    stack: Vec<Waiting<'a>>,
    here: Here,
    state: State,
    given: Items<Mark>,
    start: Place,
    next: Place,
    bytes: &'a [u8],
) -> Turn<'a>
    requires lines { next.line + length bytes.now ≤ 2 ^ 30 }
    requires columns { next.column + length bytes.now ≤ 2 ^ 30 }
    ensures is { comes_to texts.now result ≡ under texts.now here stack.entry.items (all_ended (layer texts.now) here start next state given bytes.now (last_of state.branches)) }
    ensures falls { IsBelow (measure stack.entry.items bytes.now state + 1) result }
{
    match last_of(&state) {
        Some(_) => {
            let outer = after_part(state);
            goes_on(texts, stack, here, Mode::plain(), outer, given, next, bytes)
        }
        None => Turn::Ends(Outcome::Breaks(Rule::E3, here.text, start)),
    }
}
