//! `&SCOPED-DEFINE` and `&GLOBAL-DEFINE`.

ghost use Rattle.std.specs.Prelude.{◌≡◌, ◌+◌, ◌≤◌, ◌^◌, IfOk, length};
ghost use Rattle.preprocessor.specs.Expansion.{with_one};
ghost use Rattle.preprocessor.specs.Machine.{IsBelow, comes_to, line_ended, line_read, measure, under};
ghost use Rattle.preprocessor.specs.declared.texts.Outcome.TheVariants.{Gives};

use crate::directive::{definition_of, line_length, maker_of};
use crate::layer::Layer;
use crate::machine::{Machine, Turn, Waiting};
use crate::mode::Mode;
use crate::names::Definition;
use crate::places::past;
use crate::slices::{after, front};
use crate::texts::{Here, Mark, NamedText, Outcome, State, bytes_of};
use abl_base::{Items, Place, Rule};
use std::alloc::{AllocError, Global};

// One more definition.
fn with_one(global: bool, state: State, definition: Definition) -> Result<State, AllocError>
    ensures { IfOk result (λ after. after ≡ with_one global state definition) }
{
    let mut state = state;
    if global {
        state.globals.push(definition)?;
    } else {
        state.locals.push(definition)?;
    }
    Ok(state)
}

/// The line of a definition is read before the rest; its word ends at the place `next`.
#[tactic(auto, using(crate::proofs::Machines::line_opens, crate::proofs::Heights::height_push))]
pub fn lined<'a>(
    alloc: Global,
    texts: &'a [NamedText],
    stack: Vec<Waiting<'a>>,
    here: Here,
    layer: Layer<'a>,
    state: State,
    next: Place,
    global: bool,
    bytes: &'a [u8],
) -> Result<Turn<'a>, AllocError>
    requires lines { next.line + length bytes.now ≤ 2 ^ 30 }
    requires columns { next.column + length bytes.now ≤ 2 ^ 30 }
    ensures is { IfOk result (λ turn. comes_to texts.now turn ≡ under texts.now here stack.entry.items (line_read texts.now here layer.entry next state global bytes.now)) }
    ensures falls { IfOk result (λ turn. IsBelow (measure stack.entry.items bytes.now state + 2) turn) }
{
    let k = line_length(bytes);
    let outer = Layer {
        mode: Mode::plain(),
        start: layer.at,
        at: past(next, front(bytes, k)),
        rest: after(bytes, k),
        given: layer.given,
    };
    let mut stack = stack;
    stack.push(Waiting::Line(outer, global))?;
    Ok(Turn::Next(Machine {
        stack,
        here,
        layer: Layer {
            mode: Mode::inner(),
            start: next,
            at: next,
            rest: front(bytes, k),
            given: Items::empty(alloc),
        },
        state,
    }))
}

/// The line of the layer's definition gave this.
#[tactic(auto, using(crate::proofs::Machines::line_named, crate::proofs::Machines::line_unnamed))]
pub fn line_made<'a>(
    alloc: Global,
    texts: &'a [NamedText],
    stack: Vec<Waiting<'a>>,
    here: Here,
    layer: Layer<'a>,
    global: bool,
    state: State,
    marks: Items<Mark>,
) -> Result<Turn<'a>, AllocError>
    ensures is { IfOk result (λ turn. comes_to texts.now turn ≡ under texts.now here stack.entry.items (line_ended texts.now here layer.entry global (Gives marks state))) }
    ensures falls { IfOk result (λ turn. IsBelow (measure stack.entry.items layer.entry.rest.now state + 1) turn) }
{
    let bytes = bytes_of(alloc, marks.as_slice())?;
    let Some(definition) = definition_of(alloc, maker_of(global), bytes.as_slice())? else {
        return Ok(Turn::Ends(Outcome::Breaks(Rule::E7, here.text, layer.start)));
    };
    let state = with_one(global, state, definition)?;
    Ok(Turn::Next(Machine {
        stack,
        here,
        layer: Layer {
            mode: Mode::plain(),
            start: layer.start,
            at: layer.at,
            rest: layer.rest,
            given: layer.given,
        },
        state,
    }))
}
