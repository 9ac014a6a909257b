//! References and the files that they include.

ghost use Rattle.std.specs.Prelude.{◌≡◌, ◌+◌, ◌<◌, IfOk, length};
ghost use Rattle.preprocessor.specs.Expansion.{after_file};
ghost use Rattle.preprocessor.specs.Machine.{IsBelow, comes_to, file_ended, file_read, inside_ended, measure, reference_opened, reference_read, under};
ghost use Rattle.preprocessor.specs.Texts.{AreTexts};
ghost use Rattle.preprocessor.specs.declared.texts.Outcome.TheVariants.{Gives};

use crate::braces::closing;
use crate::layer::Layer;
use crate::machine::{Machine, Turn, Waiting, continued};
use crate::mode::Mode;
use crate::places::{moved, past, start};
use crate::reference::{FileReference, Reference, reading};
use crate::slices::{after, front};
use crate::texts::{
    Here, Mark, NamedText, Outcome, State, argument_at, bytes_at, bytes_of, first, found, joined,
    marked, value_of,
};
use crate::words::words;
use abl_base::{Items, Rule};
use std::alloc::{AllocError, Global};

/// The inside of a reference is read before the rest.
#[tactic(auto, using(crate::proofs::Machines::inside_opens, crate::proofs::Machines::never_closed, crate::proofs::Heights::height_push))]
pub fn opened<'a>(
    alloc: Global,
    texts: &'a [NamedText],
    stack: Vec<Waiting<'a>>,
    here: Here,
    layer: Layer<'a>,
    state: State,
    tail: &'a [u8],
) -> Result<Turn<'a>, AllocError>
    requires { length layer.rest.now ≡ length tail.now + 1 }
    ensures is { IfOk result (λ turn. comes_to texts.now turn ≡ under texts.now here stack.entry.items (reference_opened texts.now here layer.entry state tail.now)) }
    ensures falls { IfOk result (λ turn. IsBelow (measure stack.entry.items layer.entry.rest.now state) turn) }
{
    let Some(n) = closing(alloc, tail)? else {
        return Ok(Turn::Ends(Outcome::Breaks(Rule::E1, here.text, layer.at)));
    };
    let inside = moved(layer.at, b'{');
    let outer = Layer {
        mode: layer.mode.beside(),
        start: layer.at,
        at: past(inside, front(tail, n + 1)),
        rest: after(tail, n + 1),
        given: layer.given,
    };
    let mut stack = stack;
    stack.push(Waiting::Inside(outer))?;
    Ok(Turn::Next(Machine {
        stack,
        here,
        layer: Layer {
            mode: Mode::inner(),
            start: inside,
            at: inside,
            rest: front(tail, n),
            given: Items::empty(alloc),
        },
        state,
    }))
}

/// A file is entered.
#[tactic(auto, using(crate::proofs::Machines::too_deep, crate::proofs::Machines::not_there, crate::proofs::Machines::too_long, crate::proofs::Machines::file_enters, crate::proofs::Heights::height_push))]
pub fn included<'a>(
    alloc: Global,
    texts: &'a [NamedText],
    stack: Vec<Waiting<'a>>,
    here: Here,
    layer: Layer<'a>,
    state: State,
    file: FileReference,
) -> Result<Turn<'a>, AllocError>
    requires { AreTexts texts.now }
    ensures is { IfOk result (λ turn. comes_to texts.now turn ≡ under texts.now here stack.entry.items (file_read texts.now here layer.entry state file)) }
    ensures falls { IfOk result (λ turn. IsBelow (measure stack.entry.items layer.entry.rest.now state + 2) turn) }
{
    if here.left == 0 {
        return Ok(Turn::Ends(Outcome::Breaks(Rule::E5, here.text, layer.start)));
    }
    let Some(text) = found(file.name.as_slice(), texts) else {
        return Ok(Turn::Ends(Outcome::Needs(file.name)));
    };
    let bytes = bytes_at(texts, text);
    if bytes.len() > state.budget {
        return Ok(Turn::Ends(Outcome::Breaks(Rule::E6, here.text, layer.start)));
    }
    let State {
        locals,
        globals,
        branches,
        budget,
    } = state;
    let n = locals.len();
    let inner = Here {
        text,
        arguments: file.arguments,
        left: here.left - 1,
    };
    let inside = State {
        locals: joined(locals, file.definitions)?,
        globals,
        branches: Items::empty(alloc),
        budget: budget - bytes.len(),
    };
    let mut stack = stack;
    stack.push(Waiting::Included(layer, here, n, branches))?;
    Ok(Turn::Next(Machine {
        stack,
        here: inner,
        layer: Layer {
            mode: Mode::plain(),
            start: start(),
            at: start(),
            rest: bytes,
            given: Items::empty(alloc),
        },
        state: inside,
    }))
}

/// The layer's reference says this.
pub fn referred<'a>(
    alloc: Global,
    texts: &'a [NamedText],
    stack: Vec<Waiting<'a>>,
    here: Here,
    layer: Layer<'a>,
    state: State,
    reference: Reference,
) -> Result<Turn<'a>, AllocError>
    requires { AreTexts texts.now }
    ensures is { IfOk result (λ turn. comes_to texts.now turn ≡ under texts.now here stack.entry.items (reference_read texts.now here layer.entry state reference)) }
    ensures falls { IfOk result (λ turn. IsBelow (measure stack.entry.items layer.entry.rest.now state + 2) turn) }
{
    match reference {
        Reference::Faulty => Ok(Turn::Ends(Outcome::Breaks(Rule::E2, here.text, layer.start))),
        Reference::Name(name) => {
            let value = value_of(&state, name.as_slice());
            let extra = marked(alloc, here.text, layer.start, value)?;
            continued(texts, stack, here, layer, state, extra)
        }
        Reference::Number(n) => {
            let value = argument_at(texts, &here, n);
            let extra = marked(alloc, here.text, layer.start, value)?;
            continued(texts, stack, here, layer, state, extra)
        }
        Reference::File(file) => included(alloc, texts, stack, here, layer, state, file),
    }
}

/// The inside of the layer's reference gave this.
pub fn resolved<'a>(
    alloc: Global,
    texts: &'a [NamedText],
    stack: Vec<Waiting<'a>>,
    here: Here,
    layer: Layer<'a>,
    state: State,
    marks: Items<Mark>,
) -> Result<Turn<'a>, AllocError>
    requires { AreTexts texts.now }
    ensures is { IfOk result (λ turn. comes_to texts.now turn ≡ under texts.now here stack.entry.items (inside_ended texts.now here layer.entry (Gives marks state))) }
    ensures falls { IfOk result (λ turn. IsBelow (measure stack.entry.items layer.entry.rest.now state + 2) turn) }
{
    let bytes = bytes_of(alloc, marks.as_slice())?;
    let words = words(alloc, bytes.as_slice())?;
    let reference = reading(alloc, words.as_slice())?;
    referred(alloc, texts, stack, here, layer, state, reference)
}

// What a file defined for itself ends with it.
fn after_file(n: usize, branches: Items<bool>, state: State) -> State
    ensures { result ≡ after_file n branches state }
{
    State {
        locals: first(state.locals, n),
        globals: state.globals,
        branches,
        budget: state.budget,
    }
}

/// The file of the layer's reference gave this.
pub fn left<'a>(
    texts: &'a [NamedText],
    stack: Vec<Waiting<'a>>,
    here: Here,
    layer: Layer<'a>,
    n: usize,
    branches: Items<bool>,
    state: State,
    marks: Items<Mark>,
) -> Result<Turn<'a>, AllocError>
    ensures is { IfOk result (λ turn. comes_to texts.now turn ≡ under texts.now here stack.entry.items (file_ended texts.now here layer.entry n branches (Gives marks state))) }
    ensures falls { IfOk result (λ turn. IsBelow (measure stack.entry.items layer.entry.rest.now state + 1) turn) }
{
    let outer = after_file(n, branches, state);
    continued(texts, stack, here, layer, outer, marks)
}
