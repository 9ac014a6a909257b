//! The expansion, byte by byte, over a stack of layers that wait.

ghost use Rattle.std.specs.Prelude.{◌≡◌, ◌+◌, ◌<◌, IfOk, length};
ghost use Rattle.preprocessor.specs.Expansion.{fits, spent};
ghost use Rattle.preprocessor.specs.Machine.{IsBelow, byte_copied, comes_to, layer_continued, measure, under};

use crate::layer::Layer;
use crate::limits::MAX_EXPANSION_BYTES;
use crate::mode::next_byte;
use crate::places::moved;
use crate::run::run;
use crate::texts::{Here, Mark, NamedText, Outcome, State};
use abl_base::{Items, Rule};
use std::alloc::AllocError;

/// A layer that waits.
#[derive(Drop)]
pub enum Waiting<'a> {
    /// For the inside of its reference.
    Inside(Layer<'a>),
    /// For the file that its reference includes. It is of this text; so many definitions of open
    /// texts hold in it, and these `&IF`s are open.
    Included(Layer<'a>, Here, usize, Items<bool>),
    /// For the line of its definition, which holds in all that follows or in its text.
    Line(Layer<'a>, bool),
    /// For its condition.
    Condition(Layer<'a>),
}

/// What there is of an expansion.
#[derive(Drop)]
pub struct Machine<'a> {
    pub stack: Vec<Waiting<'a>>,
    pub here: Here,
    pub layer: Layer<'a>,
    pub state: State,
}

/// What follows.
#[derive(Drop)]
pub enum Turn<'a> {
    Next(Machine<'a>),
    Ends(Outcome),
}

/// Says whether n bytes more fit into this expansion, and into the work of the whole.
pub fn fits(state: &State, given: &Items<Mark>, n: usize) -> bool
    ensures { result ≡ fits state.now given.now n }
{
    if given.len() > MAX_EXPANSION_BYTES {
        return false;
    }
    n <= MAX_EXPANSION_BYTES - given.len() && n <= state.budget
}

/// The state after n bytes of work.
pub fn spent(state: State, n: usize) -> State
    ensures { result ≡ spent state n }
{
    State {
        locals: state.locals,
        globals: state.globals,
        branches: state.branches,
        budget: state.budget.saturating_sub(n),
    }
}

/// The layer goes on after what its reference gave.
#[tactic(auto, using(crate::proofs::Machines::continued_goes, crate::proofs::Machines::continued_over))]
pub fn continued<'a>(
    texts: &'a [NamedText],
    stack: Vec<Waiting<'a>>,
    here: Here,
    layer: Layer<'a>,
    state: State,
    extra: Items<Mark>,
) -> Result<Turn<'a>, AllocError>
    ensures is { IfOk result (λ turn. comes_to texts.now turn ≡ under texts.now here stack.entry.items (layer_continued texts.now here layer.entry state extra)) }
    ensures falls { IfOk result (λ turn. IsBelow (measure stack.entry.items layer.entry.rest.now state + 1) turn) }
{
    if !fits(&state, &layer.given, extra.len()) {
        return Ok(Turn::Ends(Outcome::Breaks(Rule::E6, here.text, layer.start)));
    }
    let mut layer = layer;
    layer.given.extend_from_slice(extra.as_slice())?;
    Ok(Turn::Next(Machine {
        stack,
        here,
        layer,
        state: spent(state, extra.len()),
    }))
}

/// A byte that opens no reference and begins no word is given, and the run of such bytes after it.
#[tactic(auto, using(crate::proofs::Machines::copied_goes, crate::proofs::Machines::copied_over))]
pub fn copied<'a>(
    texts: &'a [NamedText],
    stack: Vec<Waiting<'a>>,
    here: Here,
    layer: Layer<'a>,
    state: State,
    byte: u8,
    tail: &'a [u8],
) -> Result<Turn<'a>, AllocError>
    requires { length layer.rest.now ≡ length tail.now + 1 }
    ensures is { IfOk result (λ turn. comes_to texts.now turn ≡ under texts.now here stack.entry.items (byte_copied texts.now here layer.entry state byte tail.now)) }
    ensures falls { IfOk result (λ turn. IsBelow (measure stack.entry.items layer.entry.rest.now state) turn) }
{
    if !fits(&state, &layer.given, 1) {
        return Ok(Turn::Ends(Outcome::Breaks(Rule::E6, here.text, layer.at)));
    }
    let Layer {
        mode,
        start,
        at,
        rest: _,
        mut given,
    } = layer;
    given.push(Mark {
        byte,
        text: here.text,
        place: at,
    })?;
    let next = Layer {
        mode: mode.after(byte, next_byte(tail)),
        start,
        at: moved(at, byte),
        rest: tail,
        given,
    };
    let reached = run(texts, &here, next, spent(state, 1))?;
    Ok(Turn::Next(Machine {
        stack,
        here,
        layer: reached.layer,
        state: reached.state,
    }))
}
