//! Bytes that are given as they are.

ghost use Rattle.std.specs.Prelude.{◌≡◌, ◌≤◌, ◌+◌, IfOk, false, length, true};
ghost use Rattle.preprocessor.specs.Expansion.{fits};
ghost use Rattle.preprocessor.specs.Machine.{layer_read};
ghost use Rattle.preprocessor.specs.Modes.{begins_word, opens};

use crate::layer::Layer;
use crate::limits::MAX_EXPANSION_BYTES;
use crate::mode::{Mode, next_byte};
use crate::places::moved;
use crate::texts::{Here, Mark, NamedText, State};
use std::alloc::AllocError;

/// A layer, and what is known at its place.
#[derive(Drop)]
pub struct Reached<'a> {
    pub layer: Layer<'a>,
    pub state: State,
}

// Says whether a run ends before this byte, where this many bytes were given and this many may
// still be.
fn stops(mode: Mode, byte: u8, given: usize, budget: usize) -> bool
    ensures closed { result ≡ false → opens mode byte ≡ false }
    ensures wordless { result ≡ false → begins_word mode byte ≡ false }
    ensures given { result ≡ false → given + 1 ≤ MAX_EXPANSION_BYTES }
    ensures left { result ≡ false → 1 ≤ budget }
{
    if mode.opens(byte) {
        true
    } else if mode.begins_word(byte) {
        true
    } else {
        given >= MAX_EXPANSION_BYTES || budget == 0
    }
}

/// Gives the bytes up to the next that opens a reference, begins a word or does not fit.
pub fn run<'a>(
    texts: &[NamedText],
    here: &Here,
    layer: Layer<'a>,
    state: State,
) -> Result<Reached<'a>, AllocError>
    ensures is { IfOk result (λ r. layer_read texts.now here.now r.layer r.state ≡ layer_read texts.now here.now layer.entry state) }
    ensures shorter { IfOk result (λ r. length r.layer.rest.now ≤ length layer.entry.rest.now) }
    ensures cheaper { IfOk result (λ r. r.state.budget ≤ state.budget) }
{
    let Layer {
        mut mode,
        start,
        mut at,
        mut rest,
        mut given,
    } = layer;
    let State {
        locals,
        globals,
        branches,
        mut budget,
    } = state;
    while let [byte, tail @ ..] = rest {
        if stops(mode, *byte, given.len(), budget) {
            break;
        }
        given.push(Mark {
            byte: *byte,
            text: here.text,
            place: at,
        })?;
        mode = mode.after(*byte, next_byte(tail));
        at = moved(at, *byte);
        budget -= 1;
        rest = tail;
    }
    Ok(Reached {
        layer: Layer {
            mode,
            start,
            at,
            rest,
            given,
        },
        state: State {
            locals,
            globals,
            branches,
            budget,
        },
    })
}
