//! Steps of clients: calls on slots.

use std::alloc::{AllocError, Global};

/// A call on slots. All 256 bytes of a slot that is written are the same.
#[derive(Clone, Copy)]
pub enum Step {
    Begin(u16),
    Write { client: u16, slot: u32, byte: u8 },
    Mark(u16),
    Back(u16),
    Commit(u16),
    Abandon(u16),
}

/// The step of its words, as `write 0 3 7`, a write by client 0 of slot 3 with bytes 7.
fn step_of(words: &str) -> Option<Step> {
    let (verb, rest) = words.split_once(' ').unwrap_or((words, ""));
    let (word, rest) = rest.split_once(' ').unwrap_or((rest, ""));
    let client = word.parse::<u16>().ok()?;
    match verb {
        "begin" => Some(Step::Begin(client)),
        "mark" => Some(Step::Mark(client)),
        "back" => Some(Step::Back(client)),
        "commit" => Some(Step::Commit(client)),
        "abandon" => Some(Step::Abandon(client)),
        "write" => write_of(client, rest),
        _ => None,
    }
}

/// A write of the slot and the byte of these words.
fn write_of(client: u16, words: &str) -> Option<Step> {
    let (slot, byte) = words.split_once(' ')?;
    Some(Step::Write {
        client,
        slot: slot.parse::<u32>().ok()?,
        byte: byte.parse::<u8>().ok()?,
    })
}

/// The steps of a row, with `, ` between; words that are none are passed over.
pub fn steps_of(alloc: Global, words: &str) -> Result<Vec<Step>, AllocError> {
    let mut steps = Vec::new(alloc);
    for part in words.split(',') {
        if let Some(step) = step_of(part.trim()) {
            steps.push(step)?;
        }
    }
    Ok(steps)
}
