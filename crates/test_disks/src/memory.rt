//! Rows of calls on a disk in memory, as `write 0 1 XY`, and of what a crash of it leaves, as
//! `crash 3 old 46 new`. `disk TEXT CALLS BYTES LENGTH FAIL ..` begins with another disk: area 0 has the
//! bytes of the text, and the calls of these numbers fail.

use crate::disk_rows::{Areas, disk_of, number, numbers, stopped};
use crate::files::call_answer;
use mem_disk::{MemDisk, Room, Torn};
use std::alloc::{AllocError, Global};
use test_words::push_bytes;

/// The answer to a row.
pub fn answer(alloc: Global, disk: &mut Option<MemDisk>, row: &str) -> Result<String, AllocError> {
    let (call, words) = row.split_once(' ').unwrap_or((row, ""));
    if call == "disk" {
        *disk = made(alloc, words)?;
        return String::from_str(alloc, "done");
    }
    let Some(disk) = disk else {
        return String::from_str(alloc, "no disk");
    };
    match call {
        "crash" => crashed(alloc, disk, words),
        "effects" => effects(alloc, disk),
        _ => call_answer(alloc, disk, call, words),
    }
}

/// The disk of these words: its text, its room, and the numbers of the calls that fail.
fn made(alloc: Global, words: &str) -> Result<Option<MemDisk>, AllocError> {
    let (text, rest) = words.split_once(' ').unwrap_or((words, ""));
    let mut areas = Areas::empty(alloc);
    areas.append(0, text.as_bytes())?;
    let numbers = numbers(alloc, rest)?;
    let room = Room {
        calls: number(&numbers, 0),
        bytes: number(&numbers, 1),
        length: number(&numbers, 2),
    };
    let fails = numbers.get(3..).unwrap_or(&[]);
    disk_of(alloc, &areas.images(alloc)?, &room, fails)
}

/// Areas 0 and 1 after a crash at a moment, where the writes that were not synced became so.
fn crashed(alloc: Global, disk: &MemDisk, words: &str) -> Result<String, AllocError> {
    let (moment, words) = words.split_once(' ').unwrap_or((words, ""));
    let mut torn = Vec::new(alloc);
    for word in words.split_whitespace() {
        torn.push(torn_of(word))?;
    }
    let images = stopped(disk, moment.parse::<u64>().unwrap_or(u64::MAX), &torn)?;
    let mut text = String::new(alloc);
    push_bytes(&mut text, images.d0.as_slice())?;
    text.push(' ')?;
    push_bytes(&mut text, images.b1.as_slice())?;
    Ok(text)
}

/// What a write became: `old`, `new`, or this byte throughout.
fn torn_of(word: &str) -> Torn {
    match word {
        "old" => Torn::Old,
        "new" => Torn::New,
        _ => Torn::Fill(word.parse::<u8>().unwrap_or(0)),
    }
}

/// What each write and each sync did.
fn effects(alloc: Global, disk: &MemDisk) -> Result<String, AllocError> {
    let mut text = String::new(alloc);
    for call in disk.calls() {
        let effect = call.effect;
        text.push_str(format!(in alloc; "{effect:?} ")?.as_str())?;
    }
    text.push_str("end")?;
    Ok(text)
}
