//! Rows that make the areas: headers, batches of notes and slots as `docs/formats.md` has them,
//! 'Stored bytes', and any other bytes.

use crate::disk_rows::areas::Areas;
use crate::disk_rows::words::{byte_of, number, numbers, split_number, u16_of, u32_of};
use std::alloc::{AllocError, Global};
use test_words::bytes_of;

/// The text of a header.
const HEAD: &[u8; 8] = b"ABLBI001";

/// The answer to a row that makes areas: its name and its words.
pub fn answer(
    alloc: Global,
    areas: &mut Areas,
    call: &str,
    words: &str,
) -> Result<String, AllocError> {
    let (area, rest) = split_number(words);
    match call {
        "put" => put(alloc, areas, area, rest)?,
        "batch" => batch(alloc, areas, area, rest)?,
        "slot" => slot(alloc, areas, area, rest)?,
        _ => {
            let numbers = numbers(alloc, rest)?;
            let count = number(&numbers, 0);
            match call {
                "fill" => areas.fill(area, count, byte_of(number(&numbers, 1)))?,
                "cut" => areas.cut(area, count),
                "random" => random(areas, area, count, number(&numbers, 1))?,
                "head" => head(areas, area, count)?,
                "ring" => ring(areas, area, count)?,
                "same" => changes(alloc, areas, area, count, 0)?,
                "distinct" => changes(alloc, areas, area, count, 1)?,
                _ => return String::from_str(alloc, "no row"),
            }
        }
    }
    String::from_str(alloc, "done")
}

/// Puts the bytes of a word at a place.
fn put(alloc: Global, areas: &mut Areas, area: u64, words: &str) -> Result<(), AllocError> {
    let (at, word) = split_number(words);
    areas.put(area, at, &bytes_of(alloc, word.as_bytes())?)
}

/// Puts bytes drawn by a seed to the area's end.
fn random(areas: &mut Areas, area: u64, count: u64, seed: u64) -> Result<(), AllocError> {
    let mut state = seed % 65_521 + 1;
    for _ in 0..count {
        state = state % 2_147_483_647 * 48_271 % 2_147_483_647;
        areas.append(area, &[(state / 65_536 % 256) as u8])?;
    }
    Ok(())
}

/// Puts the header of a generation with an open gate to the area's end.
fn head(areas: &mut Areas, area: u64, generation: u64) -> Result<(), AllocError> {
    areas.append(area, &[1])?;
    areas.append(area, HEAD)?;
    areas.append(area, &generation.to_be_bytes())?;
    areas.fill(area, 15, 0)
}

/// Puts a batch with an open gate to the area's end. A word is a note: `commit:7` of transaction 7, or
/// `7:3:0:1`, a change in transaction 7 of slot 3, from 256 bytes 0 to 256 bytes 1.
fn batch(alloc: Global, areas: &mut Areas, area: u64, words: &str) -> Result<(), AllocError> {
    let mut notes = Vec::new(alloc);
    for word in words.split(' ') {
        let numbers = note_numbers(alloc, word)?;
        if word.starts_with("commit") {
            notes.push(2)?;
            notes.extend_from_slice(&number(&numbers, 0).to_be_bytes())?;
        } else {
            change(&mut notes, &numbers)?;
        }
    }
    put_batch(areas, area, &notes)
}

/// The numbers of a note's word.
fn note_numbers(alloc: Global, word: &str) -> Result<Vec<u64>, AllocError> {
    let mut numbers = Vec::new(alloc);
    for part in word.split(':') {
        if let Ok(number) = part.parse::<u64>() {
            numbers.push(number)?;
        }
    }
    Ok(numbers)
}

/// Adds the note of a change: its transaction, its slot, and the byte of all its 256 before and after.
fn change(notes: &mut Vec<u8>, numbers: &[u64]) -> Result<(), AllocError> {
    notes.push(1)?;
    notes.extend_from_slice(&number(numbers, 0).to_be_bytes())?;
    notes.extend_from_slice(&u32_of(number(numbers, 1)).to_be_bytes())?;
    notes.extend_from_slice(&[byte_of(number(numbers, 2)); 256])?;
    notes.extend_from_slice(&[byte_of(number(numbers, 3)); 256])
}

/// Puts a batch of these notes to the area's end.
fn put_batch(areas: &mut Areas, area: u64, notes: &[u8]) -> Result<(), AllocError> {
    areas.append(area, &[1])?;
    areas.append(area, &u32_of(notes.len() as u64).to_be_bytes())?;
    areas.append(area, notes)
}

/// Puts so many changes in transaction 1 to the area's end, in batches of 1,997. That of number n is of
/// slot n times `step`.
fn changes(
    alloc: Global,
    areas: &mut Areas,
    area: u64,
    count: u64,
    step: u64,
) -> Result<(), AllocError> {
    let mut notes = Vec::new(alloc);
    let mut held = 0u64;
    for n in 0..count {
        change(&mut notes, &[1, n.saturating_mul(step), 0, n % 256])?;
        held = held.saturating_add(1);
        if held == 1997 {
            put_batch(areas, area, &notes)?;
            notes.clear();
            held = 0;
        }
    }
    if held > 0 {
        put_batch(areas, area, &notes)?;
    }
    Ok(())
}

/// Writes a slot of area 0: its kind, the bytes used, the next slot, the total length, the table and
/// the bytes of its content.
fn slot(alloc: Global, areas: &mut Areas, slot: u64, words: &str) -> Result<(), AllocError> {
    let numbers = numbers(alloc, words)?;
    let (_, word) = words.rsplit_once(' ').unwrap_or(("", words));
    let mut content = Vec::new(alloc);
    if numbers.len() == 5 {
        content = bytes_of(alloc, word.as_bytes())?;
    }
    write_slot(areas, slot, &numbers, &content)
}

/// Writes a slot with these numbers in its head.
fn write_slot(
    areas: &mut Areas,
    slot: u64,
    numbers: &[u64],
    content: &[u8],
) -> Result<(), AllocError> {
    let at = slot.saturating_mul(256);
    let used = u16_of(number(numbers, 1)).to_be_bytes();
    let next = u32_of(number(numbers, 2)).to_be_bytes();
    let total = u32_of(number(numbers, 3)).to_be_bytes();
    let table = u16_of(number(numbers, 4)).to_be_bytes();
    areas.put(0, at, &[0; 256])?;
    areas.put(0, at, &[byte_of(number(numbers, 0))])?;
    areas.put(0, at.saturating_add(2), &used)?;
    areas.put(0, at.saturating_add(4), &next)?;
    areas.put(0, at.saturating_add(8), &total)?;
    areas.put(0, at.saturating_add(12), &table)?;
    areas.put(0, at.saturating_add(16), content)
}

/// Puts so many slots to the end of area 0, each a first fragment of one byte whose next slot is the
/// one after it; that of the last is the first of them, which has this number.
fn ring(areas: &mut Areas, first: u64, count: u64) -> Result<(), AllocError> {
    for n in 0..count {
        let next = if n + 1 == count {
            first
        } else {
            first.saturating_add(n + 1)
        };
        let mut bytes = [0u8; 256];
        bytes[0] = if n == 0 { 1 } else { 2 };
        bytes[3] = 240;
        let [a, b, c, d] = u32_of(next).to_be_bytes();
        bytes[4] = a;
        bytes[5] = b;
        bytes[6] = c;
        bytes[7] = d;
        bytes[10] = 117;
        areas.append(0, &bytes)?;
    }
    Ok(())
}
