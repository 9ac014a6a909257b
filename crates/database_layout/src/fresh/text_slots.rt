//! The slots of the text of a schema.

ghost use Rattle.std.specs.Prelude.{◌≡◌, ◌≤◌, ◌<◌, ◌+◌, ◌++◌, ◌∷◌, [], ◌==◌, if◌then◌else◌, length, drop, get_or, OnOk};
ghost use Rattle.abl_values.specs.Rows.{number_bytes, fragments_of};
ghost use Rattle.row_fragments.specs.Fragments.{fragment_bytes, head_bytes, row_bytes};
ghost use Rattle.database_layout.specs.contents.Chains.{part, chain_slot, counted};
ghost use Rattle.database_layout.specs.fresh.Laying.{LayText};

use byteorder::{BigEndian, ByteOrder};
use std::alloc::AllocError;
use storage::Undo;

/// The kind of a slot with a part of a schema's text. (This project's choice.)
const KIND: u8 = 3;

/// Writes the part of the head before the length.
#[tactic(auto, unfolding(abl_values::specs::Rows::number_bytes))]
fn put_head(out: &mut [u8], used: u16, next: u32)
    requires { 8 ≤ length out.old }
    ensures { out.new ≡ head_bytes 3 used next ++ drop 8 out.old }
{
    out[0] = KIND;
    out[1] = 0;
    BigEndian::write_u16(&mut out[2..], used);
    BigEndian::write_u32(&mut out[4..], next);
}

/// Writes the length of the text, and no table.
#[tactic(auto, unfolding(abl_values::specs::Rows::number_bytes))]
fn put_total(out: &mut [u8], total: u32)
    requires { 6 ≤ length out.old }
    ensures { out.new ≡ row_bytes total 0 ++ drop 6 out.old }
{
    BigEndian::write_u32(out, total);
    BigEndian::write_u16(&mut out[4..], 0);
}

/// Writes the content.
fn put_content(out: &mut [u8], content: &[u8])
    requires { length content.now ≤ length out.old }
    ensures { out.new ≡ content.now ++ drop (length content.now) out.old }
{
    out[..content.len()].copy_from_slice(content);
}

/// A slot with a part of a text.
fn fragment(next: u32, total: u32, content: &[u8]) -> [u8; 256]
    requires { length content.now ≤ 240 }
    ensures { result ≡ fragment_bytes 3 next total 0 content.now }
{
    let mut slot = [0u8; 256];
    put_head(&mut slot, content.len() as u16, next);
    put_total(&mut slot[8..], total);
    put_content(&mut slot[16..], content);
    slot
}

/// How many slots a text of this many bytes takes.
pub fn slot_count(bytes: usize) -> u32
    requires { bytes ≤ 1048576 }
    ensures few { result ≤ 4370 }
    ensures is { result ≡ fragments_of bytes }
{
    if bytes <= 240 {
        1
    } else {
        ((bytes + 239) / 240) as u32
    }
}

/// The part of 240 bytes with this number, counted from 0.
fn part_of(text: &[u8], i: u32) -> &[u8]
    requires { i < 5000 }
    ensures { result.now ≡ part i text.now }
{
    let from = 240 * i as usize;
    if text.len() <= from {
        return &[];
    }
    if text.len() - from <= 240 {
        return &text[from..];
    }
    &text[from..from + 240]
}

/// The slot after the one with this part, or 0 where it is the last of `count` slots.
fn next_slot(i: u32, count: u32) -> u32
    requires { i < 5000 }
    ensures { result ≡ get_or (counted 1 count) (i + 1) 0 }
{
    if i + 1 < count { i + 2 } else { 0 }
}

/// The length that the slot with this part has: the first slot has that of the text.
fn total_of(i: u32, bytes: u32) -> u32
    ensures { result ≡ (if i == 0 then bytes else 0) }
{
    if i == 0 { bytes } else { 0 }
}

/// The slot with the part of this number, counted from 0, of a text that takes `count` slots. It takes
/// no memory. (The form of the slots is this project's choice.)
pub fn text_slot(text: &[u8], i: u32, count: u32) -> [u8; 256]
    requires short { length text.now ≤ 1048576 }
    requires within { i < 5000 }
    ensures { result ≡ chain_slot 3 3 0 (counted 1 count) text.now i }
{
    let content = part_of(text, i);
    let next = next_slot(i, count);
    let total = total_of(i, text.len() as u32);
    fragment(next, total, content)
}

/// Adds the slots of a text.
pub fn push_text(slots: &mut Vec<Undo>, text: &[u8]) -> Result<(), AllocError>
    requires empty { slots.old.items ≡ [] }
    requires short { length text.now ≤ 1048576 }
    ensures ok { OnOk result (LayText text.now (fragments_of (length text.now)) (fragments_of (length text.now)) slots.new.items) }
{
    let count = slot_count(text.len());
    let mut i: u32 = 0;
    'parts: while i < count {
        let slot = Undo {
            slot: i + 1,
            old: text_slot(text, i, count),
        };
        slots.push(slot)?;
        i += 1;
    }
    Ok(())
}
