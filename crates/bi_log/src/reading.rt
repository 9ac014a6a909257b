//! A note read from bytes that may be anything.

ghost use Rattle.std.specs.Prelude.{◌≡◌, ◌≢◌, ◌≤◌, ◌<◌, IfSome, IfNone, length, take, drop};
ghost use Rattle.log_meaning.specs.declared.note.Note.{Note as LogNote};
ghost use Rattle.log_meaning.specs.Bytes.{four, note_bytes, IsNote};
ghost use Rattle.bi_log.specs.Reading.{BeginsWith};

use log_meaning::{Change, Note};

/// The length of a batch, after its gate.
pub fn batch_length(head: &[u8; 5]) -> u32
    ensures { four result ≡ take 4 (drop 1 head.now) }
{
    u32::from_be_bytes([head[1], head[2], head[3], head[4]])
}

/// The bytes of two slots.
fn two_slots(bytes: &[u8; 525]) -> ([u8; 256], [u8; 256])
    ensures { (result.0 ≡ take 256 (drop 13 bytes.now)) × (result.1 ≡ take 256 (drop 269 bytes.now)) }
{
    let mut old = [0u8; 256];
    old.copy_from_slice(&bytes[13..269]);
    let mut new = [0u8; 256];
    new.copy_from_slice(&bytes[269..525]);
    (old, new)
}

/// The note that the bytes begin with, where `left` bytes are left in its batch. `None` comes
/// exactly where they begin with none.
pub fn first_note(bytes: &[u8; 525], left: u32) -> Option<Note>
    ensures note { IfSome result (λ n. BeginsWith bytes.now left n) }
    ensures none { IfNone result ((n : LogNote) → BeginsWith bytes.now left n → ⊥) }
{
    if bytes[0] == 1 {
        if left < 525 {
            return None;
        }
        let tx = u64::from_be_bytes([
            bytes[1], bytes[2], bytes[3], bytes[4], bytes[5], bytes[6], bytes[7], bytes[8],
        ]);
        let slot = u32::from_be_bytes([bytes[9], bytes[10], bytes[11], bytes[12]]);
        if slot >= 1_048_576 {
            return None;
        }
        let (old, new) = two_slots(bytes);
        return Some(Note::Change(Change { tx, slot, old, new }));
    }
    if bytes[0] == 2 {
        if left < 9 {
            return None;
        }
        let tx = u64::from_be_bytes([
            bytes[1], bytes[2], bytes[3], bytes[4], bytes[5], bytes[6], bytes[7], bytes[8],
        ]);
        return Some(Note::Commit(tx));
    }
    None
}
