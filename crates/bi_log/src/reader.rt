//! The notes of a log, read one after the other from an area that may hold any bytes.

ghost use Rattle.std.specs.Prelude.{◌≡◌, ◌≢◌, ◌+◌, ◌<◌, ◌≤◌, ◌^◌, ◌↔◌, ℕ, List, Option, length, IsTrue, IfOk, IfSome, IfNone, OnOk, is_ok};
ghost use Rattle.storage.specs.Disk.{Stays, HasCause};
ghost use Rattle.log_meaning.specs.declared.note.Note.{Note as LogNote};
ghost use Rattle.log_meaning.specs.Bytes.{note_bytes, IsNote};
ghost use Rattle.bi_log.specs.Appending.{Held};
ghost use Rattle.bi_log.specs.Reading.{HasBatches, gate_of, IsInside, IsBroken};
ghost use Rattle.bi_log.specs.Outcomes.{GateAnswer, IsFewBytes, NoteAnswer, HeaderAnswer, FindAnswer};

use crate::header::{Header, header_of};
use crate::reading::{batch_length, first_note};
use log_meaning::Note;
use storage::{Disk, DiskFailed};

/// What is read at a gate.
#[derive(Clone, Copy)]
pub enum AtGate {
    /// The gate is open, and its batch has this number of bytes of notes.
    Open(u32),
    /// The gate is closed.
    Closed,
    /// The gate is open, and no batch follows it.
    Broken,
}

/// Looks at the gate after the batches that were read. Its clause holds for every log that was read
/// up to there.
pub fn look_at_gate<D: Disk>(disk: &mut D, area: u8, at: u64) -> Result<AtGate, DiskFailed>
    requires area { area < 3 }
    requires at { at + 1024 < 2 ^ 41 }
    ensures ok { IfOk result (λ r. IsTrue (D.observable disk.old) → (log : Held) → HasBatches (D.seen disk.old area) log → at ≡ gate_of log → GateAnswer (D.seen disk.old area) log r) }
    ensures few { IfOk result (λ r. IsFewBytes r) }
    ensures rest { Stays (D.observable disk.old) (D.observable disk.new) (D.seen disk.old) (D.seen disk.new) (D.time disk.old) (D.time disk.new) (D.left disk.old) (D.left disk.new) }
    ensures cause { HasCause (D.failures disk.old) (D.failures disk.new) (is_ok result) }
{
    let mut head = [0u8; 5];
    disk.read(area, at, &mut head)?;
    if head[0] != 1 {
        return Ok(AtGate::Closed);
    }
    let n = batch_length(&head);
    if n == 0 {
        return Ok(AtGate::Broken);
    }
    if n > 1_048_576 {
        return Ok(AtGate::Broken);
    }
    Ok(AtGate::Open(n))
}

/// Reads the next note of an open batch. `None` comes exactly where the bytes there are no note.
/// Its clause holds for every log whose batch was read up to there.
pub fn note_at<D: Disk>(
    disk: &mut D,
    area: u8,
    at: u64,
    left: u32,
) -> Result<Option<Note>, DiskFailed>
    requires area { area < 3 }
    requires at { at + 1024 < 2 ^ 41 }
    ensures ok { IfOk result (λ r. IsTrue (D.observable disk.old) → (log : Held) (part : List LogNote) → HasBatches (D.seen disk.old area) log → IsInside (D.seen disk.old area) log part at left
        → NoteAnswer (D.seen disk.old area) log part at left r) }
    ensures sound { IfOk result (λ r. IfSome r (λ n. IsNote n × (length (note_bytes n) ≤ left))) }
    ensures rest { Stays (D.observable disk.old) (D.observable disk.new) (D.seen disk.old) (D.seen disk.new) (D.time disk.old) (D.time disk.new) (D.left disk.old) (D.left disk.new) }
    ensures cause { HasCause (D.failures disk.old) (D.failures disk.new) (is_ok result) }
{
    let mut bytes = [0u8; 525];
    disk.read(area, at, &mut bytes)?;
    Ok(first_note(&bytes, left))
}

/// The open header of an area, if it has one.
pub fn header_at<D: Disk>(disk: &mut D, area: u8) -> Result<Option<Header>, DiskFailed>
    requires area { area < 3 }
    ensures ok { IfOk result (λ r. IsTrue (D.observable disk.old) → HeaderAnswer (D.seen disk.old area) r) }
    ensures rest { Stays (D.observable disk.old) (D.observable disk.new) (D.seen disk.old) (D.seen disk.new) (D.time disk.old) (D.time disk.new) (D.left disk.old) (D.left disk.new) }
    ensures cause { HasCause (D.failures disk.old) (D.failures disk.new) (is_ok result) }
{
    let mut bytes = [0u8; 32];
    disk.read(area, 0, &mut bytes)?;
    Ok(header_of(&bytes))
}

/// The area of the disk's log, 1 or 2, and its header. `None` comes exactly where neither area has
/// an open header.
pub fn find<D: Disk>(disk: &mut D) -> Result<Option<(u8, Header)>, DiskFailed>
    ensures ok { IfOk result (λ r. IsTrue (D.observable disk.old) → FindAnswer (D.seen disk.old) r) }
    ensures place { IfOk result (λ r. IfSome r (λ found. (1 ≤ found.0) × (found.0 ≤ 2))) }
    ensures rest { Stays (D.observable disk.old) (D.observable disk.new) (D.seen disk.old) (D.seen disk.new) (D.time disk.old) (D.time disk.new) (D.left disk.old) (D.left disk.new) }
    ensures cause { HasCause (D.failures disk.old) (D.failures disk.new) (is_ok result) }
{
    let one = header_at(disk, 1)?;
    let two = header_at(disk, 2)?;
    Ok(newer(one, two))
}

/// The newer of the headers of areas 1 and 2.
fn newer(one: Option<Header>, two: Option<Header>) -> Option<(u8, Header)>
    ensures says { (image : ℕ → List ℕ) → HeaderAnswer (image 1) one → HeaderAnswer (image 2) two → FindAnswer image result }
    ensures place { IfSome result (λ found. (1 ≤ found.0) × (found.0 ≤ 2)) }
{
    match (one, two) {
        (None, None) => None,
        (Some(a), None) => Some((1, a)),
        (None, Some(b)) => Some((2, b)),
        (Some(a), Some(b)) => {
            if b.generation > a.generation {
                Some((2, b))
            } else {
                Some((1, a))
            }
        }
    }
}
