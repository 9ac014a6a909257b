//! All notes of a log, read from an area that may hold any bytes.

ghost use Rattle.std.specs.Prelude.{◌≡◌, ◌+◌, ◌<◌, ◌≤◌, ◌^◌, ℕ, List, length, IsTrue, IfOk, IfSome, IsErrOf, All};
ghost use Rattle.storage.specs.Disk.{Stays};
ghost use Rattle.log_meaning.specs.Bytes.{note_bytes, IsNote};
ghost use Rattle.log_meaning.specs.Images.{IsOpened};
ghost use Rattle.bi_recovery.specs.ReadNotes.{ReadAnswer};
ghost use Rattle.bi_recovery.specs.Causes.{HasOpenCause};

use crate::OpenFault;
use bi_log::reader::{AtGate, look_at_gate, note_at};
use log_meaning::Note;
use std::alloc::Global;
use storage::Disk;

/// How many bytes the note has.
pub fn note_len(note: &Note) -> u32
    ensures length { IsNote note.now → result ≡ length (note_bytes note.now) }
    ensures within { (9 ≤ result) × (result ≤ 525) }
{
    match note {
        Note::Change(_) => 525,
        Note::Commit(_) => 9,
    }
}

/// The notes of the log in this area, whose head is open. `None` comes exactly where the area has
/// no notes to its end.
pub fn read_notes<D: Disk>(
    disk: &mut D,
    area: u8,
    alloc: Global,
) -> Result<Option<Vec<Note>>, OpenFault>
    requires area { area < 3 }
    ensures ok { IfOk result (λ r. IsTrue (D.observable disk.old) → (generation : ℕ) → IsOpened (D.seen disk.old area) generation → ReadAnswer (D.seen disk.old area) generation r) }
    ensures sound { IfOk result (λ r. IfSome r (λ notes. All IsNote notes.items)) }
    ensures never { IsErrOf result OpenFault.NotCreated → ⊥ }
    ensures rest { Stays (D.observable disk.old) (D.observable disk.new) (D.seen disk.old) (D.seen disk.new) (D.time disk.old) (D.time disk.new) (D.left disk.old) (D.left disk.new) }
    ensures cause { HasOpenCause (D.failures disk.old) (D.failures disk.new) result }
{
    let mut notes: Vec<Note> = Vec::new(alloc);
    let mut at: u64 = 32;
    let mut left: u32 = 0;
    'notes: loop {
        if left == 0 {
            if at >= 1 << 40 {
                return Ok(Some(notes));
            }
            match look_at_gate(disk, area, at)? {
                AtGate::Closed => return Ok(Some(notes)),
                AtGate::Broken => return Ok(None),
                AtGate::Open(n) => {
                    at += 5;
                    left = n;
                    continue 'notes;
                }
            }
        }
        match note_at(disk, area, at, left)? {
            None => return Ok(None),
            Some(note) => {
                let n = note_len(&note);
                at += n as u64;
                left -= n;
                notes.push(note)?;
            }
        }
    }
}
