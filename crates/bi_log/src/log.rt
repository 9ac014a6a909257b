//! The log: its area, and the notes that are in no batch yet.

ghost use Rattle.std.specs.Prelude.{◌≡◌, ◌≢◌, ◌↔◌, ◌+◌, ◌<◌, ◌≤◌, ◌^◌, ◌++◌, ◌∷◌, [], List, length, IsTrue, IfOk, OnOk, is_ok};
ghost use Rattle.storage.specs.Disk.{Others, HasCause};
ghost use Rattle.log_meaning.specs.steps.Steps.{Run, Any};
ghost use Rattle.log_meaning.specs.declared.note.Note.{Note as LogNote};
ghost use Rattle.log_meaning.specs.declared.note.Note.TheVariants.{Commit as Committed};
ghost use Rattle.log_meaning.specs.Bytes.{IsNote};
ghost use Rattle.bi_log.specs.Appending.{Held, with_batch, Appends};
ghost use Rattle.bi_log.specs.Buffer.{content};
ghost use Rattle.bi_log.specs.Logs.{HasNotes, Keeps};
ghost use Rattle.bi_log.specs.Lengths.{WithinLog};

use crate::buffer::{MAX_BATCH_BYTES, MAX_NOTE_BYTES};
use crate::note_buffer::NoteBuffer;
use crate::settle;
use log_meaning::Note;
use std::alloc::{AllocError, Global};
use storage::{Disk, DiskFailed};

/// The log of a disk, while notes are appended: its area, the place of its next gate, the notes that
/// are in no batch yet, and how many notes were appended and how many of them are in open batches.
#[derive(Drop)]
pub struct Log {
    pub area: u8,
    pub gate: u64,
    pub buffer: NoteBuffer,
    pub appended: u64,
    pub settled: u64,
}

impl Log {
    /// The log of a generation whose next gate is at this place. It takes the memory for its buffer;
    /// no other call takes any.
    pub fn new(area: u8, gate: u64, alloc: Global) -> Result<Log, AllocError>
        ensures place { IfOk result (λ log. (log.area ≡ area) × (log.gate ≡ gate)) }
        ensures counts { IfOk result (λ log. (log.appended ≡ 0) × (log.settled ≡ 0)) }
        ensures notes { IfOk result (λ log. HasNotes log.buffer []) }
    {
        let buffer = NoteBuffer::new(alloc)?;
        Ok(Log {
            area,
            gate,
            buffer,
            appended: 0,
            settled: 0,
        })
    }

    /// How many notes were appended.
    pub fn appended(&self) -> u64
        ensures { result ≡ self.now.appended }
    {
        self.appended
    }

    /// Whether the buffer has no room for one note more.
    pub fn is_full(&self) -> bool
        ensures { IsTrue result ↔ (1048576 < length (content self.now.buffer) + 525) }
    {
        self.buffer.len() + MAX_NOTE_BYTES > MAX_BATCH_BYTES
    }

    /// Whether the buffer has no note.
    pub fn is_empty(&self) -> bool
        ensures { IsTrue result ↔ (length (content self.now.buffer) ≡ 0) }
    {
        self.buffer.len() == 0
    }

    /// Adds a note to the buffer.
    pub fn append(&mut self, note: &Note)
        requires room { length (content self.old.buffer) + 525 ≤ 1048576 }
        requires few { self.old.appended + 1 < 2 ^ 64 }
        ensures notes { (notes : List LogNote) → HasNotes self.old.buffer notes → IsNote note.now → HasNotes self.new.buffer (notes ++ note.now ∷ []) }
        ensures place { (self.new.area ≡ self.old.area) × (self.new.gate ≡ self.old.gate) }
        ensures counts { (self.new.appended ≡ self.old.appended + 1) × (self.new.settled ≡ self.old.settled) }
        ensures some { 0 < length (content self.new.buffer) }
    {
        self.buffer.push(note);
        self.appended += 1;
    }

    /// Adds the commit of this transaction.
    pub fn append_commit(&mut self, tx: u64)
        requires room { length (content self.old.buffer) + 525 ≤ 1048576 }
        requires few { self.old.appended + 1 < 2 ^ 64 }
        ensures notes { (notes : List LogNote) → HasNotes self.old.buffer notes → HasNotes self.new.buffer (notes ++ Committed tx ∷ []) }
        ensures place { (self.new.area ≡ self.old.area) × (self.new.gate ≡ self.old.gate) }
        ensures counts { (self.new.appended ≡ self.old.appended + 1) × (self.new.settled ≡ self.old.settled) }
        ensures some { 0 < length (content self.new.buffer) }
    {
        self.append(&Note::Commit(tx));
    }

    /// Puts the notes of the buffer into an open batch.
    pub fn flush<D: Disk>(&mut self, disk: &mut D) -> Result<(), DiskFailed>
        requires area { self.old.area < 3 }
        requires small { self.old.gate < 2 ^ 39 }
        ensures same_observable { D.observable disk.new ≡ D.observable disk.old }
        ensures later { D.time disk.old ≤ D.time disk.new }
        ensures past { Run (D.time disk.old) (D.time disk.new) (D.left disk.old) (D.left disk.new) Any }
        ensures time { (held : Held) (notes : List LogNote) → Keeps self.old (D.left disk.old (D.time disk.old)) held notes → notes ≢ []
            → Run (D.time disk.old) (D.time disk.new) (D.left disk.old) (D.left disk.new) (Appends self.old.area held notes) }
        ensures ok { OnOk result ((held : Held) (notes : List LogNote) → Keeps self.old (D.left disk.old (D.time disk.old)) held notes → notes ≢ []
            → Keeps self.new (D.left disk.new (D.time disk.new)) (with_batch held notes) []) }
        ensures within { Run (D.time disk.old) (D.time disk.new) (D.left disk.old) (D.left disk.new) (WithinLog (self.old.gate + 6 + length (content self.old.buffer))) }
        ensures area { self.new.area ≡ self.old.area }
        ensures seen { IsTrue (D.observable disk.old) → Others self.old.area (D.seen disk.old) (D.seen disk.new) }
        ensures settled { OnOk result ((self.new.settled ≡ self.old.appended) × (self.new.appended ≡ self.old.appended)) }
        ensures emptied { OnOk result (content self.new.buffer ≡ []) }
        ensures cause { HasCause (D.failures disk.old) (D.failures disk.new) (is_ok result) }
    {
        let n = self.buffer.len() as u64;
        settle(disk, self.area, self.gate, self.buffer.sealed())?;
        self.gate = self.gate + 5 + n;
        self.buffer.clear();
        self.settled = self.appended;
        Ok(())
    }
}
