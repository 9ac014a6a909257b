//! The notes that are in no batch yet.

ghost use Rattle.std.specs.Prelude.{◌≡◌, ◌+◌, ◌≤◌, ◌<◌, ◌++◌, ◌∷◌, [], length, vec_len, IfOk};
ghost use Rattle.log_meaning.specs.Bytes.{four, note_bytes};
ghost use Rattle.bi_log.specs.Buffer.{content};

use crate::note_buffer::NoteBuffer;
use log_meaning::Note;
use std::alloc::{AllocError, Global};

/// How many bytes of notes a batch has at most.
pub const MAX_BATCH_BYTES: usize = 1_048_576;

/// The longest note.
pub const MAX_NOTE_BYTES: usize = 525;

impl NoteBuffer {
    pub fn new(alloc: Global) -> Result<NoteBuffer, AllocError>
        ensures empty { IfOk result (λ buffer. content buffer ≡ []) }
    {
        let bytes = vec![in alloc; 0u8; 1_048_581]?;
        Ok(NoteBuffer { bytes, used: 0 })
    }

    /// How many bytes of notes there are.
    pub fn len(&self) -> usize
        ensures length { result ≡ length (content self.now) }
        ensures few { result ≤ 1048576 }
    {
        self.used
    }

    fn put(&mut self, piece: &[u8])
        requires room { length (content self.old) + length piece.now ≤ 1048576 }
        ensures { content self.new ≡ content self.old ++ piece.now }
    {
        let at = 4 + self.used;
        self.bytes[at..at + piece.len()].copy_from_slice(piece);
        self.used += piece.len();
    }

    /// Adds a note.
    pub fn push(&mut self, note: &Note)
        requires room { length (content self.old) + 525 ≤ 1048576 }
        ensures { content self.new ≡ content self.old ++ note_bytes note.now }
    {
        match note {
            Note::Change(change) => {
                self.put(&[1]);
                self.put(&change.tx.to_be_bytes());
                self.put(&change.slot.to_be_bytes());
                self.put(&change.old);
                self.put(&change.new);
            }
            Note::Commit(tx) => {
                self.put(&[2]);
                self.put(&tx.to_be_bytes());
            }
        }
    }

    /// The bytes to write after the gate: the rest of the batch, and the next closed gate.
    pub fn sealed(&mut self) -> &[u8]
        ensures { result.now ≡ four (length (content self.old)) ++ content self.old ++ 0 ∷ [] }
    {
        let n = self.used;
        self.bytes[0..4].copy_from_slice(&(n as u32).to_be_bytes());
        self.bytes[4 + n] = 0;
        &self.bytes[0..5 + n]
    }

    /// Removes all notes.
    pub fn clear(&mut self)
        ensures { content self.new ≡ [] }
    {
        self.used = 0;
    }
}
