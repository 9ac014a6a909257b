//! The before-image log on areas 1 and 2 of a disk: a generation is opened, notes are appended in
//! batches after gates, and an area of any bytes is read note by note. Each call says what it
//! leaves of every image, at each of its moments and where a disk call fails
//! (`specs/Appending.antt`, `specs/Generations.antt`), and what it read of an area
//! (`specs/Reading.antt`). It depends on `log_meaning`.
#![tactic(auto)]

ghost use Rattle.std.specs.Prelude.{◌≡◌, ◌⊎◌, ◌+◌, ◌<◌, ◌≤◌, ◌^◌, ◌++◌, ◌∷◌, [], ℕ, List, length, IsTrue, OnOk, is_ok};
ghost use Rattle.storage.specs.Disk.{Others, HasCause};
ghost use Rattle.log_meaning.specs.steps.Steps.{Image, Run, Any};
ghost use Rattle.log_meaning.specs.declared.note.Note.{Note as LogNote};
ghost use Rattle.bi_log.specs.Appending.{Held, with_batch, RestsAt, Appends, IsToBe};
ghost use Rattle.bi_log.specs.Lengths.{WithinLog};

pub mod buffer;
pub mod carrying;
pub mod generation;
pub mod header;
pub mod log;
pub mod note_buffer;
pub mod reader;
pub mod reading;

pub use log::Log;
use log_meaning::steps::write_through;
pub use note_buffer::NoteBuffer;
use storage::{Disk, DiskFailed};

/// Writes a batch and the next closed gate after the closed gate, and opens it. Its clauses hold
/// for every log that the area holds and every batch that these bytes are.
pub fn settle<D: Disk>(disk: &mut D, area: u8, gate: u64, bytes: &[u8]) -> Result<(), DiskFailed>
    requires area { area < 3 }
    requires end { gate + 1 + length bytes.now < 2 ^ 40 }
    ensures same_observable { D.observable disk.new ≡ D.observable disk.old }
    ensures later { D.time disk.old ≤ D.time disk.new }
    ensures past { Run (D.time disk.old) (D.time disk.new) (D.left disk.old) (D.left disk.new) Any }
    ensures time { (held : Held) (batch : List LogNote) → IsToBe (D.left disk.old (D.time disk.old)) area gate bytes.now held batch
        → Run (D.time disk.old) (D.time disk.new) (D.left disk.old) (D.left disk.new) (Appends area held batch) }
    ensures ok { OnOk result ((held : Held) (batch : List LogNote) → IsToBe (D.left disk.old (D.time disk.old)) area gate bytes.now held batch
        → (image : Image) → D.left disk.new (D.time disk.new) image → RestsAt (image area) (with_batch held batch) (gate + length bytes.now)) }
    ensures within { Run (D.time disk.old) (D.time disk.new) (D.left disk.old) (D.left disk.new) (WithinLog (gate + 1 + length bytes.now)) }
    ensures seen { IsTrue (D.observable disk.old) → Others area (D.seen disk.old) (D.seen disk.new) }
    ensures cause { HasCause (D.failures disk.old) (D.failures disk.new) (is_ok result) }
{
    write_through(disk, area, gate + 1, bytes)?;
    write_through(disk, area, gate, &[1])
}
