//! The log of a disk, read once: where it is, and the slots that its notes recover to. Nothing is
//! written, so a caller may look at what these slots are before it recovers the disk by them.

ghost use Rattle.std.specs.Prelude.{◌≡◌, ◌<◌, ◌≤◌, ◌^◌, ℕ, List, true, IsTrue, IfOk, IsErrOf};
ghost use Rattle.storage.specs.Disk.{Stays};
ghost use Rattle.storage.specs.Slots.{wrote};
ghost use Rattle.log_meaning.specs.Images.{IsNewest, IsOpened, Recovers};
ghost use Rattle.bi_recovery.specs.Causes.{HasOpenCause};
ghost use Rattle.bi_recovery.specs.NoteSlots.{IsAscending};
ghost use Rattle.bi_recovery.specs.Reopening.{IsReadAs};

use crate::OpenFault;
use crate::notes_read::read_notes;
use crate::recovered_slots::recovered_slots;
use bi_log::reader::find;
use std::alloc::Global;
use storage::{Disk, Undo};

/// A log that was read: its area, its generation, and the slots that its notes recover to, in
/// ascending order. A slot without a change has none.
#[derive(Drop)]
pub struct ReadLog {
    pub area: u8,
    pub generation: u64,
    pub slots: Vec<Undo>,
    ghost place: { (1 ≤ area) × (area ≤ 2) },
    ghost small: { (s : ℕ) → wrote slots.items s ≡ true → s < 2 ^ 20 },
    ghost ascending: { IsAscending slots.items },
}

/// The log in this area, whose head is open. `NotCreated` comes where it has no notes to its end.
fn read_area<D: Disk>(
    disk: &mut D,
    area: u8,
    generation: u64,
    alloc: Global,
) -> Result<ReadLog, OpenFault>
    requires area { (1 ≤ area) × (area ≤ 2) }
    requires newest { IsTrue (D.observable disk.old) → IsNewest (D.seen disk.old) area generation × IsOpened (D.seen disk.old area) generation }
    ensures ok { IfOk result (λ l. IsTrue (D.observable disk.old) → IsReadAs (D.seen disk.old) l.area l.generation l.slots.items) }
    ensures none { IsErrOf result OpenFault.NotCreated → IsTrue (D.observable disk.old) → (slots : ℕ → List ℕ) → Recovers (D.seen disk.old) slots → ⊥ }
    ensures rest { Stays (D.observable disk.old) (D.observable disk.new) (D.seen disk.old) (D.seen disk.new) (D.time disk.old) (D.time disk.new) (D.left disk.old) (D.left disk.new) }
    ensures cause { HasOpenCause (D.failures disk.old) (D.failures disk.new) result }
{
    match read_notes(disk, area, alloc)? {
        None => Err(OpenFault::NotCreated),
        Some(notes) => {
            let slots = recovered_slots(&notes, alloc)?;
            Ok(ReadLog {
                area,
                generation,
                slots,
            })
        }
    }
}

/// The log of the disk, read. The disk is as before. `NotCreated` comes only where the disk recovers
/// to nothing. It takes about 260 bytes for each slot that has a note, and while it reads more than
/// as much again for each note.
pub fn read_log<D: Disk>(disk: &mut D, alloc: Global) -> Result<ReadLog, OpenFault>
    ensures ok { IfOk result (λ l. IsTrue (D.observable disk.old) → IsReadAs (D.seen disk.old) l.area l.generation l.slots.items) }
    ensures none { IsErrOf result OpenFault.NotCreated → IsTrue (D.observable disk.old) → (slots : ℕ → List ℕ) → Recovers (D.seen disk.old) slots → ⊥ }
    ensures rest { Stays (D.observable disk.old) (D.observable disk.new) (D.seen disk.old) (D.seen disk.new) (D.time disk.old) (D.time disk.new) (D.left disk.old) (D.left disk.new) }
    ensures cause { HasOpenCause (D.failures disk.old) (D.failures disk.new) result }
{
    match find(disk)? {
        None => Err(OpenFault::NotCreated),
        Some((area, head)) => read_area(disk, area, head.generation, alloc),
    }
}
