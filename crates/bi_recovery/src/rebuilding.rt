//! The slots of a log put back into area 0, and a new generation over them.

ghost use Rattle.std.specs.Prelude.{◌≡◌, ◌+◌, ◌-◌, ◌*◌, ◌<◌, ◌≤◌, ◌^◌, ℕ, List, [], true, IsTrue, OnOk, is_ok};
ghost use Rattle.storage.specs.Slots.{wrote, undone};
ghost use Rattle.storage.specs.Disk.{HasCause};
ghost use Rattle.log_meaning.specs.steps.Steps.{Image, Run, Any};
ghost use Rattle.log_meaning.specs.declared.note.Note.{Note as LogNote};
ghost use Rattle.log_meaning.specs.Images.{slot_of};
ghost use Rattle.log_meaning.specs.LogState.{MayWrite, LogState};
ghost use Rattle.bi_log.specs.Appending.{fresh, RestsAt};
ghost use Rattle.bi_log.specs.Lengths.{WithinLog};
ghost use Rattle.bi_recovery.specs.Reopening.{SameAreas, SameRecovery, Gives};

use crate::next_generation::next_generation;
use crate::slots_written::put_back;
use storage::{Disk, DiskFailed, Undo};

/// Puts the slots that the notes of the log in this area give into area 0, and opens a generation
/// without notes in the other area. What it promises holds for every log as which the images stand,
/// if its notes give these slots and allow the writes.
pub fn rebuild<D: Disk>(
    disk: &mut D,
    area: u8,
    generation: u64,
    slots: &[Undo],
) -> Result<(), DiskFailed>
    requires area { (1 ≤ area) × (area ≤ 2) }
    requires fits { generation + 1 < 2 ^ 63 }
    requires small { (s : ℕ) → wrote slots.now s ≡ true → s < 2 ^ 20 }
    requires synced { (image : Image) → D.left disk.old (D.time disk.old) image → SameAreas (D.seen disk.old) image }
    ensures same_observable { D.observable disk.new ≡ D.observable disk.old }
    ensures past { Run (D.time disk.old) (D.time disk.new) (D.left disk.old) (D.left disk.new) Any }
    ensures time { (extent : ℕ) (batches : List (List LogNote)) (base : ℕ → List ℕ) → IsTrue (D.observable disk.old)
        → ((image : Image) → D.left disk.old (D.time disk.old) image → LogState area generation extent batches base image) → Gives extent batches slots.now
        → Run (D.time disk.old) (D.time disk.new) (D.left disk.old) (D.left disk.new) SameRecovery }
    ensures ok { OnOk result ((extent : ℕ) (batches : List (List LogNote)) (base : ℕ → List ℕ) → IsTrue (D.observable disk.old)
        → ((image : Image) → D.left disk.old (D.time disk.old) image → LogState area generation extent batches base image) → Gives extent batches slots.now
        → (image : Image) → D.left disk.new (D.time disk.new) image → LogState (3 - area) (generation + 1) extent [] (undone slots.now base) image) }
    ensures zero { OnOk result ((image : Image) → D.left disk.new (D.time disk.new) image → image 0 ≡ D.seen disk.new 0) }
    ensures rests { OnOk result ((image : Image) → D.left disk.new (D.time disk.new) image → RestsAt (image (3 - area)) (fresh (generation + 1)) 32) }
    ensures within { Run (D.time disk.old) (D.time disk.new) (D.left disk.old) (D.left disk.new) (WithinLog 33) }
    ensures cause { HasCause (D.failures disk.old) (D.failures disk.new) (is_ok result) }
{
    put_back(disk, slots)?;
    next_generation(disk, 3 - area, generation + 1)
}
