//! Slots written to area 0.

ghost use Rattle.std.specs.Prelude.{◌≡◌, ◌*◌, ◌<◌, ◌≤◌, ◌^◌, ℕ, List, length, true, IsTrue, OnOk, is_ok};
ghost use Rattle.storage.specs.Disk.{Others, HasCause};
ghost use Rattle.storage.specs.Slots.{put, wrote, undone};
ghost use Rattle.log_meaning.specs.steps.Steps.{Image, Run};
ghost use Rattle.log_meaning.specs.declared.note.Note.{Note as LogNote};
ghost use Rattle.log_meaning.specs.Images.{slot_of};
ghost use Rattle.log_meaning.specs.LogState.{MayWrite, WritesNoted};
ghost use Rattle.bi_recovery.specs.Reopening.{SameAreas};

use storage::{Disk, DiskFailed, Undo};

/// Writes the slot to area 0. What it promises of the images holds for every log whose notes allow
/// the write.
pub fn write_slot<D: Disk>(disk: &mut D, slot: &Undo) -> Result<(), DiskFailed>
    requires small { slot.now.slot < 2 ^ 20 }
    ensures same_observable { D.observable disk.new ≡ D.observable disk.old }
    ensures past { Run (D.time disk.old) (D.time disk.new) (D.left disk.old) (D.left disk.new) (Others 0) }
    ensures time { (extent : ℕ) (batches : List (List LogNote)) → ((image : Image) → D.left disk.old (D.time disk.old) image → 256 * extent ≤ length (image 0))
        → MayWrite extent batches (256 * slot.now.slot) 256 → Run (D.time disk.old) (D.time disk.new) (D.left disk.old) (D.left disk.new) (WritesNoted batches) }
    ensures reads { OnOk result (IsTrue (D.observable disk.old) → (s : ℕ) → slot_of (D.seen disk.new 0) s ≡ put (slot_of (D.seen disk.old 0)) slot.now.slot slot.now.old s) }
    ensures others { IsTrue (D.observable disk.old) → Others 0 (D.seen disk.old) (D.seen disk.new) }
    ensures cause { HasCause (D.failures disk.old) (D.failures disk.new) (is_ok result) }
{
    disk.write(0, 256 * slot.slot as u64, &slot.old)
}

/// Writes the slots to area 0: of the entries of one slot the first counts.
pub fn write_slots<D: Disk>(disk: &mut D, slots: &[Undo]) -> Result<(), DiskFailed>
    requires small { (s : ℕ) → wrote slots.now s ≡ true → s < 2 ^ 20 }
    ensures same_observable { D.observable disk.new ≡ D.observable disk.old }
    ensures past { Run (D.time disk.old) (D.time disk.new) (D.left disk.old) (D.left disk.new) (Others 0) }
    ensures time { (extent : ℕ) (batches : List (List LogNote)) → ((image : Image) → D.left disk.old (D.time disk.old) image → 256 * extent ≤ length (image 0))
        → ((s : ℕ) → wrote slots.now s ≡ true → MayWrite extent batches (256 * s) 256) → Run (D.time disk.old) (D.time disk.new) (D.left disk.old) (D.left disk.new) (WritesNoted batches) }
    ensures reads { OnOk result (IsTrue (D.observable disk.old) → (s : ℕ) → slot_of (D.seen disk.new 0) s ≡ undone slots.now (slot_of (D.seen disk.old 0)) s) }
    ensures others { IsTrue (D.observable disk.old) → Others 0 (D.seen disk.old) (D.seen disk.new) }
    ensures cause { HasCause (D.failures disk.old) (D.failures disk.new) (is_ok result) }
{
    let mut i = slots.len();
    'slots: while i > 0 {
        i -= 1;
        write_slot(disk, &slots[i])?;
    }
    Ok(())
}

/// Writes the slots to area 0 and syncs it.
pub fn put_back<D: Disk>(disk: &mut D, slots: &[Undo]) -> Result<(), DiskFailed>
    requires small { (s : ℕ) → wrote slots.now s ≡ true → s < 2 ^ 20 }
    ensures same_observable { D.observable disk.new ≡ D.observable disk.old }
    ensures past { Run (D.time disk.old) (D.time disk.new) (D.left disk.old) (D.left disk.new) (Others 0) }
    ensures time { (extent : ℕ) (batches : List (List LogNote)) → ((image : Image) → D.left disk.old (D.time disk.old) image → 256 * extent ≤ length (image 0))
        → ((s : ℕ) → wrote slots.now s ≡ true → MayWrite extent batches (256 * s) 256) → Run (D.time disk.old) (D.time disk.new) (D.left disk.old) (D.left disk.new) (WritesNoted batches) }
    ensures ok { OnOk result ((image : Image) → D.left disk.new (D.time disk.new) image → image 0 ≡ D.seen disk.new 0) }
    ensures reads { OnOk result (IsTrue (D.observable disk.old) → (s : ℕ) → slot_of (D.seen disk.new 0) s ≡ undone slots.now (slot_of (D.seen disk.old 0)) s) }
    ensures others { IsTrue (D.observable disk.old) → Others 0 (D.seen disk.old) (D.seen disk.new) }
    ensures cause { HasCause (D.failures disk.old) (D.failures disk.new) (is_ok result) }
{
    write_slots(disk, slots)?;
    disk.sync(0)
}

/// Syncs all areas. After Ok each image is as the disk reads.
pub fn sync_all<D: Disk>(disk: &mut D) -> Result<(), DiskFailed>
    ensures same_observable { D.observable disk.new ≡ D.observable disk.old }
    ensures time { Run (D.time disk.old) (D.time disk.new) (D.left disk.old) (D.left disk.new) (λ old new. new ≡ old) }
    ensures seen { IsTrue (D.observable disk.old) → D.seen disk.new ≡ D.seen disk.old }
    ensures ok { OnOk result ((image : Image) → D.left disk.new (D.time disk.new) image → SameAreas (D.seen disk.new) image) }
    ensures cause { HasCause (D.failures disk.old) (D.failures disk.new) (is_ok result) }
{
    disk.sync(0)?;
    disk.sync(1)?;
    disk.sync(2)
}
