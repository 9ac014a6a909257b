//! Slots read and changed.

ghost use Rattle.std.specs.Prelude.{◌≡◌, ◌≢◌, ◌*◌, ◌<◌, ◌≤◌, ◌^◌, ℕ, List, true, Some, None, length, IsTrue, OnOk, OnErr, is_ok};
ghost use Rattle.storage.specs.Disk.{Others, HasCause};
ghost use Rattle.storage.specs.Slots.{put};
ghost use Rattle.log_meaning.specs.steps.Steps.{Image, Run};
ghost use Rattle.log_meaning.specs.declared.note.Note.{Note as LogNote};
ghost use Rattle.log_meaning.specs.LogState.{WritesNoted};
ghost use Rattle.slot_area.specs.Area.{view, unwritten, IsKept, IsWhole, is_ready, AreNoted, StaysOrEnds};

use crate::frame::Frame;
use crate::slot_area::SlotArea;
use storage::{Disk, DiskFailed};

impl SlotArea {
    /// Reads the slot's bytes. Where another slot's frame is needed for it, and is changed, its bytes
    /// are written to area 0 first.
    pub fn read_slot<D: Disk>(
        &mut self,
        disk: &mut D,
        settled: u64,
        slot: u32,
        into: &mut [u8; 256],
    ) -> Result<(), DiskFailed>
        requires slot { slot < 2 ^ 20 }
        requires ready { is_ready self.old settled slot ≡ true }
        requires kept { IsTrue (D.observable disk.old) → IsKept self.old (D.seen disk.old 0) }
        ensures same_observable { D.observable disk.new ≡ D.observable disk.old }
        ensures past { Run (D.time disk.old) (D.time disk.new) (D.left disk.old) (D.left disk.new) (Others 0) }
        ensures time { (extent : ℕ) (batches : List (List LogNote)) → extent ≤ self.old.end → ((image : Image) → D.left disk.old (D.time disk.old) image → 256 * extent ≤ length (image 0))
            → AreNoted self.old settled extent batches
            → Run (D.time disk.old) (D.time disk.new) (D.left disk.old) (D.left disk.new) (WritesNoted batches) }
        ensures others { IsTrue (D.observable disk.old) → Others 0 (D.seen disk.old) (D.seen disk.new) }
        ensures cause { HasCause (D.failures disk.old) (D.failures disk.new) (is_ok result) }
        ensures kept { IsTrue (D.observable disk.old) → IsKept self.new (D.seen disk.new 0) }
        ensures whole { OnOk result (IsTrue (D.observable disk.old) → IsWhole self.old.end (D.seen disk.old 0) → IsWhole self.new.end (D.seen disk.new 0)) }
        ensures end { self.old.end ≤ self.new.end }
        ensures stored { (k note : ℕ) → unwritten self.old k ≡ Some note → unwritten self.new k ≡ None → k < self.new.end }
        ensures bytes { OnOk result (IsTrue (D.observable disk.old) → into.new ≡ view self.old (D.seen disk.old 0) slot) }
        ensures ready { OnOk result ((later : ℕ) → is_ready self.new later slot ≡ true) }
        ensures view { IsTrue (D.observable disk.old) → (k : ℕ) → view self.new (D.seen disk.new 0) k ≡ view self.old (D.seen disk.old 0) k }
        ensures unwritten { (k : ℕ) → StaysOrEnds (unwritten self.old) (unwritten self.new) k }
    {
        match self.frames.bytes_of(slot) {
            Some(bytes) => {
                *into = bytes;
                Ok(())
            }
            None => {
                let below = self.bytes_below(disk, slot)?;
                let frame = Frame {
                    slot,
                    bytes: below,
                    note: None,
                };
                self.keep(disk, settled, frame)?;
                *into = below;
                Ok(())
            }
        }
    }

    /// Changes the slot's bytes. `note` is the number of the note of this change.
    pub fn put_slot<D: Disk>(
        &mut self,
        disk: &mut D,
        settled: u64,
        slot: u32,
        bytes: &[u8; 256],
        note: u64,
    ) -> Result<(), DiskFailed>
        requires slot { slot < 2 ^ 20 }
        requires ready { is_ready self.old settled slot ≡ true }
        requires kept { IsTrue (D.observable disk.old) → IsKept self.old (D.seen disk.old 0) }
        ensures same_observable { D.observable disk.new ≡ D.observable disk.old }
        ensures past { Run (D.time disk.old) (D.time disk.new) (D.left disk.old) (D.left disk.new) (Others 0) }
        ensures time { (extent : ℕ) (batches : List (List LogNote)) → extent ≤ self.old.end → ((image : Image) → D.left disk.old (D.time disk.old) image → 256 * extent ≤ length (image 0))
            → AreNoted self.old settled extent batches
            → Run (D.time disk.old) (D.time disk.new) (D.left disk.old) (D.left disk.new) (WritesNoted batches) }
        ensures others { IsTrue (D.observable disk.old) → Others 0 (D.seen disk.old) (D.seen disk.new) }
        ensures cause { HasCause (D.failures disk.old) (D.failures disk.new) (is_ok result) }
        ensures kept { IsTrue (D.observable disk.old) → IsKept self.new (D.seen disk.new 0) }
        ensures whole { OnOk result (IsTrue (D.observable disk.old) → IsWhole self.old.end (D.seen disk.old 0) → IsWhole self.new.end (D.seen disk.new 0)) }
        ensures end { self.old.end ≤ self.new.end }
        ensures stored { (k note : ℕ) → unwritten self.old k ≡ Some note → unwritten self.new k ≡ None → k < self.new.end }
        ensures view { OnOk result (IsTrue (D.observable disk.old) → (k : ℕ) → view self.new (D.seen disk.new 0) k ≡ put (view self.old (D.seen disk.old 0)) slot bytes.now k) }
        ensures note { OnOk result (unwritten self.new slot ≡ Some note) }
        ensures ready { OnOk result ((later : ℕ) → is_ready self.new later slot ≡ true) }
        ensures unwritten { OnOk result ((k : ℕ) → k ≢ slot → StaysOrEnds (unwritten self.old) (unwritten self.new) k) }
        ensures err_view { OnErr result (IsTrue (D.observable disk.old) → (k : ℕ) → view self.new (D.seen disk.new 0) k ≡ view self.old (D.seen disk.old 0) k) }
        ensures err_unwritten { OnErr result ((k : ℕ) → StaysOrEnds (unwritten self.old) (unwritten self.new) k) }
    {
        let frame = Frame {
            slot,
            bytes: *bytes,
            note: Some(note),
        };
        match self.frames.find(slot) {
            Some(index) => {
                self.frames.change(index, frame);
                Ok(())
            }
            None => self.keep(disk, settled, frame),
        }
    }

    /// Writes each changed slot to area 0, without a sync.
    pub fn write_dirty<D: Disk>(&mut self, disk: &mut D) -> Result<(), DiskFailed>
        requires kept { IsTrue (D.observable disk.old) → IsKept self.old (D.seen disk.old 0) }
        ensures same_observable { D.observable disk.new ≡ D.observable disk.old }
        ensures past { Run (D.time disk.old) (D.time disk.new) (D.left disk.old) (D.left disk.new) (Others 0) }
        ensures time { (extent : ℕ) (batches : List (List LogNote)) → extent ≤ self.old.end → ((image : Image) → D.left disk.old (D.time disk.old) image → 256 * extent ≤ length (image 0))
            → (settled : ℕ) → ((k note : ℕ) → unwritten self.old k ≡ Some note → note ≤ settled) → AreNoted self.old settled extent batches
            → Run (D.time disk.old) (D.time disk.new) (D.left disk.old) (D.left disk.new) (WritesNoted batches) }
        ensures others { IsTrue (D.observable disk.old) → Others 0 (D.seen disk.old) (D.seen disk.new) }
        ensures cause { HasCause (D.failures disk.old) (D.failures disk.new) (is_ok result) }
        ensures kept { IsTrue (D.observable disk.old) → IsKept self.new (D.seen disk.new 0) }
        ensures whole { OnOk result (IsTrue (D.observable disk.old) → IsWhole self.old.end (D.seen disk.old 0) → IsWhole self.new.end (D.seen disk.new 0)) }
        ensures end { self.old.end ≤ self.new.end }
        ensures stored { (k note : ℕ) → unwritten self.old k ≡ Some note → unwritten self.new k ≡ None → k < self.new.end }
        ensures view { IsTrue (D.observable disk.old) → (k : ℕ) → view self.new (D.seen disk.new 0) k ≡ view self.old (D.seen disk.old 0) k }
        ensures unwritten { (k : ℕ) → StaysOrEnds (unwritten self.old) (unwritten self.new) k }
        ensures written { OnOk result ((k : ℕ) → unwritten self.new k ≡ None) }
    {
        let count = self.frames.count();
        let mut i = 0;
        'frames: while i < count {
            self.write_frame(disk, i)?;
            i += 1;
        }
        Ok(())
    }
}
