//! Frames written to area 0 and given to other slots.

ghost use Rattle.std.specs.Prelude.{◌≡◌, ◌≢◌, ◌*◌, ◌<◌, ◌≤◌, ◌^◌, ℕ, List, true, Some, None, length, slice_get, IsTrue, IfOk, OnOk, OnErr, is_ok};
ghost use Rattle.std.specs.List.{list_any};
ghost use Rattle.storage.specs.Disk.{Stays, Others, HasCause};
ghost use Rattle.storage.specs.Slots.{put};
ghost use Rattle.log_meaning.specs.steps.Steps.{Image, Run};
ghost use Rattle.log_meaning.specs.declared.note.Note.{Note as LogNote};
ghost use Rattle.log_meaning.specs.LogState.{WritesNoted, HasNotesTo};
ghost use Rattle.slot_area.specs.declared.frame.Frame.{Frame as OneFrame};
ghost use Rattle.slot_area.specs.Frames.{is_free, SameBut};
ghost use Rattle.slot_area.specs.Held.{frame_in};
ghost use Rattle.slot_area.specs.Area.{below, view, unwritten, IsKept, IsWhole, AreNoted, StaysOrEnds};

use crate::area_writes::write_within;
use crate::frame::Frame;
use crate::slot_area::SlotArea;
use storage::{Disk, DiskFailed};

impl SlotArea {
    /// The bytes of a slot that has no frame.
    pub(crate) fn bytes_below<D: Disk>(
        &self,
        disk: &mut D,
        slot: u32,
    ) -> Result<[u8; 256], DiskFailed>
        requires { slot < 2 ^ 20 }
        ensures bytes { IfOk result (λ bytes. IsTrue (D.observable disk.old) → bytes ≡ below self.now.end (D.seen disk.old 0) slot) }
        ensures rest { Stays (D.observable disk.old) (D.observable disk.new) (D.seen disk.old) (D.seen disk.new) (D.time disk.old) (D.time disk.new) (D.left disk.old) (D.left disk.new) }
        ensures cause { HasCause (D.failures disk.old) (D.failures disk.new) (is_ok result) }
    {
        let mut bytes = [0u8; 256];
        if slot >= self.end {
            return Ok(bytes);
        }
        disk.read(0, 256 * slot as u64, &mut bytes)?;
        Ok(bytes)
    }

    /// Writes the frame at this place to area 0, if it is changed.
    pub(crate) fn write_frame<D: Disk>(
        &mut self,
        disk: &mut D,
        index: usize,
    ) -> Result<(), DiskFailed>
        requires index { index < length self.old.frames.frames.items }
        requires kept { IsTrue (D.observable disk.old) → IsKept self.old (D.seen disk.old 0) }
        ensures same_observable { D.observable disk.new ≡ D.observable disk.old }
        ensures past { Run (D.time disk.old) (D.time disk.new) (D.left disk.old) (D.left disk.new) (Others 0) }
        ensures time { (extent : ℕ) (batches : List (List LogNote)) → extent ≤ self.old.end → ((image : Image) → D.left disk.old (D.time disk.old) image → 256 * extent ≤ length (image 0))
            → ((f : OneFrame) (note : ℕ) → slice_get self.old.frames.frames.items index ≡ Some f → f.note ≡ Some note → HasNotesTo extent batches f.slot)
            → Run (D.time disk.old) (D.time disk.new) (D.left disk.old) (D.left disk.new) (WritesNoted batches) }
        ensures others { IsTrue (D.observable disk.old) → Others 0 (D.seen disk.old) (D.seen disk.new) }
        ensures cause { HasCause (D.failures disk.old) (D.failures disk.new) (is_ok result) }
        ensures kept { IsTrue (D.observable disk.old) → IsKept self.new (D.seen disk.new 0) }
        ensures whole { OnOk result (IsTrue (D.observable disk.old) → IsWhole self.old.end (D.seen disk.old 0) → IsWhole self.new.end (D.seen disk.new 0)) }
        ensures end { self.old.end ≤ self.new.end }
        ensures stored { (k note : ℕ) → unwritten self.old k ≡ Some note → unwritten self.new k ≡ None → k < self.new.end }
        ensures view { IsTrue (D.observable disk.old) → (k : ℕ) → view self.new (D.seen disk.new 0) k ≡ view self.old (D.seen disk.old 0) k }
        ensures unwritten { (k : ℕ) → StaysOrEnds (unwritten self.old) (unwritten self.new) k }
        ensures absent { (k : ℕ) → frame_in self.old.frames k ≡ None → frame_in self.new.frames k ≡ None }
        ensures frames { SameBut index self.old.frames.frames.items self.new.frames.frames.items }
        ensures count { length self.new.frames.frames.items ≡ length self.old.frames.frames.items }
        ensures written { OnOk result ((f : OneFrame) → slice_get self.new.frames.frames.items index ≡ Some f → f.note ≡ None) }
    {
        let frame = self.frames.at(index);
        if frame.note.is_none() {
            return Ok(());
        }
        let end = write_within(disk, self.end, frame.slot, &frame.bytes)?;
        self.end = end;
        self.frames.set_written(index);
        Ok(())
    }

    /// Gives a frame to a slot that has none.
    pub(crate) fn keep<D: Disk>(
        &mut self,
        disk: &mut D,
        settled: u64,
        frame: Frame,
    ) -> Result<(), DiskFailed>
        requires slot { frame.slot < 2 ^ 20 }
        requires absent { frame_in self.old.frames frame.slot ≡ None }
        requires free { list_any (is_free settled) self.old.frames.frames.items ≡ true }
        requires bytes { IsTrue (D.observable disk.old) → frame.note ≡ None → frame.bytes ≡ below self.old.end (D.seen disk.old 0) frame.slot }
        requires kept { IsTrue (D.observable disk.old) → IsKept self.old (D.seen disk.old 0) }
        ensures same_observable { D.observable disk.new ≡ D.observable disk.old }
        ensures past { Run (D.time disk.old) (D.time disk.new) (D.left disk.old) (D.left disk.new) (Others 0) }
        ensures time { (extent : ℕ) (batches : List (List LogNote)) → extent ≤ self.old.end → ((image : Image) → D.left disk.old (D.time disk.old) image → 256 * extent ≤ length (image 0))
            → AreNoted self.old settled extent batches
            → Run (D.time disk.old) (D.time disk.new) (D.left disk.old) (D.left disk.new) (WritesNoted batches) }
        ensures others { IsTrue (D.observable disk.old) → Others 0 (D.seen disk.old) (D.seen disk.new) }
        ensures cause { HasCause (D.failures disk.old) (D.failures disk.new) (is_ok result) }
        ensures kept { IsTrue (D.observable disk.old) → IsKept self.new (D.seen disk.new 0) }
        ensures whole { OnOk result (IsTrue (D.observable disk.old) → IsWhole self.old.end (D.seen disk.old 0) → IsWhole self.new.end (D.seen disk.new 0)) }
        ensures end { self.old.end ≤ self.new.end }
        ensures stored { (k note : ℕ) → unwritten self.old k ≡ Some note → unwritten self.new k ≡ None → k < self.new.end }
        ensures view { OnOk result (IsTrue (D.observable disk.old) → (k : ℕ) → view self.new (D.seen disk.new 0) k ≡ put (view self.old (D.seen disk.old 0)) frame.slot frame.bytes k) }
        ensures frame { OnOk result (frame_in self.new.frames frame.slot ≡ Some frame) }
        ensures unwritten { OnOk result ((k : ℕ) → k ≢ frame.slot → StaysOrEnds (unwritten self.old) (unwritten self.new) k) }
        ensures err_view { OnErr result (IsTrue (D.observable disk.old) → (k : ℕ) → view self.new (D.seen disk.new 0) k ≡ view self.old (D.seen disk.old 0) k) }
        ensures err_unwritten { OnErr result ((k : ℕ) → StaysOrEnds (unwritten self.old) (unwritten self.new) k) }
    {
        match self.frames.free_place(settled) {
            None => unreachable!(),
            Some(index) => {
                self.write_frame(disk, index)?;
                self.frames.replace(index, frame);
                Ok(())
            }
        }
    }
}
