//! Area 0 made longer.

ghost use Rattle.std.specs.Prelude.{◌≡◌, ◌⊎◌, ◌*◌, ◌<◌, ◌≤◌, ◌^◌, ℕ, List, None, length, IsTrue, OnOk, is_ok};
ghost use Rattle.storage.specs.Disk.{Others, HasCause};
ghost use Rattle.log_meaning.specs.steps.Steps.{Image, Run};
ghost use Rattle.log_meaning.specs.declared.note.Note.{Note as LogNote};
ghost use Rattle.log_meaning.specs.LogState.{HasNotesTo, WritesNoted};
ghost use Rattle.slot_area.specs.Area.{view, unwritten, IsKept, IsWhole};

use crate::area_writes::extend;
use crate::slot_area::SlotArea;
use storage::{Disk, DiskFailed};

/// The greater of two ends.
fn later_end(end: u32, next: u32) -> u32
    requires { (end ≤ 2 ^ 20) × (next ≤ 2 ^ 20) }
    ensures later { ((next ≤ end) × (result ≡ end)) ⊎ ((end < next) × (result ≡ next)) }
    ensures small { result ≤ 2 ^ 20 }
{
    if next <= end { end } else { next }
}

impl SlotArea {
    /// Writes zeros to the slots of area 0 from its end up to this one, so that they count. No slot has
    /// a change that area 0 does not have, and each of these slots has a settled note.
    pub fn extend_to<D: Disk>(&mut self, disk: &mut D, next: u32) -> Result<(), DiskFailed>
        requires small { next ≤ 2 ^ 20 }
        requires kept { IsTrue (D.observable disk.old) → IsKept self.old (D.seen disk.old 0) }
        requires written { (k : ℕ) → unwritten self.old k ≡ None }
        ensures same_observable { D.observable disk.new ≡ D.observable disk.old }
        ensures past { Run (D.time disk.old) (D.time disk.new) (D.left disk.old) (D.left disk.new) (Others 0) }
        ensures time { (extent : ℕ) (batches : List (List LogNote)) → ((image : Image) → D.left disk.old (D.time disk.old) image → 256 * extent ≤ length (image 0))
            → ((k : ℕ) → self.old.end ≤ k → k < next → HasNotesTo extent batches k)
            → Run (D.time disk.old) (D.time disk.new) (D.left disk.old) (D.left disk.new) (WritesNoted batches) }
        ensures others { IsTrue (D.observable disk.old) → Others 0 (D.seen disk.old) (D.seen disk.new) }
        ensures cause { HasCause (D.failures disk.old) (D.failures disk.new) (is_ok result) }
        ensures kept { IsTrue (D.observable disk.old) → IsKept self.new (D.seen disk.new 0) }
        ensures whole { OnOk result (IsTrue (D.observable disk.old) → IsWhole self.old.end (D.seen disk.old 0) → IsWhole self.new.end (D.seen disk.new 0)) }
        ensures end { self.old.end ≤ self.new.end }
        ensures reaches { OnOk result (next ≤ self.new.end) }
        ensures view { IsTrue (D.observable disk.old) → (k : ℕ) → view self.new (D.seen disk.new 0) k ≡ view self.old (D.seen disk.old 0) k }
        ensures written { (k : ℕ) → unwritten self.new k ≡ None }
    {
        extend(disk, self.end, next)?;
        let last = later_end(self.end, next);
        self.end = last;
        Ok(())
    }
}
