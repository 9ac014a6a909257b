//! The slots that a disk recovers to, read.

ghost use Rattle.std.specs.Prelude.{◌≡◌, ◌≤◌, ◌^◌, ℕ, List, [], length, false, IsTrue, IfOk, IsErrOf};
ghost use Rattle.storage.specs.Disk.{Stays};
ghost use Rattle.log_meaning.specs.Images.{Recovers};
ghost use Rattle.bi_recovery.specs.Causes.{HasOpenCause};
ghost use Rattle.bi_recovery.specs.Reopening.{IsReadAs};
ghost use Rattle.recovered_view.specs.View.{slot_in, IsAtRest};

use crate::stored::{put_slots, slot_count, stored_slots};
use crate::view::RecoveredView;
use bi_recovery::{OpenFault, ReadLog, read_log};
use std::alloc::Global;
use storage::{Disk, Slots};

/// The slots of area 0, those that have a note as the log recovers them.
fn slots_over<D: Disk>(
    disk: &mut D,
    log: &ReadLog,
    alloc: Global,
) -> Result<Vec<[u8; 256]>, OpenFault>
    ensures few { IfOk result (λ slots. length slots.items ≤ 2 ^ 20) }
    ensures recovers { IfOk result (λ slots. IsTrue (D.observable disk.old) → IsReadAs (D.seen disk.old) log.now.area log.now.generation log.now.slots.items → Recovers (D.seen disk.old) (slot_in slots.items)) }
    ensures never { IsErrOf result OpenFault.NotCreated → ⊥ }
    ensures rest { Stays (D.observable disk.old) (D.observable disk.new) (D.seen disk.old) (D.seen disk.new) (D.time disk.old) (D.time disk.new) (D.left disk.old) (D.left disk.new) }
    ensures cause { HasOpenCause (D.failures disk.old) (D.failures disk.new) result }
{
    let length = disk.length(0)?;
    let Some(count) = slot_count(length) else {
        return Err(OpenFault::NoMemory);
    };
    let mut slots = stored_slots(disk, count, alloc)?;
    put_slots(&mut slots, &log.slots)?;
    Ok(slots)
}

impl RecoveredView {
    /// The slots that the disk recovers to, in memory, and its log as it was read: with it the disk
    /// may be recovered without another reading. Nothing is written, and the disk is as before.
    /// `NotCreated` comes exactly where the disk recovers to nothing, `Disk` where the disk failed,
    /// and `NoMemory` also where area 0 has more than 268,435,456 bytes, 1,048,576 slots. It takes
    /// 256 bytes for each slot up to the last one of area 0 or of a note, 260 for each slot that has
    /// a note, and for a while memory for the notes.
    pub fn open<D: Disk>(alloc: Global, disk: &mut D) -> Result<(RecoveredView, ReadLog), OpenFault>
        ensures recovers { IfOk result (λ r. IsTrue (D.observable disk.old) → Recovers (D.seen disk.old) (⟦<RecoveredView as Slots>⟧.state r.0).reads) }
        ensures at_rest { IfOk result (λ r. IsAtRest (⟦<RecoveredView as Slots>⟧.state r.0) (⟦<RecoveredView as Slots>⟧.stop r.0)) }
        ensures log { IfOk result (λ r. IsTrue (D.observable disk.old) → IsReadAs (D.seen disk.old) r.1.area r.1.generation r.1.slots.items) }
        ensures none { IsErrOf result OpenFault.NotCreated → IsTrue (D.observable disk.old) → (slots : ℕ → List ℕ) → Recovers (D.seen disk.old) slots → ⊥ }
        ensures rest { Stays (D.observable disk.old) (D.observable disk.new) (D.seen disk.old) (D.seen disk.new) (D.time disk.old) (D.time disk.new) (D.left disk.old) (D.left disk.new) }
        ensures cause { HasOpenCause (D.failures disk.old) (D.failures disk.new) result }
    {
        let log = read_log(disk, alloc)?;
        let slots = slots_over(disk, &log, alloc)?;
        Ok((RecoveredView { slots, begun: None }, log))
    }

    /// No call on a view answers Disk.
    pub fn never_fails(&self)
        ensures fine { (⟦<RecoveredView as Slots>⟧.state self.now).failed ≡ false }
        ensures faults { (⟦<RecoveredView as Slots>⟧.state self.now).faults ≡ 0 }
    {}

    /// What a view reads is observable and committed, nothing is in doubt, and no stop is observable.
    pub fn stays_committed(&self)
        ensures observable { IsTrue (⟦<RecoveredView as Slots>⟧.state self.now).observable }
        ensures clean { (c : ℕ) → ((⟦<RecoveredView as Slots>⟧.state self.now).transaction c).undo ≡ [] }
        ensures settled { (k : ℕ) → (⟦<RecoveredView as Slots>⟧.state self.now).committed k ≡ (⟦<RecoveredView as Slots>⟧.state self.now).reads k }
        ensures certain { (k : ℕ) → (⟦<RecoveredView as Slots>⟧.state self.now).doubt k ≡ (⟦<RecoveredView as Slots>⟧.state self.now).committed k }
        ensures no_stops { (m : ℕ) (slots : ℕ → List ℕ) → ⟦<RecoveredView as Slots>⟧.stop self.now m slots → ⊥ }
    {}
}
