//! Recovery where a slot past the end of area 0 has a note and one before it has none.

ghost use Rattle.std.specs.Prelude.{◌≡◌, ◌+◌, ◌-◌, ◌*◌, ◌<◌, ◌≤◌, ◌^◌, ℕ, List, true, IsTrue, IfOk, IfSome, IsErrOf};
ghost use Rattle.storage.specs.Slots.{wrote, undone};
ghost use Rattle.log_meaning.specs.steps.Steps.{Image, Run, Any};
ghost use Rattle.log_meaning.specs.declared.note.Note.{Note as LogNote};
ghost use Rattle.log_meaning.specs.Images.{slot_of};
ghost use Rattle.log_meaning.specs.Recovered.{recovered};
ghost use Rattle.log_meaning.specs.LogState.{notes_in, LogState};
ghost use Rattle.bi_log.specs.Lengths.{WithinLog};
ghost use Rattle.bi_recovery.specs.NoteSlots.{IsAscending};
ghost use Rattle.bi_recovery.specs.Reopening.{SameAreas, SameRecovery, NewLog};
ghost use Rattle.bi_recovery.specs.Causes.{HasOpenCause};

use crate::OpenFault;
use crate::carried_generation::carried_generation;
use std::alloc::Global;
use storage::{Disk, Undo};

/// The most slots that a new generation carries over a gap: their notes stay below the most bytes of
/// an area of the log, 167,772,160 (this project's choice).
const MOST_CARRIED: u32 = 300_000;

/// The least number above a slot and not below `last`.
fn end_past(last: u32, slot: u32) -> u32
    requires small { slot < 2 ^ 20 }
    requires few { last ≤ 2 ^ 20 }
    ensures above { (last ≤ result) × (slot < result) }
    ensures few { result ≤ 2 ^ 20 }
{
    if slot >= last {
        return slot + 1;
    }
    last
}

/// A number above each of these slots.
fn end_of(slots: &[Undo]) -> u32
    requires small { (s : ℕ) → wrote slots.now s ≡ true → s < 2 ^ 20 }
    ensures above { (s : ℕ) → wrote slots.now s ≡ true → s < result }
    ensures few { result ≤ 2 ^ 20 }
{
    let mut last: u32 = 0;
    for u in slots {
        last = end_past(last, u.slot);
    }
    last
}

/// A number above each of these slots, if a generation can carry all slots below it.
fn carried_count(slots: &[Undo]) -> Option<u32>
    requires small { (s : ℕ) → wrote slots.now s ≡ true → s < 2 ^ 20 }
    ensures above { IfSome result (λ n. (s : ℕ) → wrote slots.now s ≡ true → s < n) }
    ensures few { IfSome result (λ n. n ≤ 300000) }
{
    let count = end_of(slots);
    if count > MOST_CARRIED {
        return None;
    }
    Some(count)
}

/// Opens a generation over these recovered slots. It carries each slot up to the last of them, and
/// no slot of area 0 is written. Returns the place of its next gate. NoMemory comes also where the
/// last of them is slot 300,000 or a later one. The clauses hold for every log of the images whose
/// notes recover to these slots.
pub fn reopen_carrying<D: Disk>(
    disk: &mut D,
    area: u8,
    generation: u64,
    slots: &[Undo],
    alloc: Global,
) -> Result<u64, OpenFault>
    requires area { (1 ≤ area) × (area ≤ 2) }
    requires fits { generation + 1 < 2 ^ 63 }
    requires small { (s : ℕ) → wrote slots.now s ≡ true → s < 2 ^ 20 }
    requires ascending { IsAscending slots.now }
    requires synced { (image : Image) → D.left disk.old (D.time disk.old) image → SameAreas (D.seen disk.old) image }
    ensures same_observable { D.observable disk.new ≡ D.observable disk.old }
    ensures past { Run (D.time disk.old) (D.time disk.new) (D.left disk.old) (D.left disk.new) Any }
    ensures time { (extent : ℕ) (batches : List (List LogNote)) (base : ℕ → List ℕ) → IsTrue (D.observable disk.old)
        → ((image : Image) → D.left disk.old (D.time disk.old) image → LogState area generation extent batches base image) → ((below : ℕ → List ℕ) (s : ℕ) → undone slots.now below s ≡ recovered (notes_in batches) below s)
        → Run (D.time disk.old) (D.time disk.new) (D.left disk.old) (D.left disk.new) SameRecovery }
    ensures ok { IfOk result (λ gate. (extent : ℕ) (batches : List (List LogNote)) (base : ℕ → List ℕ) → IsTrue (D.observable disk.old)
        → ((image : Image) → D.left disk.old (D.time disk.old) image → LogState area generation extent batches base image) → ((below : ℕ → List ℕ) (s : ℕ) → undone slots.now below s ≡ recovered (notes_in batches) below s)
        → NewLog (D.left disk.new (D.time disk.new)) (3 - area) (generation + 1) extent gate (undone slots.now (slot_of (D.seen disk.old 0)))) }
    ensures never { IsErrOf result OpenFault.NotCreated → ⊥ }
    ensures within { Run (D.time disk.old) (D.time disk.new) (D.left disk.old) (D.left disk.new) (WithinLog 167772160) }
    ensures cause { HasOpenCause (D.failures disk.old) (D.failures disk.new) result }
{
    match carried_count(slots) {
        Some(count) => carried_generation(disk, 3 - area, generation + 1, slots, count, alloc),
        None => Err(OpenFault::NoMemory),
    }
}
