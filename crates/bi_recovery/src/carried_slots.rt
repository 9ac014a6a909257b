//! Slots carried into a new generation, as notes of the bytes that they recover to.

ghost use Rattle.std.specs.Prelude.{◌≡◌, ◌+◌, ◌-◌, ◌*◌, ◌<◌, ◌≤◌, ◌^◌, ℕ, List, length, true, false, IsTrue, IfOk, IfSome, IfNone, OnOk, IsErrOf, is_ok};
ghost use Rattle.storage.specs.Disk.{Stays, Others, HasCause};
ghost use Rattle.storage.specs.Slots.{wrote, undone};
ghost use Rattle.log_meaning.specs.steps.Steps.{Image, Run};
ghost use Rattle.log_meaning.specs.Images.{slot_of};
ghost use Rattle.bi_log.specs.Appending.{fresh};
ghost use Rattle.bi_log.specs.Generations.{IsClosed, AfterGate, IsPrepared};
ghost use Rattle.bi_log.specs.Lengths.{WithinLog};
ghost use Rattle.bi_recovery.specs.NoteSlots.{IsAscending};
ghost use Rattle.bi_recovery.specs.Carried.{stills, IsCarried};
ghost use Rattle.bi_recovery.specs.Causes.{HasOpenCause};

use crate::OpenFault;
use bi_log::NoteBuffer;
use bi_log::carrying::{carry_buffer, make_room};
use log_meaning::{Change, Note};
use std::alloc::Global;
use storage::{Disk, DiskFailed, Undo};

/// The bytes of the entry of the slot, if it has one.
pub fn entry_bytes(slots: &[Undo], slot: u32) -> Option<[u8; 256]>
    requires ascending { IsAscending slots.now }
    ensures some { IfSome result (λ bytes. (below : ℕ → List ℕ) → undone slots.now below slot ≡ bytes) }
    ensures none { IfNone result (wrote slots.now slot ≡ false) }
{
    match slots.binary_search_by_key(&slot, |u| u.slot) {
        Ok(place) => Some(slots[place].old),
        Err(_) => None,
    }
}

/// The bytes of a slot of area 0.
fn read_slot<D: Disk>(disk: &mut D, slot: u32) -> Result<[u8; 256], DiskFailed>
    requires small { slot < 2 ^ 20 }
    ensures bytes { IfOk result (λ bytes. IsTrue (D.observable disk.old) → bytes ≡ slot_of (D.seen disk.old 0) slot) }
    ensures rest { Stays (D.observable disk.old) (D.observable disk.new) (D.seen disk.old) (D.seen disk.new) (D.time disk.old) (D.time disk.new) (D.left disk.old) (D.left disk.new) }
    ensures cause { HasCause (D.failures disk.old) (D.failures disk.new) (is_ok result) }
{
    let mut bytes = [0u8; 256];
    disk.read(0, 256 * slot as u64, &mut bytes)?;
    Ok(bytes)
}

/// The bytes that the slot recovers to, where these entries are the recovered slots.
pub fn slot_bytes<D: Disk>(disk: &mut D, slots: &[Undo], slot: u32) -> Result<[u8; 256], DiskFailed>
    requires small { slot < 2 ^ 20 }
    requires ascending { IsAscending slots.now }
    ensures bytes { IfOk result (λ bytes. IsTrue (D.observable disk.old) → bytes ≡ undone slots.now (slot_of (D.seen disk.old 0)) slot) }
    ensures rest { Stays (D.observable disk.old) (D.observable disk.new) (D.seen disk.old) (D.seen disk.new) (D.time disk.old) (D.time disk.new) (D.left disk.old) (D.left disk.new) }
    ensures cause { HasCause (D.failures disk.old) (D.failures disk.new) (is_ok result) }
{
    match entry_bytes(slots, slot) {
        Some(bytes) => Ok(bytes),
        None => read_slot(disk, slot),
    }
}

/// Carries the first `count` slots into the generation that the area is prepared for, each as a note
/// of the bytes that it recovers to, before and after. Returns the place of the next gate.
pub fn carry_slots<D: Disk>(
    disk: &mut D,
    area: u8,
    slots: &[Undo],
    count: u32,
    alloc: Global,
) -> Result<u64, OpenFault>
    requires area { area < 3 }
    requires other { (1 ≤ area) × (count ≤ 2 ^ 20) }
    requires ascending { IsAscending slots.now }
    requires closed { (image : Image) → D.left disk.old (D.time disk.old) image → IsClosed (image area) }
    ensures same_observable { D.observable disk.new ≡ D.observable disk.old }
    ensures time { Run (D.time disk.old) (D.time disk.new) (D.left disk.old) (D.left disk.new) (AfterGate area) }
    ensures ok { IfOk result (λ gate. IsTrue (D.observable disk.old) → (generation : ℕ) → ((image : Image) → D.left disk.old (D.time disk.old) image → IsPrepared (image area) (fresh generation) 32)
        → IsCarried (D.left disk.new (D.time disk.new)) area gate generation (stills (undone slots.now (slot_of (D.seen disk.old 0))) count)) }
    ensures never { IsErrOf result OpenFault.NotCreated → ⊥ }
    ensures seen { IsTrue (D.observable disk.old) → Others area (D.seen disk.old) (D.seen disk.new) }
    ensures within { count ≤ 300000 → Run (D.time disk.old) (D.time disk.new) (D.left disk.old) (D.left disk.new) (WithinLog 167772160) }
    ensures cause { HasOpenCause (D.failures disk.old) (D.failures disk.new) result }
{
    let mut buffer = NoteBuffer::new(alloc)?;
    let mut gate: u64 = 32;
    let mut n: u32 = 0;
    'slots: while n < count {
        let at = make_room(disk, area, gate, &mut buffer)?;
        let bytes = slot_bytes(disk, slots, n)?;
        buffer.push(&Note::Change(Change {
            tx: 0,
            slot: n,
            old: bytes,
            new: bytes,
        }));
        gate = at;
        n += 1;
    }
    let next = carry_buffer(disk, area, gate, &mut buffer)?;
    Ok(next)
}
