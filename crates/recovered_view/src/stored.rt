//! The slots of area 0 read, and the slots of notes put over them.

ghost use Rattle.std.specs.Prelude.{◌≡◌, ◌+◌, ◌*◌, ◌<◌, ◌≤◌, ◌^◌, ℕ, length, true, IsTrue, IfOk, IfSome, IsErrOf, OnOk, is_ok};
ghost use Rattle.storage.specs.Disk.{Stays, HasCause};
ghost use Rattle.storage.specs.Slots.{put, wrote, undone};
ghost use Rattle.log_meaning.specs.Images.{slot_of};
ghost use Rattle.bi_recovery.specs.Causes.{HasOpenCause};
ghost use Rattle.recovered_view.specs.View.{slot_in};

use bi_recovery::OpenFault;
use std::alloc::{AllocError, Global};
use storage::{Disk, DiskFailed, Undo};

/// The most bytes of area 0: 1,048,576 slots.
const MOST_BYTES: u64 = 268_435_456;

/// How many slots an area 0 of this many bytes has, a slot within which it ends included. `None`
/// comes where these are more than 1,048,576.
pub fn slot_count(length: u64) -> Option<u32>
    ensures small { IfSome result (λ n. n ≤ 2 ^ 20) }
    ensures all { IfSome result (λ n. length ≤ 256 * n) }
{
    if length > MOST_BYTES {
        return None;
    }
    Some(((length + 255) / 256) as u32)
}

/// A slot of area 0.
fn stored_slot<D: Disk>(disk: &mut D, slot: u32) -> Result<[u8; 256], DiskFailed>
    requires { slot < 2 ^ 20 }
    ensures bytes { IfOk result (λ bytes. IsTrue (D.observable disk.old) → bytes ≡ slot_of (D.seen disk.old 0) slot) }
    ensures rest { Stays (D.observable disk.old) (D.observable disk.new) (D.seen disk.old) (D.seen disk.new) (D.time disk.old) (D.time disk.new) (D.left disk.old) (D.left disk.new) }
    ensures cause { HasCause (D.failures disk.old) (D.failures disk.new) (is_ok result) }
{
    let mut bytes = [0u8; 256];
    disk.read(0, 256 * slot as u64, &mut bytes)?;
    Ok(bytes)
}

/// The first slots of area 0, this many.
pub fn stored_slots<D: Disk>(
    disk: &mut D,
    count: u32,
    alloc: Global,
) -> Result<Vec<[u8; 256]>, OpenFault>
    requires { count ≤ 2 ^ 20 }
    ensures count { IfOk result (λ slots. length slots.items ≡ count) }
    ensures bytes { IfOk result (λ slots. IsTrue (D.observable disk.old) → (k : ℕ) → k < count → slot_in slots.items k ≡ slot_of (D.seen disk.old 0) k) }
    ensures never { IsErrOf result OpenFault.NotCreated → ⊥ }
    ensures rest { Stays (D.observable disk.old) (D.observable disk.new) (D.seen disk.old) (D.seen disk.new) (D.time disk.old) (D.time disk.new) (D.left disk.old) (D.left disk.new) }
    ensures cause { HasOpenCause (D.failures disk.old) (D.failures disk.new) result }
{
    let mut slots = Vec::with_capacity(alloc, count as usize)?;
    let mut k: u32 = 0;
    'slots: while k < count {
        let bytes = stored_slot(disk, k)?;
        slots.push(bytes)?;
        k += 1;
    }
    Ok(slots)
}

/// Puts the slot into the list, which gets zeros up to it where it is shorter.
fn put_slot(slots: &mut Vec<[u8; 256]>, slot: &Undo) -> Result<(), AllocError>
    requires few { length slots.old.items ≤ 2 ^ 20 }
    requires small { slot.now.slot < 2 ^ 20 }
    ensures put { OnOk result ((k : ℕ) → slot_in slots.new.items k ≡ put (slot_in slots.old.items) slot.now.slot slot.now.old k) }
    ensures few { length slots.new.items ≤ 2 ^ 20 }
{
    let at = slot.slot as usize;
    if slots.len() <= at {
        slots.resize(at + 1, [0; 256])?;
    }
    slots[at] = slot.old;
    Ok(())
}

/// Puts the noted slots into the list, from the last one down: of the entries of one slot the first
/// counts.
pub fn put_slots(slots: &mut Vec<[u8; 256]>, noted: &[Undo]) -> Result<(), AllocError>
    requires few { length slots.old.items ≤ 2 ^ 20 }
    requires small { (s : ℕ) → wrote noted.now s ≡ true → s < 2 ^ 20 }
    ensures undone { OnOk result ((k : ℕ) → slot_in slots.new.items k ≡ undone noted.now (slot_in slots.old.items) k) }
    ensures few { length slots.new.items ≤ 2 ^ 20 }
{
    let mut i = noted.len();
    'noted: while i > 0 {
        i -= 1;
        put_slot(slots, &noted[i])?;
    }
    Ok(())
}
