//! The slots that were written, by their numbers, each with what reads give and what was committed.

ghost use Rattle.std.specs.Prelude.{◌≡◌, ◌≢◌, ◌<◌, ◌≤◌, ◌+◌, ℕ, true, false, length, take, drop};
ghost use Rattle.std.specs.HashMap.{spare};
ghost use Rattle.std.specs.Vec.{vec_capacity};
ghost use Rattle.storage.specs.Slots.{put, undone, joined};
ghost use Rattle.new_database.specs.slots.Sparse.{slot_in, committed_in, holds, AllHeld};

use std::collections::HashMap;
use storage::Undo;

/// What a slot reads as, and what the committed transactions left in it.
#[derive(Clone, Copy)]
pub struct Slot {
    pub now: [u8; 256],
    pub committed: [u8; 256],
}

/// The bytes of the slot: zeros where it was never written.
pub fn bytes_of(slots: &HashMap<u32, Slot>, number: u32) -> [u8; 256]
    ensures { result ≡ slot_in slots.now number }
{
    match slots.get(&number) {
        Some(slot) => slot.now,
        None => [0; 256],
    }
}

/// Makes a place for the slot, if it has none.
pub fn reach(slots: &mut HashMap<u32, Slot>, number: u32)
    requires { holds slots.old number ≡ false → 0 < spare slots.old }
    ensures reads { (k : ℕ) → slot_in slots.new k ≡ slot_in slots.old k }
    ensures committed { (k : ℕ) → committed_in slots.new k ≡ committed_in slots.old k }
    ensures here { holds slots.new number ≡ true }
    ensures held { (k : ℕ) → holds slots.old k ≡ true → holds slots.new k ≡ true }
    ensures others { (k : ℕ) → k ≢ number → holds slots.new k ≡ holds slots.old k }
    ensures spare { spare slots.old ≤ spare slots.new + 1 }
{
    if !slots.contains_key(&number) {
        let blank = Slot {
            now: [0; 256],
            committed: [0; 256],
        };
        let inserted: Result<_, _> = slots.insert(number, blank);
        inserted.unwrap();
    }
}

/// Puts these bytes into the slot, and gives those that it had.
pub fn put_bytes(slots: &mut HashMap<u32, Slot>, number: u32, bytes: &[u8; 256]) -> [u8; 256]
    requires { holds slots.old number ≡ true }
    ensures before { result ≡ slot_in slots.old number }
    ensures reads { (k : ℕ) → slot_in slots.new k ≡ put (slot_in slots.old) number bytes.now k }
    ensures committed { (k : ℕ) → committed_in slots.new k ≡ committed_in slots.old k }
    ensures held { (k : ℕ) → holds slots.new k ≡ holds slots.old k }
    ensures spare { spare slots.new ≡ spare slots.old }
{
    match slots.get_mut(&number) {
        Some(slot) => {
            let before = slot.now;
            slot.now = *bytes;
            before
        }
        None => unreachable!(),
    }
}

/// Commits what the slot reads as.
pub fn keep_bytes(slots: &mut HashMap<u32, Slot>, number: u32)
    requires { holds slots.old number ≡ true }
    ensures reads { (k : ℕ) → slot_in slots.new k ≡ slot_in slots.old k }
    ensures committed { (k : ℕ) → committed_in slots.new k ≡ put (committed_in slots.old) number (slot_in slots.old number) k }
    ensures held { (k : ℕ) → holds slots.new k ≡ holds slots.old k }
    ensures spare { spare slots.new ≡ spare slots.old }
{
    match slots.get_mut(&number) {
        Some(slot) => slot.committed = slot.now,
        None => unreachable!(),
    }
}

/// Undoes writes until `stand` of them are left.
pub fn take_back(slots: &mut HashMap<u32, Slot>, undo: &mut Vec<Undo>, stand: usize)
    requires stand { stand ≤ length undo.old.items }
    requires held { AllHeld slots.old undo.old.items }
    ensures undo { undo.new.items ≡ take stand undo.old.items }
    ensures reads { (k : ℕ) → slot_in slots.new k ≡ undone (drop stand undo.old.items) (slot_in slots.old) k }
    ensures committed { (k : ℕ) → committed_in slots.new k ≡ committed_in slots.old k }
    ensures same { (k : ℕ) → holds slots.new k ≡ holds slots.old k }
    ensures spare { spare slots.new ≡ spare slots.old }
    ensures capacity { vec_capacity undo.new ≡ vec_capacity undo.old }
{
    while undo.len() > stand {
        if let Some(last) = undo.pop() {
            let _written_over = put_bytes(slots, last.slot, &last.old);
        }
    }
}

/// Commits the slots of these writes as they read.
pub fn keep(slots: &mut HashMap<u32, Slot>, writes: &[Undo])
    requires held { AllHeld slots.old writes.now }
    ensures reads { (k : ℕ) → slot_in slots.new k ≡ slot_in slots.old k }
    ensures committed { (k : ℕ) → committed_in slots.new k ≡ joined writes.now (slot_in slots.old) (committed_in slots.old) k }
    ensures same { (k : ℕ) → holds slots.new k ≡ holds slots.old k }
    ensures spare { spare slots.new ≡ spare slots.old }
{
    for write in writes {
        keep_bytes(slots, write.slot);
    }
}
