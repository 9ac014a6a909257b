//! Freeing what a transaction leaves, once it has ended.

ghost use Rattle.std.specs.Prelude.{◌≡◌, ◌≢◌, ◌≤◌, ◌<◌, ◌+◌, ◌-◌, ℕ, [], length, true, false, OnOk, OnErr, IsErrOf};
ghost use Rattle.std.specs.BinaryHeap.{heap_capacity, heap_items, heap_len};
ghost use Rattle.storage.specs.Slots.{NeverFull};
ghost use Rattle.free_slots.specs.Free.{free_in};
ghost use Rattle.row_fragments.specs.Calls.{Looked};
ghost use Rattle.row_fragments.specs.Fragments.{ends};
ghost use Rattle.byte_rows.specs.Freed.{IsFreed, has};
ghost use Rattle.byte_rows.specs.Exact.{IsExact};
ghost use Rattle.byte_rows.specs.Places.{IsKept, owner_in, place_in};

use crate::places::{Place, place_of};
use crate::release::release;
use free_slots::FreeSlots;
use storage::{SlotFault, Slots};

/// Frees the slot, if the client's ended transaction wrote it and it holds nothing; then it is no
/// client's change any more. After an error nothing has changed.
fn settle_slot<S: Slots>(
    slots: &mut S,
    places: &mut [Place],
    free: &mut FreeSlots,
    client: u16,
    slot: u32,
) -> Result<(), SlotFault>
    requires client { client < 16 }
    requires known { IsKept (S.Slots.state slots.old) places.old }
    requires freed { IsFreed (free_in (heap_items free.old.back) free.old.end) places.old }
    requires exact { IsExact (S.Slots.state slots.old) places.old }
    requires ended { ((S.Slots.state slots.old).transaction client).begun ≡ false }
    requires inside { ends slot ≡ false }
    requires within { slot < length places.old }
    requires room { heap_len free.old.back < heap_capacity free.old.back }
    ensures known { OnOk result (IsKept (S.Slots.state slots.new) places.new) }
    ensures freed { OnOk result (IsFreed (free_in (heap_items free.new.back) free.new.end) places.new) }
    ensures exact { OnOk result (IsExact (S.Slots.state slots.new) places.new) }
    ensures clear { OnOk result (owner_in places.new slot ≢ client + 1) }
    ensures none { OnOk result ((c : ℕ) → owner_in places.new slot ≡ c + 1 → owner_in places.old slot ≡ c + 1) }
    ensures rest { OnOk result ((k : ℕ) → k ≢ slot → place_in places.new k ≡ place_in places.old k) }
    ensures keeps { OnOk result (owner_in places.old slot ≢ client + 1 → place_in places.new slot ≡ place_in places.old slot) }
    ensures same { OnErr result (places.new ≡ places.old) }
    ensures same_free { OnErr result ((heap_items free.new.back ≡ heap_items free.old.back) × (free.new.end ≡ free.old.end)) }
    ensures long { length places.new ≡ length places.old }
    ensures len { heap_len free.new.back ≤ heap_len free.old.back + 1 }
    ensures capacity { heap_capacity free.old.back ≤ heap_capacity free.new.back }
    ensures looked { Looked (S.Slots.state slots.old) (S.Slots.state slots.new) (S.Slots.stop slots.old) (S.Slots.stop slots.new) result }
    ensures only { NeverFull result }
{
    let place = place_of(places, slot);
    if place.owner != client + 1 {
        return Ok(());
    }
    let left = release(slots, places, slot, client)?;
    if !left {
        return Ok(());
    }
    if place.row == 0 {
        return Ok(());
    }
    free.give(slot);
    Ok(())
}

/// Frees the slots that hold nothing among those that the client's ended transaction wrote. After out
/// of memory some of them may be settled, and the others are still listed; it comes too where a slot
/// holds nothing and another one points to it.
pub fn settle<S: Slots>(
    slots: &mut S,
    places: &mut [Place],
    free: &mut FreeSlots,
    client: u16,
    touched: &mut Vec<u32>,
) -> Result<(), SlotFault>
    requires client { client < 16 }
    requires known { IsKept (S.Slots.state slots.old) places.old }
    requires freed { IsFreed (free_in (heap_items free.old.back) free.old.end) places.old }
    requires exact { IsExact (S.Slots.state slots.old) places.old }
    requires ended { ((S.Slots.state slots.old).transaction client).begun ≡ false }
    requires touched { (k : ℕ) → has touched.old.items k ≡ true → (ends k ≡ false) × (k < length places.old) }
    requires all { (k : ℕ) → ends k ≡ false → owner_in places.old k ≡ client + 1 → has touched.old.items k ≡ true }
    ensures known { (IsErrOf result SlotFault.Disk → ⊥) → IsKept (S.Slots.state slots.new) places.new }
    ensures freed { (IsErrOf result SlotFault.Disk → ⊥) → IsFreed (free_in (heap_items free.new.back) free.new.end) places.new }
    ensures exact { (IsErrOf result SlotFault.Disk → ⊥) → IsExact (S.Slots.state slots.new) places.new }
    ensures touched { (IsErrOf result SlotFault.Disk → ⊥) → (k : ℕ) → has touched.new.items k ≡ true → (ends k ≡ false) × (k < length places.new) }
    ensures all { (IsErrOf result SlotFault.Disk → ⊥) → (k : ℕ) → ends k ≡ false → owner_in places.new k ≡ client + 1 → has touched.new.items k ≡ true }
    ensures others { (IsErrOf result SlotFault.Disk → ⊥) → (k : ℕ) → owner_in places.old k ≢ client + 1 → place_in places.new k ≡ place_in places.old k }
    ensures none { (IsErrOf result SlotFault.Disk → ⊥) → (c k : ℕ) → owner_in places.new k ≡ c + 1 → owner_in places.old k ≡ c + 1 }
    ensures settled { OnOk result ((k : ℕ) → ends k ≡ false → owner_in places.new k ≢ client + 1) }
    ensures long { length places.new ≡ length places.old }
    ensures empty { OnOk result (touched.new.items ≡ []) }
    ensures looked { Looked (S.Slots.state slots.old) (S.Slots.state slots.new) (S.Slots.stop slots.old) (S.Slots.stop slots.new) result }
    ensures only { NeverFull result }
{
    match free.reserve(touched.len()) {
        Ok(()) => {}
        Err(_) => return Err(SlotFault::NoMemory),
    }
    while let Some(slot) = touched.pop() {
        match settle_slot(slots, places, free, client, slot) {
            Ok(()) => {}
            Err(fault) => {
                touched.push(slot).unwrap();
                return Err(fault);
            }
        }
    }
    Ok(())
}
