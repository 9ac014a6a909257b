//! Changing a row: its own slots are written, and free ones are drawn if it grows.

ghost use Rattle.std.specs.Prelude.{◌≡◌, ◌≢◌, ◌≤◌, ◌<◌, ◌+◌, ◌-◌, ◌*◌, ◌^◌, ◌++◌, ℕ, List, length, drop, true, false, None, Some, IfOk, IfSome, IfNone, OnOk, OnErr, IsErrOf, vec_capacity};
ghost use Rattle.std.specs.List.{Contains};
ghost use Rattle.std.specs.BinaryHeap.{heap_capacity, heap_items, heap_len};
ghost use Rattle.storage.specs.Slots.{IsReadable, NeverFull, Rests};
ghost use Rattle.abl_values.specs.Rows.{fragments_of};
ghost use Rattle.free_slots.specs.Free.{AreSlots, Takes, free_in};
ghost use Rattle.row_fragments.specs.Calls.{Touched, Wrote};
ghost use Rattle.row_fragments.specs.Fragments.{ends, first_or_zero, row_at};
ghost use Rattle.byte_rows.specs.Freed.{IsFreed, IsLowest};
ghost use Rattle.byte_rows.specs.Places.{AreLaid, IsKept, place_in, row_in};
ghost use Rattle.byte_rows.specs.Rows.{AreRewritten, HoldsRow};

use crate::change::change;
use crate::places::{Place, place_of};
use free_slots::FreeSlots;
use std::alloc::AllocError;
use storage::{SlotFault, Slots};

/// The number of fragments of a row of `length` bytes: the least that holds it, and at least one. A
/// row of 30,000 bytes, the longest, has 125.
pub fn fragments(length: usize) -> u32
    requires { length ≤ 30000 }
    ensures some { 0 < result }
    ensures few { result ≤ 125 }
    ensures holds { length ≤ 240 * result }
    ensures least { 1 < result → 240 * (result - 1) < length }
    ensures is { result ≡ fragments_of length }
{
    if length == 0 {
        1
    } else {
        ((length + 239) / 240) as u32
    }
}

/// The first of the slots, or 0.
pub(crate) fn first(slots: &[u32]) -> u32
    ensures { result ≡ first_or_zero slots.now }
{
    match slots.split_first() {
        None => 0,
        Some((first, _)) => *first,
    }
}

/// Whether each of the slots belongs to the row.
fn are_held(places: &[Place], slots: &[u32], row: u32) -> bool
    ensures { result ≡ true → (k : ℕ) → Contains slots.now k → row_in places.now k ≡ row }
{
    match slots.split_first() {
        None => true,
        Some((first, rest)) => place_of(places, *first).row == row && are_held(places, rest, row),
    }
}

/// Draws the `more` lowest free slots after those of the list, and reserves memory to give them back.
/// After an error nothing has changed.
fn draw_after(free: &mut FreeSlots, more: u32, slots: &mut Vec<u32>) -> Result<(), SlotFault>
    requires some { more ≤ heap_len free.old.back + (1048576 - free.old.end) }
    ensures drawn { OnOk result ((drawn : List ℕ) × (slots.new.items ≡ slots.old.items ++ drawn) × (length drawn ≡ more) × AreSlots drawn ×
        Takes (free_in (heap_items free.old.back) free.old.end) drawn (free_in (heap_items free.new.back) free.new.end)) }
    ensures count { OnOk result (heap_len free.new.back + (1048576 - free.new.end) + more ≡ heap_len free.old.back + (1048576 - free.old.end)) }
    ensures room { OnOk result (heap_len free.new.back + more ≤ heap_capacity free.new.back) }
    ensures same { OnErr result ((k : ℕ) → free_in (heap_items free.new.back) free.new.end k ≡ free_in (heap_items free.old.back) free.old.end k) }
    ensures same_count { OnErr result (heap_len free.new.back + (1048576 - free.new.end) ≡ heap_len free.old.back + (1048576 - free.old.end)) }
    ensures only { IsErrOf result SlotFault.Disk → ⊥ }
    ensures never { NeverFull result }
{
    if free.reserve(more as usize).is_err() {
        return Err(SlotFault::NoMemory);
    }
    match slots.reserve(more as usize) {
        Ok(()) => {}
        Err(_) => return Err(SlotFault::NoMemory),
    }
    free.take(more, slots);
    Ok(())
}

/// The lowest free slot, if there is one. The free slots stay as they are. An error means out of
/// memory.
pub(crate) fn lowest(free: &mut FreeSlots) -> Result<Option<u32>, AllocError>
    ensures lowest { IfOk result (λ slot. IfSome slot (IsLowest (free_in (heap_items free.old.back) free.old.end))) }
    ensures inside { IfOk result (λ slot. IfSome slot (λ s. (8192 ≤ s) × (s < 1048576))) }
    ensures none { IfOk result (λ slot. IfNone slot (heap_len free.old.back + (1048576 - free.old.end) ≡ 0)) }
    ensures same { (k : ℕ) → free_in (heap_items free.new.back) free.new.end k ≡ free_in (heap_items free.old.back) free.old.end k }
{
    if free.count() == 0 {
        return Ok(None);
    }
    free.reserve(1)?;
    match free.draw() {
        None => unreachable!(),
        Some(slot) => {
            free.give(slot);
            Ok(Some(slot))
        }
    }
}

/// Changes the row that is read from the slots `chain`, or inserts one if `chain` is empty. The
/// `more` lowest free slots are appended to `chain`. The first `keep` slots then contain the bytes,
/// and the others are empty. If `keep` is 0, the row is deleted. Each slot is written once.
/// NoMemory changes nothing; it is also returned if the client may not write these slots.
pub fn write_row<S: Slots>(
    slots: &mut S,
    places: &mut Vec<Place>,
    free: &mut FreeSlots,
    client: u16,
    chain: &mut Vec<u32>,
    more: u32,
    keep: usize,
    table: u16,
    bytes: &[u8],
) -> Result<(), SlotFault>
    requires client { client < 16 }
    requires begun { ((S.Slots.state slots.old).transaction client).begun ≡ true }
    requires known { IsKept (S.Slots.state slots.old) places.old.items }
    requires freed { IsFreed (free_in (heap_items free.old.back) free.old.end) places.old.items }
    requires space { more ≤ heap_len free.old.back + (1048576 - free.old.end) }
    requires few { ((S.Slots.state slots.old).transaction client).counted + (length chain.old.items + more) ≤ 7989 }
    requires some { 0 < length chain.old.items + more }
    requires low { 0 < length chain.old.items → 0 < first_or_zero chain.old.items }
    requires keep { keep ≤ length chain.old.items + more }
    requires short { keep ≤ 125 }
    requires room { length bytes.now ≤ 240 * keep }
    requires fits { length bytes.now < 2 ^ 32 }
    ensures touched { Touched (S.Slots.state slots.old) (S.Slots.state slots.new) (S.Slots.stop slots.old) (S.Slots.stop slots.new) client result }
    ensures drawn { OnOk result ((drawn : List ℕ) × (chain.new.items ≡ chain.old.items ++ drawn) × (length drawn ≡ more) × AreSlots drawn ×
        Takes (free_in (heap_items free.old.back) free.old.end) drawn (free_in (heap_items free.new.back) free.new.end)) }
    ensures first { OnOk result (0 < first_or_zero chain.new.items) }
    ensures wrote { OnOk result (Wrote (S.Slots.state slots.old) (S.Slots.state slots.new) client chain.new.items) }
    ensures count { OnOk result (heap_len free.new.back + (1048576 - free.new.end) + more ≡ heap_len free.old.back + (1048576 - free.old.end)) }
    ensures known { OnOk result (IsKept (S.Slots.state slots.new) places.new.items) }
    ensures freed { OnOk result (IsFreed (free_in (heap_items free.new.back) free.new.end) places.new.items) }
    ensures laid { OnOk result (AreLaid places.new.items chain.new.items (first_or_zero chain.new.items) 0 (client + 1)) }
    ensures rest { OnOk result ((k : ℕ) → ¬ Contains chain.new.items k → place_in places.new.items k ≡ place_in places.old.items k) }
    ensures inside { OnOk result ((k : ℕ) → Contains chain.new.items k → ends k ≡ false) }
    ensures within { OnOk result ((k : ℕ) → Contains chain.new.items k → k < length places.new.items) }
    ensures long { length places.old.items ≤ length places.new.items }
    ensures row { OnOk result (IsReadable (S.Slots.state slots.old) → 0 < keep →
        HoldsRow (S.Slots.state slots.new).reads chain.new.items (first_or_zero chain.new.items) (Some (record { table = table; bytes = bytes.now }))) }
    ensures gone { OnOk result (IsReadable (S.Slots.state slots.old) → keep ≡ 0 →
        HoldsRow (S.Slots.state slots.new).reads chain.new.items (first_or_zero chain.new.items) None) }
    ensures others { OnOk result (IsReadable (S.Slots.state slots.old) → (other : ℕ) → other ≢ first_or_zero chain.new.items →
        row_at (S.Slots.state slots.new).reads other ≡ row_at (S.Slots.state slots.old).reads other) }
    ensures rewritten { OnOk result (IsReadable (S.Slots.state slots.old) → AreRewritten (S.Slots.state slots.new).reads chain.new.items keep table bytes.now) }
    ensures refused { IsErrOf result SlotFault.NoMemory → Rests (S.Slots.state slots.old) (S.Slots.state slots.new) }
    ensures same { IsErrOf result SlotFault.NoMemory → (k : ℕ) → place_in places.new.items k ≡ place_in places.old.items k }
    ensures same_free { IsErrOf result SlotFault.NoMemory → (k : ℕ) → free_in (heap_items free.new.back) free.new.end k ≡ free_in (heap_items free.old.back) free.old.end k }
    ensures same_count { IsErrOf result SlotFault.NoMemory → heap_len free.new.back + (1048576 - free.new.end) ≡ heap_len free.old.back + (1048576 - free.old.end) }
    ensures only { NeverFull result }
{
    let own = first(chain);
    if !are_held(places, chain, own) {
        return Err(SlotFault::NoMemory);
    }
    let held = chain.len();
    draw_after(free, more, chain)?;
    let row = first(chain);
    match change(slots, places, client, row, chain, keep, table, bytes) {
        Ok(()) => Ok(()),
        Err(fault) => {
            free.give_all(&chain[held..]);
            Err(fault)
        }
    }
}
