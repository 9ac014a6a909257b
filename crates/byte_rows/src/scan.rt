//! Reading which row each slot belongs to, when a store is opened.

ghost use Rattle.std.specs.Prelude.{◌≡◌, ◌≢◌, ◌<◌, ◌≤◌, ◌+◌, ◌^◌, ℕ, List, [], length, true, false, IfOk, IfSome, IfNone, OnOk};
ghost use Rattle.std.specs.List.{Contains};
ghost use Rattle.storage.specs.Slots.{AreBlankFrom, IsReadable, NeverFull, OnlyDisk};
ghost use Rattle.row_fragments.specs.Calls.{Looked};
ghost use Rattle.row_fragments.specs.Chains.{AreChains};
ghost use Rattle.row_fragments.specs.Fragments.{AreDistinct, ends, kind_in};
ghost use Rattle.byte_rows.specs.Places.{AreLaid, IsKept, owner_in, place_in, row_in};
ghost use Rattle.byte_rows.specs.Scanned.{AreScanned, IsStray};

use crate::places::{Place, are_distinct, highest, lay, place_of, reach};
use crate::release::read;
use abl_base::limits::FIRST_ROW;
use row_fragments::fragment::kind;
use row_fragments::read::begins;
use row_fragments::whole::whole_chain;
use std::alloc::{AllocError, Global};
use storage::{SlotFault, Slots};

/// A number of a slot for rows, or the number past them: each slot from there on reads zeros.
fn used_end<S: Slots>(slots: &S) -> u32
    ensures low { 8192 ≤ result }
    ensures high { result ≤ 1048576 }
    ensures blank { IsReadable (S.Slots.state slots.now) → AreBlankFrom result (S.Slots.state slots.now).reads }
{
    let end = slots.end();
    if end < FIRST_ROW {
        return FIRST_ROW;
    }
    end
}

/// Whether each of the slots is noted as nobody's.
fn are_free(places: &[Place], slots: &[u32]) -> bool
    ensures yes { result ≡ true → (k : ℕ) → Contains slots.now k → row_in places.now k ≡ 0 }
    ensures no { result ≡ false → (k : ℕ) × Contains slots.now k × (row_in places.now k ≢ 0) }
{
    match slots.split_first() {
        None => true,
        Some((first, rest)) => place_of(places, *first).row == 0 && are_free(places, rest),
    }
}

/// Notes these slots as the row's, in this order, if each of them is noted as nobody's. Whether it is.
fn note_chain(places: &mut Vec<Place>, row: u32, chain: &[u32]) -> Result<bool, AllocError>
    requires distinct { AreDistinct chain.now }
    ensures laid { IfOk result (λ noted. noted ≡ true → AreLaid places.new.items chain.now row 0 0) }
    ensures free { IfOk result (λ noted. noted ≡ true → (k : ℕ) → Contains chain.now k → row_in places.old.items k ≡ 0) }
    ensures taken { IfOk result (λ noted. noted ≡ false → (k : ℕ) × Contains chain.now k × (row_in places.old.items k ≢ 0)) }
    ensures rest { (k : ℕ) → ¬ Contains chain.now k → place_in places.new.items k ≡ place_in places.old.items k }
    ensures unowned { ((k : ℕ) → owner_in places.old.items k ≡ 0) → (k : ℕ) → owner_in places.new.items k ≡ 0 }
{
    reach(places, highest(chain))?;
    if !are_free(places, chain) {
        return Ok(false);
    }
    lay(places, chain, row, 0, 0);
    Ok(true)
}

/// Notes the slots of the row that begins in the slot, if one does. Whether its slots are a chain of its
/// bytes, none of which is noted as another row's.
fn note_row<S: Slots>(
    alloc: Global,
    slots: &mut S,
    places: &mut Vec<Place>,
    at: u32,
) -> Result<bool, SlotFault>
    requires low { 8192 ≤ at }
    requires scanned { IsReadable (S.Slots.state slots.old) → AreScanned (S.Slots.state slots.old).reads places.old.items at }
    requires unowned { (k : ℕ) → owner_in places.old.items k ≡ 0 }
    ensures scanned { IfOk result (λ whole. whole ≡ true → IsReadable (S.Slots.state slots.old) → AreScanned (S.Slots.state slots.old).reads places.new.items (at + 1)) }
    ensures broken { IfOk result (λ whole. whole ≡ false → IsReadable (S.Slots.state slots.old) → ¬ AreChains (S.Slots.state slots.old).reads) }
    ensures unowned { (k : ℕ) → owner_in places.new.items k ≡ 0 }
    ensures looked { Looked (S.Slots.state slots.old) (S.Slots.state slots.new) (S.Slots.stop slots.old) (S.Slots.stop slots.new) result }
    ensures only { NeverFull result }
{
    let begun = begins(slots, at)?;
    if !begun {
        return Ok(true);
    }
    let found = whole_chain(alloc, slots, at)?;
    let Some(chain) = found else {
        return Ok(false);
    };
    if !are_distinct(&chain) {
        return Ok(false);
    }
    match note_chain(places, at, &chain) {
        Ok(noted) => Ok(noted),
        Err(_) => Err(SlotFault::NoMemory),
    }
}

/// Notes the slots of each row that begins below `end`. Whether each row is a chain of its bytes, and no
/// slot is in the chains of two.
fn note_rows<S: Slots>(
    alloc: Global,
    slots: &mut S,
    places: &mut Vec<Place>,
    end: u32,
) -> Result<bool, SlotFault>
    requires low { 8192 ≤ end }
    requires high { end ≤ 1048576 }
    requires none { places.old.items ≡ [] }
    ensures scanned { IfOk result (λ whole. whole ≡ true → IsReadable (S.Slots.state slots.old) → AreScanned (S.Slots.state slots.old).reads places.new.items end) }
    ensures broken { IfOk result (λ whole. whole ≡ false → IsReadable (S.Slots.state slots.old) → ¬ AreChains (S.Slots.state slots.old).reads) }
    ensures unowned { (k : ℕ) → owner_in places.new.items k ≡ 0 }
    ensures looked { Looked (S.Slots.state slots.old) (S.Slots.state slots.new) (S.Slots.stop slots.old) (S.Slots.stop slots.new) result }
    ensures only { NeverFull result }
{
    for at in FIRST_ROW..end {
        let whole = note_row(alloc, slots, places, at)?;
        if !whole {
            return Ok(false);
        }
    }
    Ok(true)
}

/// Whether the slot with these bytes is not free, and is noted as nobody's.
fn is_stray(places: &[Place], at: u32, slot: &[u8; 256]) -> bool
    ensures yes { result ≡ true → (kind_in slot.now ≢ 0) × (row_in places.now at ≡ 0) }
    ensures no { result ≡ false → row_in places.now at ≡ 0 → kind_in slot.now ≡ 0 }
{
    kind(slot) != 0 && place_of(places, at).row == 0
}

/// Whether each slot below `end` that is not free is noted as a row's. The slots from `end` on read
/// zeros.
fn all_noted<S: Slots>(slots: &mut S, places: &[Place], end: u32) -> Result<bool, SlotFault>
    requires low { 8192 ≤ end }
    requires high { end ≤ 1048576 }
    requires blank { IsReadable (S.Slots.state slots.old) → AreBlankFrom end (S.Slots.state slots.old).reads }
    ensures yes { IfOk result (λ noted. noted ≡ true → IsReadable (S.Slots.state slots.old) → (k : ℕ) → 8192 ≤ k → k < 1048576 → row_in places.now k ≡ 0 → kind_in ((S.Slots.state slots.old).reads k) ≡ 0) }
    ensures no { IfOk result (λ noted. noted ≡ false → IsReadable (S.Slots.state slots.old) → IsStray (S.Slots.state slots.old).reads places.now) }
    ensures looked { Looked (S.Slots.state slots.old) (S.Slots.state slots.new) (S.Slots.stop slots.old) (S.Slots.stop slots.new) result }
    ensures only { OnlyDisk result }
{
    for at in FIRST_ROW..end {
        let mut slot = [0u8; 256];
        read(slots, at, &mut slot)?;
        if is_stray(places, at, &slot) {
            return Ok(false);
        }
    }
    Ok(true)
}

/// What is known of the slots when no transaction is begun: which row each slot belongs to, by
/// reading the slots for rows up to the last one that may hold something. A slot that holds nothing is
/// free. None comes exactly where the slots are no chains of rows; the refusals are Disk and NoMemory.
pub fn scan<S: Slots>(alloc: Global, slots: &mut S) -> Result<Option<Vec<Place>>, SlotFault>
    requires idle { (c : ℕ) → ((S.Slots.state slots.old).transaction c).begun ≡ false }
    requires clean { (c : ℕ) → ((S.Slots.state slots.old).transaction c).undo ≡ [] }
    ensures known { IfOk result (λ found. IfSome found (λ places. IsKept (S.Slots.state slots.new) places.items)) }
    ensures free { IfOk result (λ found. IfSome found (λ places. IsReadable (S.Slots.state slots.old) → (k : ℕ) → ends k ≡ false → kind_in ((S.Slots.state slots.old).reads k) ≡ 0 → row_in places.items k ≡ 0)) }
    ensures unowned { IfOk result (λ found. IfSome found (λ places. (k : ℕ) → ends k ≡ false → owner_in places.items k ≡ 0)) }
    ensures chains { IfOk result (λ found. IfSome found (λ places. IsReadable (S.Slots.state slots.old) → AreChains (S.Slots.state slots.old).reads)) }
    ensures broken { IfOk result (λ found. IfNone found (IsReadable (S.Slots.state slots.old) → ¬ AreChains (S.Slots.state slots.old).reads)) }
    ensures looked { Looked (S.Slots.state slots.old) (S.Slots.state slots.new) (S.Slots.stop slots.old) (S.Slots.stop slots.new) result }
    ensures only { NeverFull result }
{
    let end = used_end(slots);
    let mut places = Vec::new(alloc);
    let whole = note_rows(alloc, slots, &mut places, end)?;
    if !whole {
        return Ok(None);
    }
    let noted = all_noted(slots, &places, end)?;
    if !noted {
        return Ok(None);
    }
    Ok(Some(places))
}
