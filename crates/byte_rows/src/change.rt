//! Changing the slots of one row.

ghost use Rattle.std.specs.Prelude.{◌≡◌, ◌≢◌, ◌≤◌, ◌<◌, ◌+◌, ◌*◌, ◌^◌, ◌++◌, ℕ, length, true, false, None, Some, OnOk, OnErr, IsErrOf};
ghost use Rattle.std.specs.List.{Contains};
ghost use Rattle.storage.specs.Slots.{Goes, Grows, HasCause, IsReadable, NeverFull, OnlyDisk, Rests};
ghost use Rattle.row_fragments.specs.Calls.{Touched, Wrote};
ghost use Rattle.row_fragments.specs.Chains.{HaveFragments};
ghost use Rattle.row_fragments.specs.Fragments.{AreClear, AreDistinct, HasRoomFor, ends, first_or_zero, row_at};
ghost use Rattle.byte_rows.specs.Places.{AreLaid, AreReady, IsKept, place_in};
ghost use Rattle.byte_rows.specs.Rows.{AreRewritten, HoldsRow};

use crate::places::{Place, are_distinct, are_ready, highest, lay, reach};
use row_fragments::chain::clear;
use row_fragments::write::write_chain;
use storage::{SlotFault, Slots};

/// Checks that the client may write these slots as the row's, and reserves the memory for it. After
/// an error nothing has changed.
pub fn prepare<S: Slots>(
    slots: &mut S,
    places: &mut Vec<Place>,
    client: u16,
    row: u32,
    chain: &[u32],
) -> Result<(), SlotFault>
    requires client { client < 16 }
    requires begun { ((S.Slots.state slots.old).transaction client).begun ≡ true }
    requires few { length chain.now ≤ 7989 }
    ensures ready { OnOk result (AreReady places.new.items chain.now row 0 (client + 1)) }
    ensures distinct { OnOk result (AreDistinct chain.now) }
    ensures within { OnOk result ((k : ℕ) → Contains chain.now k → k < length places.new.items) }
    ensures grows { OnOk result (Grows (S.Slots.state slots.old) (S.Slots.state slots.new) client (length chain.now)) }
    ensures rests { OnErr result (Rests (S.Slots.state slots.old) (S.Slots.state slots.new)) }
    ensures places { (k : ℕ) → place_in places.new.items k ≡ place_in places.old.items k }
    ensures long { length places.old.items ≤ length places.new.items }
    ensures time { Goes (S.Slots.state slots.old) (S.Slots.state slots.new) (S.Slots.stop slots.old) (S.Slots.stop slots.new) }
    ensures cause { HasCause (S.Slots.state slots.old) (S.Slots.state slots.new) result }
    ensures only { NeverFull result }
{
    if !are_ready(places, chain, row, 0, client + 1) {
        return Err(SlotFault::NoMemory);
    }
    if !are_distinct(chain) {
        return Err(SlotFault::NoMemory);
    }
    match reach(places, highest(chain)) {
        Ok(()) => {}
        Err(_) => return Err(SlotFault::NoMemory),
    }
    slots.room(client, chain.len() as u32)
}

/// Writes the slots `chain` of the row. The first ones, `kept`, then contain these bytes, and the
/// others, `freed`, are empty. If `kept` is empty, the row is deleted. Each slot is written once.
/// Disk is the only error.
pub fn rewrite<S: Slots>(
    slots: &mut S,
    places: &mut [Place],
    client: u16,
    row: u32,
    chain: &[u32],
    kept: &[u32],
    freed: &[u32],
    table: u16,
    bytes: &[u8],
) -> Result<(), SlotFault>
    requires client { client < 16 }
    requires begun { ((S.Slots.state slots.old).transaction client).begun ≡ true }
    requires known { IsKept (S.Slots.state slots.old) places.old }
    requires ready { AreReady places.old chain.now row 0 (client + 1) }
    requires distinct { AreDistinct chain.now }
    requires within { (k : ℕ) → Contains chain.now k → k < length places.old }
    requires space { length chain.now ≤ ((S.Slots.state slots.old).transaction client).room }
    requires few { ((S.Slots.state slots.old).transaction client).counted + length chain.now ≤ 7989 }
    requires parts { chain.now ≡ kept.now ++ freed.now }
    requires some { 0 < length chain.now }
    requires first { first_or_zero chain.now ≡ row }
    requires row { 0 < row }
    requires short { length kept.now ≤ 125 }
    requires room { HasRoomFor kept.now bytes.now }
    requires fits { length bytes.now < 2 ^ 32 }
    ensures touched { Touched (S.Slots.state slots.old) (S.Slots.state slots.new) (S.Slots.stop slots.old) (S.Slots.stop slots.new) client result }
    ensures wrote { OnOk result (Wrote (S.Slots.state slots.old) (S.Slots.state slots.new) client chain.now) }
    ensures known { OnOk result (IsKept (S.Slots.state slots.new) places.new) }
    ensures row { OnOk result (IsReadable (S.Slots.state slots.old) → 0 < length kept.now →
        HoldsRow (S.Slots.state slots.new).reads chain.now row (Some (record { table = table; bytes = bytes.now }))) }
    ensures gone { OnOk result (IsReadable (S.Slots.state slots.old) → length kept.now ≡ 0 →
        HoldsRow (S.Slots.state slots.new).reads chain.now row None) }
    ensures others { OnOk result (IsReadable (S.Slots.state slots.old) → (other : ℕ) → other ≢ row →
        row_at (S.Slots.state slots.new).reads other ≡ row_at (S.Slots.state slots.old).reads other) }
    ensures bytes { OnOk result (IsReadable (S.Slots.state slots.old) → HaveFragments (S.Slots.state slots.new).reads kept.now 1 (length bytes.now) table bytes.now) }
    ensures zeros { OnOk result (IsReadable (S.Slots.state slots.old) → AreClear (S.Slots.state slots.new).reads freed.now) }
    ensures rest { (k : ℕ) → ¬ Contains chain.now k → place_in places.new k ≡ place_in places.old k }
    ensures laid { AreLaid places.new chain.now row 0 (client + 1) }
    ensures long { length places.new ≡ length places.old }
    ensures only { OnlyDisk result }
{
    lay(places, chain, row, 0, client + 1);
    write_chain(slots, client, 1, kept, bytes.len() as u32, table, bytes)?;
    clear(slots, client, freed)
}

/// Changes the row by writing the slots `chain`: the row's own in their order, followed by free
/// ones if it grows. The first `keep` of them then contain the bytes, and the others are empty. If
/// `keep` is 0, the row is deleted. Each slot is written once. NoMemory changes nothing; it is also
/// returned if the client may not write these slots.
pub fn change<S: Slots>(
    slots: &mut S,
    places: &mut Vec<Place>,
    client: u16,
    row: u32,
    chain: &[u32],
    keep: usize,
    table: u16,
    bytes: &[u8],
) -> Result<(), SlotFault>
    requires client { client < 16 }
    requires begun { ((S.Slots.state slots.old).transaction client).begun ≡ true }
    requires known { IsKept (S.Slots.state slots.old) places.old.items }
    requires few { ((S.Slots.state slots.old).transaction client).counted + length chain.now ≤ 7989 }
    requires some { 0 < length chain.now }
    requires first { first_or_zero chain.now ≡ row }
    requires row { 0 < row }
    requires keep { keep ≤ length chain.now }
    requires short { keep ≤ 125 }
    requires room { length bytes.now ≤ 240 * keep }
    requires fits { length bytes.now < 2 ^ 32 }
    ensures touched { Touched (S.Slots.state slots.old) (S.Slots.state slots.new) (S.Slots.stop slots.old) (S.Slots.stop slots.new) client result }
    ensures wrote { OnOk result (Wrote (S.Slots.state slots.old) (S.Slots.state slots.new) client chain.now) }
    ensures known { OnOk result (IsKept (S.Slots.state slots.new) places.new.items) }
    ensures row { OnOk result (IsReadable (S.Slots.state slots.old) → 0 < keep →
        HoldsRow (S.Slots.state slots.new).reads chain.now row (Some (record { table = table; bytes = bytes.now }))) }
    ensures gone { OnOk result (IsReadable (S.Slots.state slots.old) → keep ≡ 0 →
        HoldsRow (S.Slots.state slots.new).reads chain.now row None) }
    ensures others { OnOk result (IsReadable (S.Slots.state slots.old) → (other : ℕ) → other ≢ row →
        row_at (S.Slots.state slots.new).reads other ≡ row_at (S.Slots.state slots.old).reads other) }
    ensures rewritten { OnOk result (IsReadable (S.Slots.state slots.old) → AreRewritten (S.Slots.state slots.new).reads chain.now keep table bytes.now) }
    ensures rest { (k : ℕ) → ¬ Contains chain.now k → place_in places.new.items k ≡ place_in places.old.items k }
    ensures laid { OnOk result (AreLaid places.new.items chain.now row 0 (client + 1)) }
    ensures inside { OnOk result ((k : ℕ) → Contains chain.now k → ends k ≡ false) }
    ensures within { OnOk result ((k : ℕ) → Contains chain.now k → k < length places.new.items) }
    ensures long { length places.old.items ≤ length places.new.items }
    ensures refused { IsErrOf result SlotFault.NoMemory → Rests (S.Slots.state slots.old) (S.Slots.state slots.new) }
    ensures same { IsErrOf result SlotFault.NoMemory → (k : ℕ) → place_in places.new.items k ≡ place_in places.old.items k }
    ensures only { NeverFull result }
{
    prepare(slots, places, client, row, chain)?;
    let kept = &chain[..keep];
    let freed = &chain[keep..];
    rewrite(slots, places, client, row, chain, kept, freed, table, bytes)
}
