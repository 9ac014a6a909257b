//! Changing a row, and noting what the change did.

ghost use Rattle.std.specs.Prelude.{◌≡◌, ◌≢◌, ◌≤◌, ◌<◌, ◌+◌, ◌-◌, ◌*◌, ◌^◌, ◌++◌, ℕ, List, length, true, false, None, Some, OnOk, OnErr, IsErrOf};
ghost use Rattle.std.specs.List.{Contains};
ghost use Rattle.std.specs.BinaryHeap.{heap_items, heap_len};
ghost use Rattle.storage.specs.Slots.{IsReadable, Rests};
ghost use Rattle.free_slots.specs.Free.{free_in};
ghost use Rattle.row_fragments.specs.Calls.{Touched, Wrote};
ghost use Rattle.row_fragments.specs.Fragments.{ends, first_or_zero, row_at};
ghost use Rattle.byte_rows.specs.Clients.{client_in};
ghost use Rattle.byte_rows.specs.Exact.{AreVacant};
ghost use Rattle.byte_rows.specs.Freed.{IsLowest};
ghost use Rattle.byte_rows.specs.Noted.{AreSameClients, IsNoted};
ghost use Rattle.byte_rows.specs.Rows.{AreApart, AreRewritten, HoldsRow};

use crate::client::Client;
use crate::places::Place;
use crate::row::write_row;
use free_slots::FreeSlots;
use storage::{SlotFault, Slots};

/// Changes the row that is read from the slots `chain`, or inserts one where there are none: `more`
/// free slots are drawn after them, and then the first `keep` of all hold the bytes and the others
/// nothing. What it wrote is noted. After TxFull and out of memory nothing has changed.
pub fn write_noted<S: Slots>(
    slots: &mut S,
    places: &mut Vec<Place>,
    free: &mut FreeSlots,
    clients: &mut [Client],
    client: u16,
    chain: &mut Vec<u32>,
    more: u32,
    keep: usize,
    table: u16,
    bytes: &[u8],
) -> Result<(), SlotFault>
    requires client { client < 16 }
    requires sixteen { length clients.old ≡ 16 }
    requires begun { ((S.Slots.state slots.old).transaction client).begun ≡ true }
    requires noted { IsNoted (S.Slots.state slots.old) places.old.items (free_in (heap_items free.old.back) free.old.end) clients.old }
    requires space { more ≤ heap_len free.old.back + (1048576 - free.old.end) }
    requires some { 0 < length chain.old.items + more }
    requires low { 0 < length chain.old.items → 0 < first_or_zero chain.old.items }
    requires keep { keep ≤ length chain.old.items + more }
    requires short { keep ≤ 125 }
    requires room { length bytes.now ≤ 240 * keep }
    requires fits { length bytes.now < 2 ^ 32 }
    ensures touched { Touched (S.Slots.state slots.old) (S.Slots.state slots.new) (S.Slots.stop slots.old) (S.Slots.stop slots.new) client result }
    ensures noted { (IsErrOf result SlotFault.Disk → ⊥) → IsNoted (S.Slots.state slots.new) places.new.items (free_in (heap_items free.new.back) free.new.end) clients.new }
    ensures many { length clients.new ≡ length clients.old }
    ensures drawn { OnOk result ((drawn : List ℕ) × (chain.new.items ≡ chain.old.items ++ drawn) × (length drawn ≡ more) × (IsReadable (S.Slots.state slots.old) → AreVacant (S.Slots.state slots.old) drawn)) }
    ensures lowest { OnOk result (length chain.old.items ≡ 0 → IsLowest (free_in (heap_items free.old.back) free.old.end) (first_or_zero chain.new.items)) }
    ensures first { OnOk result (0 < first_or_zero chain.new.items) }
    ensures begins { OnOk result (Contains chain.new.items (first_or_zero chain.new.items)) }
    ensures inside { OnOk result ((k : ℕ) → Contains chain.new.items k → ends k ≡ false) }
    ensures wrote { OnOk result (Wrote (S.Slots.state slots.old) (S.Slots.state slots.new) client chain.new.items) }
    ensures row { OnOk result (IsReadable (S.Slots.state slots.old) → 0 < keep →
        HoldsRow (S.Slots.state slots.new).reads chain.new.items (first_or_zero chain.new.items) (Some (record { table = table; bytes = bytes.now }))) }
    ensures gone { OnOk result (IsReadable (S.Slots.state slots.old) → keep ≡ 0 →
        HoldsRow (S.Slots.state slots.new).reads chain.new.items (first_or_zero chain.new.items) None) }
    ensures own { OnOk result (IsReadable (S.Slots.state slots.old) → AreApart (S.Slots.state slots.new) chain.new.items (first_or_zero chain.new.items)) }
    ensures others { OnOk result (IsReadable (S.Slots.state slots.old) → (other : ℕ) → other ≢ first_or_zero chain.new.items →
        row_at (S.Slots.state slots.new).reads other ≡ row_at (S.Slots.state slots.old).reads other) }
    ensures rewritten { OnOk result (IsReadable (S.Slots.state slots.old) → AreRewritten (S.Slots.state slots.new).reads chain.new.items keep table bytes.now) }
    ensures counts { OnOk result ((client_in clients.new client).drawn ≡ (client_in clients.old client).drawn + more) }
    ensures begun { (c : ℕ) → (client_in clients.new c).begun ≡ (client_in clients.old c).begun }
    ensures apart { (c : ℕ) → c ≢ client → client_in clients.new c ≡ client_in clients.old c }
    ensures refused { (IsErrOf result SlotFault.Disk → ⊥) → OnErr result (Rests (S.Slots.state slots.old) (S.Slots.state slots.new)) }
    ensures same { OnErr result (AreSameClients clients.old clients.new) }
    ensures full { IsErrOf result SlotFault.TxFull → 7989 < ((S.Slots.state slots.old).transaction client).counted + (length chain.old.items + more) }
    ensures fine { OnOk result (((S.Slots.state slots.old).transaction client).counted + (length chain.old.items + more) ≤ 7989) }
{
    let one = &mut clients[client as usize];
    let many = chain.len() + more as usize;
    if !one.may_write(many) {
        return Err(SlotFault::TxFull);
    }
    match one.touched.reserve(many) {
        Ok(()) => {}
        Err(_) => return Err(SlotFault::NoMemory),
    }
    match write_row(slots, places, free, client, chain, more, keep, table, bytes) {
        Ok(()) => {
            one.note(chain, more);
            Ok(())
        }
        Err(fault) => Err(fault),
    }
}
