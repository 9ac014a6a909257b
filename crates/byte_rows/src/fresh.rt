//! The identity of the next row, and inserting a row there.

ghost use Rattle.std.specs.Prelude.{◌≡◌, ◌≢◌, ◌<◌, ◌≤◌, ◌+◌, ℕ, List, length, true, false, Some, IfOk, OnOk, OnErr, IsErrOf};
ghost use Rattle.std.specs.BinaryHeap.{heap_items};
ghost use Rattle.storage.specs.Slots.{IsReadable, NeverFull, Rests};
ghost use Rattle.free_slots.specs.Free.{free_in};
ghost use Rattle.row_fragments.specs.Calls.{Looked, Touched};
ghost use Rattle.row_fragments.specs.Fragments.{ends};
ghost use Rattle.byte_rows.specs.Clients.{client_in};
ghost use Rattle.byte_rows.specs.Exact.{AreVacant, IsVacant};
ghost use Rattle.byte_rows.specs.Freed.{IsLowest};
ghost use Rattle.byte_rows.specs.Noted.{AreSameClients};
ghost use Rattle.byte_rows.specs.Places.{owner_in};
ghost use Rattle.byte_rows.specs.Rows.{ChangesRow, IsLeastFor, of_slots};

use crate::chains::Chains;
use crate::fault::ChainFault;
use crate::row::{fragments, lowest};
use abl_base::RowId;
use storage::{SlotFault, Slots};

impl<S: Slots + Drop> Chains<S> {
    /// The lowest free slot, once the slots of ended transactions are settled.
    fn next_slot(&mut self) -> Result<u32, ChainFault>
        ensures lowest { IfOk result (λ slot. IsLowest (free_in (heap_items self.new.free.back) self.new.free.end) slot) }
        ensures inside { IfOk result (λ slot. ends slot ≡ false) }
        ensures looked { Looked (S.Slots.state self.old.slots) (S.Slots.state self.new.slots) (S.Slots.stop self.old.slots) (S.Slots.stop self.new.slots) (of_slots result) }
        ensures counts { AreSameClients self.old.clients.items self.new.clients.items }
        ensures fine { OnOk result ((S.Slots.state self.new.slots).failed ≡ false) }
        ensures settled { OnOk result ((c k : ℕ) → c < 16 → ((S.Slots.state self.new.slots).transaction c).begun ≡ false → ends k ≡ false → owner_in self.new.places.items k ≢ c + 1) }
    {
        match self.settle() {
            Ok(()) => {}
            Err(fault) => return Err(fault),
        }
        match lowest(&mut self.free) {
            Ok(Some(slot)) => Ok(slot),
            Ok(None) => Err(ChainFault::Full),
            Err(_) => Err(ChainFault::Slot(SlotFault::NoMemory)),
        }
    }

    /// Checks that the slot is the lowest free one, once the slots of ended transactions are settled.
    fn expect_slot(&mut self, slot: u32) -> Result<(), ChainFault>
        ensures lowest { OnOk result (IsLowest (free_in (heap_items self.new.free.back) self.new.free.end) slot) }
        ensures looked { Looked (S.Slots.state self.old.slots) (S.Slots.state self.new.slots) (S.Slots.stop self.old.slots) (S.Slots.stop self.new.slots) (of_slots result) }
        ensures counts { AreSameClients self.old.clients.items self.new.clients.items }
        ensures fine { OnOk result ((S.Slots.state self.new.slots).failed ≡ false) }
        ensures settled { OnOk result ((c k : ℕ) → c < 16 → ((S.Slots.state self.new.slots).transaction c).begun ≡ false → ends k ≡ false → owner_in self.new.places.items k ≢ c + 1) }
    {
        match self.next_slot() {
            Ok(next) => {
                if next != slot {
                    return Err(ChainFault::Slot(SlotFault::NoMemory));
                }
                Ok(())
            }
            Err(fault) => Err(fault),
        }
    }

    /// The identity that the next inserted row has: the lowest vacant slot (`IsVacant`), which no
    /// open transaction wrote. Returns Full where there is none.
    pub fn fresh(&mut self) -> Result<RowId, ChainFault>
        ensures vacant { IfOk result (λ row. IsReadable (S.Slots.state self.old.slots) → IsVacant (S.Slots.state self.old.slots) row.0) }
        ensures unwritten { IfOk result (λ row. (c : ℕ) → ((S.Slots.state self.old.slots).transaction c).begun ≡ true → ((S.Slots.state self.old.slots).transaction c).written row.0 ≡ false) }
        ensures identity { IfOk result (λ row. ends row.0 ≡ false) }
        ensures fine { OnOk result ((S.Slots.state self.new.slots).failed ≡ false) }
        ensures looked { Looked (S.Slots.state self.old.slots) (S.Slots.state self.new.slots) (S.Slots.stop self.old.slots) (S.Slots.stop self.new.slots) (of_slots result) }
        ensures counts { AreSameClients self.old.clients.items self.new.clients.items }
    {
        match self.next_slot() {
            Ok(slot) => Ok(RowId(slot)),
            Err(fault) => Err(fault),
        }
    }

    /// Inserts a row with the identity that `fresh` gives; where that is another one, the answer is
    /// out of memory. Else as `insert`.
    pub fn insert_at(
        &mut self,
        client: u16,
        row: RowId,
        table: u16,
        bytes: &[u8],
    ) -> Result<(), ChainFault>
        requires client { client < 16 }
        requires begun { ((S.Slots.state self.old.slots).transaction client).begun ≡ true }
        requires size { length bytes.now ≤ 30000 }
        ensures ok { OnOk result ((slots : List ℕ) × IsLeastFor (length bytes.now) (length slots)
            × ChangesRow (S.Slots.state self.old.slots) (S.Slots.state self.new.slots) client row.0 slots (Some (record { table = table; bytes = bytes.now }))
            × (IsReadable (S.Slots.state self.old.slots) → AreVacant (S.Slots.state self.old.slots) slots)
            × ((client_in self.new.clients.items client).drawn ≡ (client_in self.old.clients.items client).drawn + length slots)
            × (((S.Slots.state self.old.slots).transaction client).counted + length slots ≤ 7989)) }
        ensures apart { (c : ℕ) → c ≢ client → (client_in self.new.clients.items c).drawn ≡ (client_in self.old.clients.items c).drawn }
        ensures touched { Touched (S.Slots.state self.old.slots) (S.Slots.state self.new.slots) (S.Slots.stop self.old.slots) (S.Slots.stop self.new.slots) client (of_slots result) }
        ensures refused { (IsErrOf result (ChainFault.Slot SlotFault.Disk) → ⊥) → OnErr result (Rests (S.Slots.state self.old.slots) (S.Slots.state self.new.slots)) }
        ensures same { OnErr result (AreSameClients self.old.clients.items self.new.clients.items) }
    {
        match self.expect_slot(row.0) {
            Ok(()) => {}
            Err(fault) => return Err(fault),
        }
        let keep = fragments(bytes.len());
        let mut chain = Vec::new(self.alloc);
        match self.change(client, &mut chain, keep as usize, table, bytes) {
            Ok(()) => Ok(()),
            Err(fault) => Err(fault),
        }
    }
}
