//! Inserting, changing and deleting rows.

ghost use Rattle.std.specs.Prelude.{◌≡◌, ◌≢◌, ◌<◌, ◌≤◌, ◌+◌, ◌-◌, ◌*◌, ◌^◌, ◌++◌, ℕ, List, length, max, true, false, Some, None, Ok, Err, IfOk, IfErr, OnOk, OnErr, IsErrOf};
ghost use Rattle.std.specs.List.{Contains};
ghost use Rattle.std.specs.BinaryHeap.{heap_items};
ghost use Rattle.storage.specs.Slots.{IsReadable, NeverFull, Rests};
ghost use Rattle.abl_values.specs.Rows.{fragments_of};
ghost use Rattle.free_slots.specs.Free.{free_in};
ghost use Rattle.row_fragments.specs.Calls.{Looked, Touched};
ghost use Rattle.row_fragments.specs.Chains.{AreOwn};
ghost use Rattle.row_fragments.specs.Fragments.{begins, chain_of, ends, first_or_zero, table_in};
ghost use Rattle.byte_rows.specs.Clients.{client_in};
ghost use Rattle.byte_rows.specs.Exact.{AreVacant, IsVacant};
ghost use Rattle.byte_rows.specs.Freed.{IsLowest};
ghost use Rattle.byte_rows.specs.Noted.{AreSameClients};
ghost use Rattle.byte_rows.specs.Places.{owner_in};
ghost use Rattle.byte_rows.specs.Rows.{ChangesRow, IsLeastFor, of_slots};

use crate::chains::Chains;
use crate::fault::{ChainFault, failed_after};
use crate::found::{FoundChain, found_chain};
use crate::noted::write_noted;
use crate::row::{first, fragments};
use abl_base::RowId;
use storage::{SlotFault, Slots};

impl<S: Slots + Drop> Chains<S> {
    /// Changes the row that is read from the slots `chain`, or inserts one where there are none; the
    /// first `keep` slots hold the bytes then. Other clients' slots are settled.
    pub(crate) fn change(
        &mut self,
        client: u16,
        chain: &mut Vec<u32>,
        keep: usize,
        table: u16,
        bytes: &[u8],
    ) -> Result<(), ChainFault>
        requires client { client < 16 }
        requires begun { ((S.Slots.state self.old.slots).transaction client).begun ≡ true }
        requires fine { (S.Slots.state self.old.slots).failed ≡ false }
        requires settled { (c k : ℕ) → c < 16 → ((S.Slots.state self.old.slots).transaction c).begun ≡ false → ends k ≡ false → owner_in self.old.places.items k ≢ c + 1 }
        requires some { 0 < length chain.old.items + keep }
        requires low { 0 < length chain.old.items → 0 < first_or_zero chain.old.items }
        requires short { keep ≤ 125 }
        requires own { IsReadable (S.Slots.state self.old.slots) → AreOwn (S.Slots.state self.old.slots).reads chain.old.items }
        requires least { 0 < keep → keep ≡ fragments_of (length bytes.now) }
        requires room { length bytes.now ≤ 240 * keep }
        requires fits { length bytes.now < 2 ^ 32 }
        ensures touched { Touched (S.Slots.state self.old.slots) (S.Slots.state self.new.slots) (S.Slots.stop self.old.slots) (S.Slots.stop self.new.slots) client (of_slots result) }
        ensures drawn { OnOk result ((drawn : List ℕ) × (chain.new.items ≡ chain.old.items ++ drawn) × (length drawn ≡ keep - length chain.old.items) × (IsReadable (S.Slots.state self.old.slots) → AreVacant (S.Slots.state self.old.slots) drawn)) }
        ensures lowest { OnOk result (length chain.old.items ≡ 0 → IsReadable (S.Slots.state self.old.slots) → (k : ℕ) → IsVacant (S.Slots.state self.old.slots) k → first_or_zero chain.new.items ≤ k) }
        ensures taken { OnOk result (length chain.old.items ≡ 0 → IsLowest (free_in (heap_items self.old.free.back) self.old.free.end) (first_or_zero chain.new.items)) }
        ensures inside { OnOk result (ends (first_or_zero chain.new.items) ≡ false) }
        ensures put { OnOk result (0 < keep → ChangesRow (S.Slots.state self.old.slots) (S.Slots.state self.new.slots) client (first_or_zero chain.new.items) chain.new.items (Some (record { table = table; bytes = bytes.now }))) }
        ensures gone { OnOk result (keep ≡ 0 → ChangesRow (S.Slots.state self.old.slots) (S.Slots.state self.new.slots) client (first_or_zero chain.new.items) chain.new.items None) }
        ensures counts { OnOk result ((client_in self.new.clients.items client).drawn ≡ (client_in self.old.clients.items client).drawn + (keep - length chain.old.items)) }
        ensures apart { (c : ℕ) → c ≢ client → (client_in self.new.clients.items c).drawn ≡ (client_in self.old.clients.items c).drawn }
        ensures refused { (IsErrOf result (ChainFault.Slot SlotFault.Disk) → ⊥) → OnErr result (Rests (S.Slots.state self.old.slots) (S.Slots.state self.new.slots)) }
        ensures same { OnErr result (AreSameClients self.old.clients.items self.new.clients.items) }
        ensures full { IsErrOf result ChainFault.Full → IsReadable (S.Slots.state self.old.slots) → (slots : List ℕ) → AreVacant (S.Slots.state self.old.slots) slots → length slots < keep - length chain.old.items }
        ensures tx_full { IsErrOf result (ChainFault.Slot SlotFault.TxFull) → 7989 < ((S.Slots.state self.old.slots).transaction client).counted + (length chain.old.items + (keep - length chain.old.items)) }
        ensures few { OnOk result (((S.Slots.state self.old.slots).transaction client).counted + (length chain.old.items + (keep - length chain.old.items)) ≤ 7989) }
    {
        let held = chain.len();
        let more = keep.saturating_sub(held);
        if self.free.count() < more {
            return Err(ChainFault::Full);
        }
        match write_noted(
            &mut self.slots,
            &mut self.places,
            &mut self.free,
            &mut self.clients,
            client,
            chain,
            more as u32,
            keep,
            table,
            bytes,
        ) {
            Ok(()) => Ok(()),
            Err(fault) => {
                self.failed = failed_after(self.failed, fault);
                Err(ChainFault::Slot(fault))
            }
        }
    }

    /// The slots of the row and its table, once the slots of ended transactions are settled.
    fn prepare(&mut self, row: u32) -> Result<FoundChain, ChainFault>
        ensures slots { IfOk result (λ found. IsReadable (S.Slots.state self.old.slots) → found.slots.items ≡ chain_of (S.Slots.state self.old.slots).reads row) }
        ensures table { IfOk result (λ found. IsReadable (S.Slots.state self.old.slots) → found.table ≡ table_in ((S.Slots.state self.old.slots).reads row)) }
        ensures first { IfOk result (λ found. first_or_zero found.slots.items ≡ row) }
        ensures low { IfOk result (λ found. 0 < row) }
        ensures looked { Looked (S.Slots.state self.old.slots) (S.Slots.state self.new.slots) (S.Slots.stop self.old.slots) (S.Slots.stop self.new.slots) (of_slots result) }
        ensures counts { AreSameClients self.old.clients.items self.new.clients.items }
        ensures fine { OnOk result ((S.Slots.state self.new.slots).failed ≡ false) }
        ensures settled { OnOk result ((c k : ℕ) → c < 16 → ((S.Slots.state self.new.slots).transaction c).begun ≡ false → ends k ≡ false → owner_in self.new.places.items k ≢ c + 1) }
        ensures only { (IsErrOf result ChainFault.Full → ⊥) × NeverFull (of_slots result) }
    {
        match self.settle() {
            Ok(()) => {}
            Err(fault) => return Err(fault),
        }
        match found_chain(self.alloc, &mut self.slots, row) {
            Ok(found) => Ok(found),
            Err(fault) => {
                self.failed = failed_after(self.failed, fault);
                Err(ChainFault::Slot(fault))
            }
        }
    }

    /// Inserts a row of at most 30,000 bytes. It draws and writes the least number of slots that
    /// holds the bytes, the lowest free ones. Returns Full exactly if fewer slots are vacant
    /// (`IsVacant`): the used fragments and the new ones would exceed 1,040,384. Returns TxFull
    /// exactly if the transaction's writes would exceed 7,989. After any error except Disk nothing
    /// has changed.
    pub fn insert(&mut self, client: u16, table: u16, bytes: &[u8]) -> Result<RowId, ChainFault>
        requires client { client < 16 }
        requires begun { ((S.Slots.state self.old.slots).transaction client).begun ≡ true }
        requires size { length bytes.now ≤ 30000 }
        ensures ok { IfOk result (λ row. (slots : List ℕ) × IsLeastFor (length bytes.now) (length slots)
            × ChangesRow (S.Slots.state self.old.slots) (S.Slots.state self.new.slots) client row.0 slots (Some (record { table = table; bytes = bytes.now }))
            × (IsReadable (S.Slots.state self.old.slots) → AreVacant (S.Slots.state self.old.slots) slots)
            × ((client_in self.new.clients.items client).drawn ≡ (client_in self.old.clients.items client).drawn + length slots)
            × (((S.Slots.state self.old.slots).transaction client).counted + length slots ≤ 7989)) }
        ensures lowest { IfOk result (λ row. IsReadable (S.Slots.state self.old.slots) → (k : ℕ) → IsVacant (S.Slots.state self.old.slots) k → row.0 ≤ k) }
        ensures identity { IfOk result (λ row. ends row.0 ≡ false) }
        ensures apart { (c : ℕ) → c ≢ client → (client_in self.new.clients.items c).drawn ≡ (client_in self.old.clients.items c).drawn }
        ensures touched { Touched (S.Slots.state self.old.slots) (S.Slots.state self.new.slots) (S.Slots.stop self.old.slots) (S.Slots.stop self.new.slots) client (of_slots result) }
        ensures refused { (IsErrOf result (ChainFault.Slot SlotFault.Disk) → ⊥) → OnErr result (Rests (S.Slots.state self.old.slots) (S.Slots.state self.new.slots)) }
        ensures same { OnErr result (AreSameClients self.old.clients.items self.new.clients.items) }
        ensures full { IsErrOf result ChainFault.Full → IsReadable (S.Slots.state self.old.slots) → (n : ℕ) × IsLeastFor (length bytes.now) n × ((slots : List ℕ) → AreVacant (S.Slots.state self.old.slots) slots → length slots < n) }
        ensures tx_full { IsErrOf result (ChainFault.Slot SlotFault.TxFull) → (n : ℕ) × IsLeastFor (length bytes.now) n × (7989 < ((S.Slots.state self.old.slots).transaction client).counted + n) }
    {
        match self.settle() {
            Ok(()) => {}
            Err(fault) => return Err(fault),
        }
        let keep = fragments(bytes.len());
        let mut chain = Vec::new(self.alloc);
        match self.change(client, &mut chain, keep as usize, table, bytes) {
            Ok(()) => Ok(RowId(first(&chain))),
            Err(fault) => Err(fault),
        }
    }

    /// Replaces the bytes of the row by others, at most 30,000; its table stays. The number of
    /// slots written is that of the longer of the two rows. Out of memory is also returned if
    /// another client's open transaction changed the row. The errors are those of `insert`.
    pub fn put(&mut self, client: u16, row: RowId, bytes: &[u8]) -> Result<(), ChainFault>
        requires client { client < 16 }
        requires begun { ((S.Slots.state self.old.slots).transaction client).begun ≡ true }
        requires size { length bytes.now ≤ 30000 }
        requires there { IsReadable (S.Slots.state self.old.slots) → begins (S.Slots.state self.old.slots).reads row.0 ≡ true }
        ensures ok { OnOk result ((slots : List ℕ) × (n : ℕ) × IsLeastFor (length bytes.now) n
            × ChangesRow (S.Slots.state self.old.slots) (S.Slots.state self.new.slots) client row.0 slots (Some (record { table = table_in ((S.Slots.state self.old.slots).reads row.0); bytes = bytes.now }))
            × (IsReadable (S.Slots.state self.old.slots) → length slots ≡ max (length (chain_of (S.Slots.state self.old.slots).reads row.0)) n)
            × (((S.Slots.state self.old.slots).transaction client).counted + length slots ≤ 7989)) }
        ensures counts { OnOk result (IsReadable (S.Slots.state self.old.slots) → (n : ℕ) × IsLeastFor (length bytes.now) n
            × ((client_in self.new.clients.items client).drawn ≡ (client_in self.old.clients.items client).drawn + (n - length (chain_of (S.Slots.state self.old.slots).reads row.0)))) }
        ensures apart { (c : ℕ) → c ≢ client → (client_in self.new.clients.items c).drawn ≡ (client_in self.old.clients.items c).drawn }
        ensures touched { Touched (S.Slots.state self.old.slots) (S.Slots.state self.new.slots) (S.Slots.stop self.old.slots) (S.Slots.stop self.new.slots) client (of_slots result) }
        ensures refused { (IsErrOf result (ChainFault.Slot SlotFault.Disk) → ⊥) → OnErr result (Rests (S.Slots.state self.old.slots) (S.Slots.state self.new.slots)) }
        ensures same { OnErr result (AreSameClients self.old.clients.items self.new.clients.items) }
        ensures full { IsErrOf result ChainFault.Full → IsReadable (S.Slots.state self.old.slots) → (n : ℕ) × IsLeastFor (length bytes.now) n × ((slots : List ℕ) → AreVacant (S.Slots.state self.old.slots) slots → length slots < n - length (chain_of (S.Slots.state self.old.slots).reads row.0)) }
        ensures tx_full { IsErrOf result (ChainFault.Slot SlotFault.TxFull) → IsReadable (S.Slots.state self.old.slots) → (n : ℕ) × IsLeastFor (length bytes.now) n × (7989 < ((S.Slots.state self.old.slots).transaction client).counted + max (length (chain_of (S.Slots.state self.old.slots).reads row.0)) n) }
    {
        let mut found = match self.prepare(row.0) {
            Ok(found) => found,
            Err(fault) => return Err(fault),
        };
        let keep = fragments(bytes.len());
        self.change(client, &mut found.slots, keep as usize, found.table, bytes)
    }

    /// Deletes the row. Writes each slot of the row, and never returns Full. Out of memory is also
    /// returned if another client's open transaction changed the row.
    pub fn delete(&mut self, client: u16, row: RowId) -> Result<(), ChainFault>
        requires client { client < 16 }
        requires begun { ((S.Slots.state self.old.slots).transaction client).begun ≡ true }
        requires there { IsReadable (S.Slots.state self.old.slots) → begins (S.Slots.state self.old.slots).reads row.0 ≡ true }
        ensures ok { OnOk result ((slots : List ℕ)
            × ChangesRow (S.Slots.state self.old.slots) (S.Slots.state self.new.slots) client row.0 slots None
            × (IsReadable (S.Slots.state self.old.slots) → slots ≡ chain_of (S.Slots.state self.old.slots).reads row.0)
            × (((S.Slots.state self.old.slots).transaction client).counted + length slots ≤ 7989)) }
        ensures counts { OnOk result ((client_in self.new.clients.items client).drawn ≡ (client_in self.old.clients.items client).drawn) }
        ensures apart { (c : ℕ) → c ≢ client → (client_in self.new.clients.items c).drawn ≡ (client_in self.old.clients.items c).drawn }
        ensures touched { Touched (S.Slots.state self.old.slots) (S.Slots.state self.new.slots) (S.Slots.stop self.old.slots) (S.Slots.stop self.new.slots) client (of_slots result) }
        ensures refused { (IsErrOf result (ChainFault.Slot SlotFault.Disk) → ⊥) → OnErr result (Rests (S.Slots.state self.old.slots) (S.Slots.state self.new.slots)) }
        ensures same { OnErr result (AreSameClients self.old.clients.items self.new.clients.items) }
        ensures tx_full { IsErrOf result (ChainFault.Slot SlotFault.TxFull) → IsReadable (S.Slots.state self.old.slots) → 7989 < ((S.Slots.state self.old.slots).transaction client).counted + length (chain_of (S.Slots.state self.old.slots).reads row.0) }
    {
        let mut found = match self.prepare(row.0) {
            Ok(found) => found,
            Err(fault) => return Err(fault),
        };
        self.change(client, &mut found.slots, 0, 0, &[])
    }
}
