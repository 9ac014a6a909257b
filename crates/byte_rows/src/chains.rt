//! Rows in slots: `Chains`, opened and closed, with its transactions.

ghost use Rattle.std.specs.Prelude.{◌≡◌, ◌≢◌, ◌<◌, ◌≤◌, ◌+◌, ◌^◌, ℕ, List, [], length, true, false, Some, None, Ok, Err, IfOk, IfErr, IfSome, OnOk, OnErr, IsErrOf, MatchOption};
ghost use Rattle.std.specs.BinaryHeap.{heap_items};
ghost use Rattle.storage.specs.Slots.{Begins, Commits, Ends, Fails, Goes, GoesBack, HasCause, IsReadable, NeverFull, OnlyDisk, Rests, Writes, IsAlone};
ghost use Rattle.abl_values.specs.Keys.{AreBytes};
ghost use Rattle.free_slots.specs.Free.{free_in};
ghost use Rattle.row_fragments.specs.Calls.{Looked};
ghost use Rattle.row_fragments.specs.Chains.{AreChains};
ghost use Rattle.row_fragments.specs.Fragments.{begins, ends, row_at};
ghost use Rattle.row_fragments.specs.Measures.{length_of, table_of};
ghost use Rattle.byte_rows.specs.Clients.{client_in, no_client};
ghost use Rattle.byte_rows.specs.Noted.{AreSameClients, IsSound};
ghost use Rattle.byte_rows.specs.Places.{HoldNothing, owner_in};
ghost use Rattle.byte_rows.specs.Rows.{of_slots, opening_fault};
ghost use Rattle.byte_rows.specs.Still.{Still};
ghost use Rattle.std.proofs.Props.{props};

use crate::client::Client;
use crate::clients::{idle_clients, settle_idle};
use crate::fault::{ChainFault, ChainsFault, failed_after};
use crate::opened::{end_of, free_of};
use crate::places::Place;
use crate::scan::scan;
use abl_base::RowId;
use free_slots::FreeSlots;
use row_fragments::StoredRow;
use row_fragments::measure::{row_length, row_table};
use row_fragments::read::{begins, read_row};
use std::alloc::{AllocError, Global};
use storage::{Mark, SlotFault, Slots};

/// Rows as chains of fragments in slots. A row has up to 30,000 bytes; its identity is its first slot,
/// a number from 8,192 to 1,048,575. Slots that a transaction drew or freed stay taken until it ends.
#[derive(Drop)]
pub struct Chains<S: Slots + Drop> {
    pub(crate) alloc: Global,
    pub(crate) slots: S,
    pub(crate) places: Vec<Place>,
    pub(crate) free: FreeSlots,
    pub(crate) clients: Vec<Client>,
    pub(crate) failed: bool,
    ghost sound: { IsSound (S.Slots.state slots) places.items (free_in (heap_items free.back) free.end) clients.items failed } by { Prim.hlevel props },
}

impl<S: Slots + Drop> Chains<S> {
    /// Opens the rows of these slots. Broken comes exactly where they are no chains: a slot from 8,192
    /// on is not empty and is in the chain of no row, or of two, or a row is no chain of its bytes.
    /// The refusals of the slots are Disk and NoMemory.
    pub fn open(mut slots: S, alloc: Global) -> Result<Chains<S>, (ChainsFault, S)>
        requires idle { (c : ℕ) → ((S.Slots.state slots).transaction c).begun ≡ false }
        requires clean { (c : ℕ) → ((S.Slots.state slots).transaction c).undo ≡ [] }
        requires fine { (S.Slots.state slots).failed ≡ false }
        ensures same { IfOk result (λ chains. Still (S.Slots.state slots) (S.Slots.state chains.slots) (S.Slots.stop slots) (S.Slots.stop chains.slots)) }
        ensures counts { IfOk result (λ chains. (c : ℕ) → client_in chains.clients.items c ≡ no_client) }
        ensures chains { IfOk result (λ chains. IsReadable (S.Slots.state slots) → AreChains (S.Slots.state slots).reads) }
        ensures broken { IfErr result (λ e. e.0 ≡ ChainsFault.Broken → IsReadable (S.Slots.state slots) → ¬ AreChains (S.Slots.state slots).reads) }
        ensures err { IfErr result (λ e. Looked {T = ℕ} (S.Slots.state slots) (S.Slots.state e.1) (S.Slots.stop slots) (S.Slots.stop e.1) (Err (opening_fault e.0))) }
        ensures only { IfErr result (λ e. e.0 ≢ ChainsFault.Slot SlotFault.TxFull) }
    {
        let clients = match idle_clients(alloc) {
            Ok(clients) => clients,
            Err(_) => return Err((ChainsFault::Slot(SlotFault::NoMemory), slots)),
        };
        let places = match scan(alloc, &mut slots) {
            Ok(Some(places)) => places,
            Ok(None) => return Err((ChainsFault::Broken, slots)),
            Err(fault) => return Err((ChainsFault::Slot(fault), slots)),
        };
        match free_of(alloc, &places) {
            Ok(free) => Ok(Chains {
                alloc,
                slots,
                places,
                free,
                clients,
                failed: false,
            }),
            Err(_) => Err((ChainsFault::Slot(SlotFault::NoMemory), slots)),
        }
    }

    /// The rows of slots that hold nothing: there is none. It reads no slot. The error is out of
    /// memory.
    pub fn new(alloc: Global, slots: S) -> Result<Chains<S>, AllocError>
        requires idle { (c : ℕ) → ((S.Slots.state slots).transaction c).begun ≡ false }
        requires clean { (c : ℕ) → ((S.Slots.state slots).transaction c).undo ≡ [] }
        requires fine { (S.Slots.state slots).failed ≡ false }
        requires empty { IsReadable (S.Slots.state slots) → HoldNothing (S.Slots.state slots).reads }
        ensures same { IfOk result (λ chains. chains.slots ≡ slots) }
        ensures counts { IfOk result (λ chains. (c : ℕ) → client_in chains.clients.items c ≡ no_client) }
    {
        let clients = idle_clients(alloc)?;
        let places = Vec::new(alloc);
        let free = free_of(alloc, &places)?;
        Ok(Chains {
            alloc,
            slots,
            places,
            free,
            clients,
            failed: false,
        })
    }

    /// Returns the slots. If no transaction is begun, they can be opened again.
    pub fn close(self) -> S
        ensures same { result ≡ self.slots }
        ensures idle { (S.Slots.state result).failed ≡ false → ((c : ℕ) → c < 16 → ((S.Slots.state result).transaction c).begun ≡ false) → (c : ℕ) → (((S.Slots.state result).transaction c).begun ≡ false) × (((S.Slots.state result).transaction c).undo ≡ []) }
    {
        let Chains {
            alloc: _,
            slots,
            places: _,
            free: _,
            clients: _,
            failed: _,
        } = self;
        slots
    }

    /// Whether the client has a transaction.
    pub fn is_begun(&self, client: u16) -> bool
        requires { client < 16 }
        ensures { result ≡ ((S.Slots.state self.now.slots).transaction client).begun }
    {
        self.clients[client as usize].begun
    }

    /// The number of slots that the client's transaction drew, including those of undone changes; 0
    /// without a transaction.
    pub fn drawn(&self, client: u16) -> u64
        requires { client < 16 }
        ensures { result ≡ (client_in self.now.clients.items client).drawn }
    {
        u64::from(self.clients[client as usize].drawn)
    }

    /// The number of slots that the client's transaction wrote; 0 without a transaction. Undone
    /// changes count, slots of sequences do not.
    pub fn written(&self, client: u16) -> u64
        requires { client < 16 }
        ensures noted { result ≡ (client_in self.now.clients.items client).written }
        ensures counted { (S.Slots.state self.now.slots).failed ≡ false → ((S.Slots.state self.now.slots).transaction client).begun ≡ true → result ≡ ((S.Slots.state self.now.slots).transaction client).counted }
    {
        u64::from(self.clients[client as usize].written)
    }

    /// A number from 8,192 to 1,048,576: no row begins from there on. It reads no slot.
    pub fn end(&self) -> u32
        ensures low { 8192 ≤ result }
        ensures high { result ≤ 1048576 }
        ensures none { IsReadable (S.Slots.state self.now.slots) → (k : ℕ) → result ≤ k → row_at (S.Slots.state self.now.slots).reads k ≡ None }
    {
        end_of(&self.places)
    }

    /// The row, if there is one. A row of one fragment reads one slot, and each byte is copied once.
    pub fn get(&mut self, row: RowId) -> Result<Option<StoredRow>, ChainFault>
        ensures row { IfOk result (λ found. IsReadable (S.Slots.state self.old.slots) →
            MatchOption found (row_at (S.Slots.state self.old.slots).reads row.0 ≡ None)
            (λ stored. row_at (S.Slots.state self.old.slots).reads row.0 ≡ Some (record { table = stored.table; bytes = stored.bytes.items }))) }
        ensures looked { Looked (S.Slots.state self.old.slots) (S.Slots.state self.new.slots) (S.Slots.stop self.old.slots) (S.Slots.stop self.new.slots) (of_slots result) }
        ensures counts { self.new.clients ≡ self.old.clients }
        ensures only { (IsErrOf result ChainFault.Full → ⊥) × NeverFull (of_slots result) }
    {
        match read_row(self.alloc, &mut self.slots, row.0) {
            Ok(found) => Ok(found),
            Err(fault) => {
                self.failed = failed_after(self.failed, fault);
                Err(ChainFault::Slot(fault))
            }
        }
    }

    /// The table of the row, if there is one. It takes no memory; Disk is its only refusal.
    pub fn table(&mut self, row: RowId) -> Result<Option<u16>, ChainFault>
        ensures table { IfOk result (λ found. IsReadable (S.Slots.state self.old.slots) → found ≡ table_of (row_at (S.Slots.state self.old.slots).reads row.0)) }
        ensures looked { Looked (S.Slots.state self.old.slots) (S.Slots.state self.new.slots) (S.Slots.stop self.old.slots) (S.Slots.stop self.new.slots) (of_slots result) }
        ensures counts { self.new.clients ≡ self.old.clients }
        ensures only { (IsErrOf result ChainFault.Full → ⊥) × OnlyDisk (of_slots result) }
    {
        match row_table(&mut self.slots, row.0) {
            Ok(found) => Ok(found),
            Err(fault) => {
                self.failed = failed_after(self.failed, fault);
                Err(ChainFault::Slot(fault))
            }
        }
    }

    /// The number of the row's bytes, if there is one. It takes no memory; Disk is its only refusal.
    pub fn length(&mut self, row: RowId) -> Result<Option<u32>, ChainFault>
        ensures length { IfOk result (λ found. IsReadable (S.Slots.state self.old.slots) → found ≡ length_of (row_at (S.Slots.state self.old.slots).reads row.0)) }
        ensures bytes { OnOk result (IsReadable (S.Slots.state self.old.slots) → IfSome (row_at (S.Slots.state self.old.slots).reads row.0) (λ stored. AreBytes stored.bytes)) }
        ensures few { IfOk result (λ found. IfSome found (λ many. many ≤ 30000)) }
        ensures looked { Looked (S.Slots.state self.old.slots) (S.Slots.state self.new.slots) (S.Slots.stop self.old.slots) (S.Slots.stop self.new.slots) (of_slots result) }
        ensures counts { self.new.clients ≡ self.old.clients }
        ensures only { (IsErrOf result ChainFault.Full → ⊥) × OnlyDisk (of_slots result) }
    {
        match row_length(&mut self.slots, row.0) {
            Ok(found) => Ok(found),
            Err(fault) => {
                self.failed = failed_after(self.failed, fault);
                Err(ChainFault::Slot(fault))
            }
        }
    }

    /// Whether the row is there. It takes no memory; Disk is its only refusal.
    pub fn there(&mut self, row: RowId) -> Result<bool, ChainFault>
        ensures row { IfOk result (λ found. IsReadable (S.Slots.state self.old.slots) → found ≡ begins (S.Slots.state self.old.slots).reads row.0) }
        ensures looked { Looked (S.Slots.state self.old.slots) (S.Slots.state self.new.slots) (S.Slots.stop self.old.slots) (S.Slots.stop self.new.slots) (of_slots result) }
        ensures counts { self.new.clients ≡ self.old.clients }
        ensures only { (IsErrOf result ChainFault.Full → ⊥) × OnlyDisk (of_slots result) }
    {
        match begins(&mut self.slots, row.0) {
            Ok(found) => Ok(found),
            Err(fault) => {
                self.failed = failed_after(self.failed, fault);
                Err(ChainFault::Slot(fault))
            }
        }
    }

    /// Frees what ended transactions left.
    pub(crate) fn settle(&mut self) -> Result<(), ChainFault>
        ensures looked { Looked (S.Slots.state self.old.slots) (S.Slots.state self.new.slots) (S.Slots.stop self.old.slots) (S.Slots.stop self.new.slots) (of_slots result) }
        ensures counts { AreSameClients self.old.clients.items self.new.clients.items }
        ensures fine { OnOk result ((S.Slots.state self.new.slots).failed ≡ false) }
        ensures settled { OnOk result ((c k : ℕ) → c < 16 → ((S.Slots.state self.new.slots).transaction c).begun ≡ false → ends k ≡ false → owner_in self.new.places.items k ≢ c + 1) }
        ensures only { (IsErrOf result ChainFault.Full → ⊥) × NeverFull (of_slots result) }
    {
        if self.failed {
            return Err(ChainFault::Slot(SlotFault::Disk));
        }
        match settle_idle(
            &mut self.slots,
            &mut self.places,
            &mut self.free,
            &mut self.clients,
        ) {
            Ok(()) => Ok(()),
            Err(fault) => {
                self.failed = failed_after(self.failed, fault);
                Err(ChainFault::Slot(fault))
            }
        }
    }

    /// Begins the client's transaction. After a refusal none is begun.
    pub fn begin(&mut self, client: u16) -> Result<(), ChainFault>
        requires client { client < 16 }
        requires idle { ((S.Slots.state self.old.slots).transaction client).begun ≡ false }
        ensures ok { OnOk result (Begins (S.Slots.state self.old.slots) (S.Slots.state self.new.slots) client) }
        ensures counts { OnOk result ((client_in self.new.clients.items client).drawn ≡ 0) }
        ensures apart { (c : ℕ) → c ≢ client → (client_in self.new.clients.items c).drawn ≡ (client_in self.old.clients.items c).drawn }
        ensures err { OnErr result (Rests (S.Slots.state self.old.slots) (S.Slots.state self.new.slots)) }
        ensures time { Goes (S.Slots.state self.old.slots) (S.Slots.state self.new.slots) (S.Slots.stop self.old.slots) (S.Slots.stop self.new.slots) }
        ensures cause { HasCause (S.Slots.state self.old.slots) (S.Slots.state self.new.slots) (of_slots result) }
        ensures only { (IsErrOf result ChainFault.Full → ⊥) × NeverFull (of_slots result) }
    {
        match self.settle() {
            Ok(()) => {}
            Err(fault) => return Err(fault),
        }
        match self.slots.begin(client) {
            Ok(()) => {
                let one = &mut self.clients[client as usize];
                one.start();
                Ok(())
            }
            Err(fault) => {
                self.failed = failed_after(self.failed, fault);
                Err(ChainFault::Slot(fault))
            }
        }
    }

    /// The transaction's current position in its undo list.
    pub fn mark(&self, client: u16) -> Mark
        requires client { client < 16 }
        requires begun { ((S.Slots.state self.now.slots).transaction client).begun ≡ true }
        ensures { result.at ≡ length ((S.Slots.state self.now.slots).transaction client).undo }
    {
        self.slots.mark(client)
    }

    /// Undoes the changes since the mark; undone changes still count. The mark is of this
    /// transaction, and no `back` to an earlier mark has followed it. Takes no memory.
    pub fn back(&mut self, client: u16, mark: Mark) -> Result<(), ChainFault>
        requires client { client < 16 }
        requires begun { ((S.Slots.state self.old.slots).transaction client).begun ≡ true }
        requires mark { mark.at ≤ length ((S.Slots.state self.old.slots).transaction client).undo }
        ensures ok { OnOk result (GoesBack (S.Slots.state self.old.slots) (S.Slots.state self.new.slots) client mark.at) }
        ensures err { OnErr result (Rests (S.Slots.state self.old.slots) (S.Slots.state self.new.slots)) }
        ensures counts { self.new.clients ≡ self.old.clients }
        ensures time { Goes (S.Slots.state self.old.slots) (S.Slots.state self.new.slots) (S.Slots.stop self.old.slots) (S.Slots.stop self.new.slots) }
        ensures cause { HasCause (S.Slots.state self.old.slots) (S.Slots.state self.new.slots) (of_slots result) }
        ensures only { (IsErrOf result ChainFault.Full → ⊥) × OnlyDisk (of_slots result) }
    {
        match self.slots.back(client, mark) {
            Ok(()) => Ok(()),
            Err(fault) => {
                self.failed = failed_after(self.failed, fault);
                Err(ChainFault::Slot(fault))
            }
        }
    }

    /// Commits the client's transaction and ends it. Returns the moment from which on every stop
    /// preserves its changes. After an error the transaction is still begun. Takes no memory.
    pub fn commit(&mut self, client: u16) -> Result<u64, ChainFault>
        requires client { client < 16 }
        requires begun { ((S.Slots.state self.old.slots).transaction client).begun ≡ true }
        ensures counts { OnOk result ((client_in self.new.clients.items client).drawn ≡ 0) }
        ensures apart { (c : ℕ) → c ≢ client → (client_in self.new.clients.items c).drawn ≡ (client_in self.old.clients.items c).drawn }
        ensures moment { IfOk result (λ moment. moment ≡ (S.Slots.state self.new.slots).moment) }
        ensures ok { OnOk result (Commits (S.Slots.state self.old.slots) (S.Slots.state self.new.slots) client) }
        ensures acknowledged { OnOk result ((slots : ℕ → List ℕ) → S.Slots.stop self.new.slots (S.Slots.state self.new.slots).moment slots → slots ≡ (S.Slots.state self.new.slots).committed) }
        ensures err { OnErr result (Fails (S.Slots.state self.old.slots) (S.Slots.state self.new.slots) client) }
        ensures time { Goes (S.Slots.state self.old.slots) (S.Slots.state self.new.slots) (S.Slots.stop self.old.slots) (S.Slots.stop self.new.slots) }
        ensures cause { HasCause (S.Slots.state self.old.slots) (S.Slots.state self.new.slots) (of_slots result) }
        ensures only { (IsErrOf result ChainFault.Full → ⊥) × OnlyDisk (of_slots result) }
    {
        match self.slots.commit(client) {
            Ok(moment) => {
                let one = &mut self.clients[client as usize];
                one.end();
                Ok(moment)
            }
            Err(fault) => {
                self.failed = failed_after(self.failed, fault);
                Err(ChainFault::Slot(fault))
            }
        }
    }

    /// Undoes all of the client's changes and ends its transaction. It has no refusal and takes no
    /// memory.
    pub fn abandon(&mut self, client: u16)
        requires client { client < 16 }
        requires begun { ((S.Slots.state self.old.slots).transaction client).begun ≡ true }
        ensures counts { (client_in self.new.clients.items client).drawn ≡ 0 }
        ensures apart { (c : ℕ) → c ≢ client → (client_in self.new.clients.items c).drawn ≡ (client_in self.old.clients.items c).drawn }
        ensures ended { Ends (S.Slots.state self.old.slots) (S.Slots.state self.new.slots) client }
        ensures time { Goes (S.Slots.state self.old.slots) (S.Slots.state self.new.slots) (S.Slots.stop self.old.slots) (S.Slots.stop self.new.slots) }
    {
        self.slots.abandon(client);
        let one = &mut self.clients[client as usize];
        one.end();
    }

    /// Reads a slot of sequence values, 5,000 to 5,008. It takes no memory; Disk is its only refusal.
    pub fn read(&mut self, slot: u32, into: &mut [u8; 256]) -> Result<(), ChainFault>
        requires low { 5000 ≤ slot }
        requires high { slot ≤ 5008 }
        ensures bytes { OnOk result (IsReadable (S.Slots.state self.old.slots) → into.new ≡ (S.Slots.state self.old.slots).reads slot) }
        ensures looked { Looked (S.Slots.state self.old.slots) (S.Slots.state self.new.slots) (S.Slots.stop self.old.slots) (S.Slots.stop self.new.slots) (of_slots result) }
        ensures counts { self.new.clients ≡ self.old.clients }
        ensures only { (IsErrOf result ChainFault.Full → ⊥) × OnlyDisk (of_slots result) }
    {
        match self.slots.read(slot, into) {
            Ok(()) => Ok(()),
            Err(fault) => {
                self.failed = failed_after(self.failed, fault);
                Err(ChainFault::Slot(fault))
            }
        }
    }

    /// Writes a slot of sequence values, 5,000 to 5,008, which no other open transaction wrote. A
    /// transaction writes such slots ten times at most; they do not count. Disk is its only refusal.
    pub fn write(&mut self, client: u16, slot: u32, bytes: &[u8; 256]) -> Result<(), ChainFault>
        requires client { client < 16 }
        requires low { 5000 ≤ slot }
        requires high { slot ≤ 5008 }
        requires begun { ((S.Slots.state self.old.slots).transaction client).begun ≡ true }
        requires alone { IsAlone (S.Slots.state self.old.slots) client slot }
        requires few { ((S.Slots.state self.old.slots).transaction client).low < 10 }
        ensures ok { OnOk result (Writes (S.Slots.state self.old.slots) (S.Slots.state self.new.slots) client slot bytes.now) }
        ensures err { OnErr result (Rests (S.Slots.state self.old.slots) (S.Slots.state self.new.slots)) }
        ensures counts { self.new.clients ≡ self.old.clients }
        ensures time { Goes (S.Slots.state self.old.slots) (S.Slots.state self.new.slots) (S.Slots.stop self.old.slots) (S.Slots.stop self.new.slots) }
        ensures cause { HasCause (S.Slots.state self.old.slots) (S.Slots.state self.new.slots) (of_slots result) }
        ensures only { (IsErrOf result ChainFault.Full → ⊥) × OnlyDisk (of_slots result) }
    {
        match self.slots.write(client, slot, bytes) {
            Ok(()) => Ok(()),
            Err(fault) => {
                self.failed = failed_after(self.failed, fault);
                Err(ChainFault::Slot(fault))
            }
        }
    }
}
