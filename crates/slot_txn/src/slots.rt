//! `SlotTxn` is `Slots`.

ghost use Rattle.std.specs.Prelude.{◌≡◌, ◌<◌, ◌≤◌, ◌^◌, ℕ, List, true, false};
ghost use Rattle.storage.specs.Slots.{is_low};
ghost use Rattle.open_transactions.specs.Clients.{transaction_in};
ghost use Rattle.slot_area.specs.Area.{view};
ghost use Rattle.slot_txn.specs.logged.State.{state_of, faults_of};
ghost use Rattle.slot_txn.specs.logged.Stops.{Stops};

use crate::slot_txn::SlotTxn;
use open_transactions::has_low_number;
use storage::{Disk, Mark, SlotFault, Slots};

/// The most slots that a transaction may write, those of low numbers aside.
const MAX_SLOT_WRITES: u32 = 7989;

/// The number of slots. It is the end too while writes are still to be undone: what an undo restores
/// may be past the slots that area 0 and the memory have.
const SLOTS: u32 = 1_048_576;

impl<D: Disk + Drop> SlotTxn<D> {
    /// Whether the client's transaction has all the writes that count, and a write of the slot would
    /// count too.
    fn is_full(&self, client: u16, slot: u32) -> bool
        requires client { client < 16 }
        ensures yes { result ≡ true → (is_low slot ≡ false) × (7989 ≤ (transaction_in self.now.slots.transactions.clients.items client).counted) }
        ensures no { result ≡ false → is_low slot ≡ false → (transaction_in self.now.slots.transactions.clients.items client).counted < 7989 }
    {
        if has_low_number(slot) {
            return false;
        }
        self.slots.transactions.counted(client) >= MAX_SLOT_WRITES
    }
}

impl<D: Disk + Drop> Slots for SlotTxn<D> {
    ghost state = { λ s. state_of (D.observable s.slots.disk) (view s.slots.slots (D.seen s.slots.disk 0)) (D.time s.slots.disk) (faults_of s.slots.exhausted (D.failures s.slots.disk)) s.slots.transactions.clients.items s.slots.failed s.slots.doubtful s.slots.since s.slots.short };

    ghost stop = { λ s m slots. Stops (D.observable s.slots.disk) s.slots.since (D.time s.slots.disk) (D.left s.slots.disk) m slots };

    ghost stop_known = { λ s m slots st. record { observable = st.0; from = st.1; past = st.2 } };

    ghost since_past = { λ s. s.slots.past };

    fn faults(&self) -> u64 {
        let faults = self.slots.disk.faults();
        if self.slots.exhausted && faults < u64::MAX {
            return faults + 1;
        }
        faults
    }

    fn end(&self) -> u32 {
        match self.slots.transactions.first_due() {
            Some(_) => SLOTS,
            None => self.slots.slots.bound(),
        }
    }

    fn read(&mut self, slot: u32, into: &mut [u8; 256]) -> Result<(), SlotFault> {
        match self.slots.ready() {
            Ok(()) => self.slots.read(slot, into),
            Err(fault) => Err(fault),
        }
    }

    fn begin(&mut self, client: u16) -> Result<(), SlotFault> {
        match self.slots.ready() {
            Ok(()) => self.slots.begin(client),
            Err(fault) => Err(fault),
        }
    }

    fn room(&mut self, client: u16, writes: u32) -> Result<(), SlotFault> {
        self.slots.room(client, writes)
    }

    fn write(&mut self, client: u16, slot: u32, bytes: &[u8; 256]) -> Result<(), SlotFault> {
        if self.is_full(client, slot) {
            return Err(SlotFault::TxFull);
        }
        match self.slots.ready() {
            Ok(()) => self.slots.put(client, slot, bytes),
            Err(fault) => Err(fault),
        }
    }

    fn mark(&self, client: u16) -> Mark {
        Mark {
            at: self.slots.transactions.standing(client),
        }
    }

    fn back(&mut self, client: u16, mark: Mark) -> Result<(), SlotFault> {
        if self.slots.failed {
            return Err(SlotFault::Disk);
        }
        self.slots.go_back(client, mark.at);
        Ok(())
    }

    fn commit(&mut self, client: u16) -> Result<u64, SlotFault> {
        match self.slots.ready() {
            Ok(()) => self.slots.settle_commit(client),
            Err(fault) => Err(fault),
        }
    }

    fn abandon(&mut self, client: u16) {
        self.slots.abandon(client);
    }
}
