//! Whole writes.

ghost use Rattle.std.specs.Prelude.{◌≡◌, ◌≢◌, ◌+◌, ◌<◌, ◌≤◌, ◌^◌, ℕ, List, length, true, false, Some, IsTrue, OnOk, OnErr, IsErrOf, is_ok};
ghost use Rattle.storage.specs.Slots.{Writes, Rests, Goes, HasCause, is_low, wrote};
ghost use Rattle.bi_log.specs.Buffer.{content};
ghost use Rattle.open_transactions.specs.Clients.{transaction_in, number_in, list_in, NothingDue};
ghost use Rattle.slot_area.specs.Area.{view, is_ready};
ghost use Rattle.slot_txn.specs.logged.State.{state_of, faults_of};
ghost use Rattle.slot_txn.specs.logged.Stops.{Stops};

use crate::logged::logged_slots::LoggedSlots;
use storage::{Disk, SlotFault};

impl<D: Disk + Drop> LoggedSlots<D> {
    /// Writes the slot, with memory taken for it. `now` is what it reads; it has a frame, and there is
    /// room for its note.
    fn put_numbered(
        &mut self,
        client: u16,
        number: u64,
        slot: u32,
        now: &[u8; 256],
        bytes: &[u8; 256],
    ) -> Result<(), SlotFault>
        requires client { client < 16 }
        requires slot { slot < 2 ^ 20 }
        requires begun { (transaction_in self.old.transactions.clients.items client).begun ≡ true }
        requires number { number_in self.old.transactions.clients.items client ≡ Some number }
        requires none_due { NothingDue self.old.transactions.clients.items }
        requires alone { (c : ℕ) → c ≢ client → wrote (list_in self.old.transactions.clients.items c) slot ≡ false }
        requires counted { is_low slot ≡ false → (transaction_in self.old.transactions.clients.items client).counted < 7989 }
        requires low { is_low slot ≡ true → (transaction_in self.old.transactions.clients.items client).low < 10 }
        requires usable { self.old.failed ≡ false }
        requires filled { slot ≤ self.old.generation.filled }
        requires read { IsTrue (D.observable self.old.disk) → now.now ≡ view self.old.slots (D.seen self.old.disk 0) slot }
        requires ready { is_ready self.old.slots self.old.log.settled slot ≡ true }
        requires place { (length (content self.old.log.buffer) + 525 ≤ 1048576) × (self.old.log.appended + 1 < 2 ^ 64) }
        ensures ok { OnOk result (Writes (state_of (D.observable self.old.disk) (view self.old.slots (D.seen self.old.disk 0)) (D.time self.old.disk) (faults_of self.old.exhausted (D.failures self.old.disk)) self.old.transactions.clients.items self.old.failed self.old.doubtful self.old.since self.old.short)
            (state_of (D.observable self.new.disk) (view self.new.slots (D.seen self.new.disk 0)) (D.time self.new.disk) (faults_of self.new.exhausted (D.failures self.new.disk)) self.new.transactions.clients.items self.new.failed self.new.doubtful self.new.since self.new.short) client slot bytes.now) }
        ensures err { OnErr result (Rests (state_of (D.observable self.old.disk) (view self.old.slots (D.seen self.old.disk 0)) (D.time self.old.disk) (faults_of self.old.exhausted (D.failures self.old.disk)) self.old.transactions.clients.items self.old.failed self.old.doubtful self.old.since self.old.short)
            (state_of (D.observable self.new.disk) (view self.new.slots (D.seen self.new.disk 0)) (D.time self.new.disk) (faults_of self.new.exhausted (D.failures self.new.disk)) self.new.transactions.clients.items self.new.failed self.new.doubtful self.new.since self.new.short)) }
        ensures full { IsErrOf result SlotFault.TxFull → ⊥ }
        ensures room { 0 < (transaction_in self.old.transactions.clients.items client).room → IsErrOf result SlotFault.NoMemory → ⊥ }
        ensures low_room { is_low slot ≡ true → IsErrOf result SlotFault.NoMemory → ⊥ }
        ensures same_observable { D.observable self.new.disk ≡ D.observable self.old.disk }
        ensures time { Goes (state_of (D.observable self.old.disk) (view self.old.slots (D.seen self.old.disk 0)) (D.time self.old.disk) (faults_of self.old.exhausted (D.failures self.old.disk)) self.old.transactions.clients.items self.old.failed self.old.doubtful self.old.since self.old.short)
            (state_of (D.observable self.new.disk) (view self.new.slots (D.seen self.new.disk 0)) (D.time self.new.disk) (faults_of self.new.exhausted (D.failures self.new.disk)) self.new.transactions.clients.items self.new.failed self.new.doubtful self.new.since self.new.short)
            (Stops (D.observable self.old.disk) self.old.since (D.time self.old.disk) (D.left self.old.disk)) (Stops (D.observable self.new.disk) self.new.since (D.time self.new.disk) (D.left self.new.disk)) }
        ensures cause { HasCause (state_of (D.observable self.old.disk) (view self.old.slots (D.seen self.old.disk 0)) (D.time self.old.disk) (faults_of self.old.exhausted (D.failures self.old.disk)) self.old.transactions.clients.items self.old.failed self.old.doubtful self.old.since self.old.short)
            (state_of (D.observable self.new.disk) (view self.new.slots (D.seen self.new.disk 0)) (D.time self.new.disk) (faults_of self.new.exhausted (D.failures self.new.disk)) self.new.transactions.clients.items self.new.failed self.new.doubtful self.new.since self.new.short) result }
    {
        if !self.transactions.reserve_for(client, slot) {
            return Err(SlotFault::NoMemory);
        }
        self.write(client, number, slot, now, bytes)
    }

    /// The same for the transaction that is begun.
    fn put_prepared(
        &mut self,
        client: u16,
        slot: u32,
        now: &[u8; 256],
        bytes: &[u8; 256],
    ) -> Result<(), SlotFault>
        requires client { client < 16 }
        requires slot { slot < 2 ^ 20 }
        requires begun { (transaction_in self.old.transactions.clients.items client).begun ≡ true }
        requires none_due { NothingDue self.old.transactions.clients.items }
        requires alone { (c : ℕ) → c ≢ client → wrote (list_in self.old.transactions.clients.items c) slot ≡ false }
        requires counted { is_low slot ≡ false → (transaction_in self.old.transactions.clients.items client).counted < 7989 }
        requires low { is_low slot ≡ true → (transaction_in self.old.transactions.clients.items client).low < 10 }
        requires usable { self.old.failed ≡ false }
        requires filled { slot ≤ self.old.generation.filled }
        requires read { IsTrue (D.observable self.old.disk) → now.now ≡ view self.old.slots (D.seen self.old.disk 0) slot }
        requires ready { is_ready self.old.slots self.old.log.settled slot ≡ true }
        requires place { (length (content self.old.log.buffer) + 525 ≤ 1048576) × (self.old.log.appended + 1 < 2 ^ 64) }
        ensures ok { OnOk result (Writes (state_of (D.observable self.old.disk) (view self.old.slots (D.seen self.old.disk 0)) (D.time self.old.disk) (faults_of self.old.exhausted (D.failures self.old.disk)) self.old.transactions.clients.items self.old.failed self.old.doubtful self.old.since self.old.short)
            (state_of (D.observable self.new.disk) (view self.new.slots (D.seen self.new.disk 0)) (D.time self.new.disk) (faults_of self.new.exhausted (D.failures self.new.disk)) self.new.transactions.clients.items self.new.failed self.new.doubtful self.new.since self.new.short) client slot bytes.now) }
        ensures err { OnErr result (Rests (state_of (D.observable self.old.disk) (view self.old.slots (D.seen self.old.disk 0)) (D.time self.old.disk) (faults_of self.old.exhausted (D.failures self.old.disk)) self.old.transactions.clients.items self.old.failed self.old.doubtful self.old.since self.old.short)
            (state_of (D.observable self.new.disk) (view self.new.slots (D.seen self.new.disk 0)) (D.time self.new.disk) (faults_of self.new.exhausted (D.failures self.new.disk)) self.new.transactions.clients.items self.new.failed self.new.doubtful self.new.since self.new.short)) }
        ensures full { IsErrOf result SlotFault.TxFull → ⊥ }
        ensures room { 0 < (transaction_in self.old.transactions.clients.items client).room → IsErrOf result SlotFault.NoMemory → ⊥ }
        ensures low_room { is_low slot ≡ true → IsErrOf result SlotFault.NoMemory → ⊥ }
        ensures same_observable { D.observable self.new.disk ≡ D.observable self.old.disk }
        ensures time { Goes (state_of (D.observable self.old.disk) (view self.old.slots (D.seen self.old.disk 0)) (D.time self.old.disk) (faults_of self.old.exhausted (D.failures self.old.disk)) self.old.transactions.clients.items self.old.failed self.old.doubtful self.old.since self.old.short)
            (state_of (D.observable self.new.disk) (view self.new.slots (D.seen self.new.disk 0)) (D.time self.new.disk) (faults_of self.new.exhausted (D.failures self.new.disk)) self.new.transactions.clients.items self.new.failed self.new.doubtful self.new.since self.new.short)
            (Stops (D.observable self.old.disk) self.old.since (D.time self.old.disk) (D.left self.old.disk)) (Stops (D.observable self.new.disk) self.new.since (D.time self.new.disk) (D.left self.new.disk)) }
        ensures cause { HasCause (state_of (D.observable self.old.disk) (view self.old.slots (D.seen self.old.disk 0)) (D.time self.old.disk) (faults_of self.old.exhausted (D.failures self.old.disk)) self.old.transactions.clients.items self.old.failed self.old.doubtful self.old.since self.old.short)
            (state_of (D.observable self.new.disk) (view self.new.slots (D.seen self.new.disk 0)) (D.time self.new.disk) (faults_of self.new.exhausted (D.failures self.new.disk)) self.new.transactions.clients.items self.new.failed self.new.doubtful self.new.since self.new.short) result }
    {
        match self.transactions.number(client) {
            Some(number) => self.put_numbered(client, number, slot, now, bytes),
            None => unreachable!(),
        }
    }

    /// Reads the slot, makes room for its note and writes it. Each slot before it past area 0's end has
    /// a note.
    fn put_filled(&mut self, client: u16, slot: u32, bytes: &[u8; 256]) -> Result<(), SlotFault>
        requires client { client < 16 }
        requires slot { slot < 2 ^ 20 }
        requires begun { (transaction_in self.old.transactions.clients.items client).begun ≡ true }
        requires none_due { NothingDue self.old.transactions.clients.items }
        requires alone { (c : ℕ) → c ≢ client → wrote (list_in self.old.transactions.clients.items c) slot ≡ false }
        requires counted { is_low slot ≡ false → (transaction_in self.old.transactions.clients.items client).counted < 7989 }
        requires low { is_low slot ≡ true → (transaction_in self.old.transactions.clients.items client).low < 10 }
        requires usable { self.old.failed ≡ false }
        requires filled { slot ≤ self.old.generation.filled }
        ensures ok { OnOk result (Writes (state_of (D.observable self.old.disk) (view self.old.slots (D.seen self.old.disk 0)) (D.time self.old.disk) (faults_of self.old.exhausted (D.failures self.old.disk)) self.old.transactions.clients.items self.old.failed self.old.doubtful self.old.since self.old.short)
            (state_of (D.observable self.new.disk) (view self.new.slots (D.seen self.new.disk 0)) (D.time self.new.disk) (faults_of self.new.exhausted (D.failures self.new.disk)) self.new.transactions.clients.items self.new.failed self.new.doubtful self.new.since self.new.short) client slot bytes.now) }
        ensures err { OnErr result (Rests (state_of (D.observable self.old.disk) (view self.old.slots (D.seen self.old.disk 0)) (D.time self.old.disk) (faults_of self.old.exhausted (D.failures self.old.disk)) self.old.transactions.clients.items self.old.failed self.old.doubtful self.old.since self.old.short)
            (state_of (D.observable self.new.disk) (view self.new.slots (D.seen self.new.disk 0)) (D.time self.new.disk) (faults_of self.new.exhausted (D.failures self.new.disk)) self.new.transactions.clients.items self.new.failed self.new.doubtful self.new.since self.new.short)) }
        ensures full { IsErrOf result SlotFault.TxFull → ⊥ }
        ensures room { 0 < (transaction_in self.old.transactions.clients.items client).room → IsErrOf result SlotFault.NoMemory → ⊥ }
        ensures low_room { is_low slot ≡ true → IsErrOf result SlotFault.NoMemory → ⊥ }
        ensures same_observable { D.observable self.new.disk ≡ D.observable self.old.disk }
        ensures time { Goes (state_of (D.observable self.old.disk) (view self.old.slots (D.seen self.old.disk 0)) (D.time self.old.disk) (faults_of self.old.exhausted (D.failures self.old.disk)) self.old.transactions.clients.items self.old.failed self.old.doubtful self.old.since self.old.short)
            (state_of (D.observable self.new.disk) (view self.new.slots (D.seen self.new.disk 0)) (D.time self.new.disk) (faults_of self.new.exhausted (D.failures self.new.disk)) self.new.transactions.clients.items self.new.failed self.new.doubtful self.new.since self.new.short)
            (Stops (D.observable self.old.disk) self.old.since (D.time self.old.disk) (D.left self.old.disk)) (Stops (D.observable self.new.disk) self.new.since (D.time self.new.disk) (D.left self.new.disk)) }
        ensures cause { HasCause (state_of (D.observable self.old.disk) (view self.old.slots (D.seen self.old.disk 0)) (D.time self.old.disk) (faults_of self.old.exhausted (D.failures self.old.disk)) self.old.transactions.clients.items self.old.failed self.old.doubtful self.old.since self.old.short)
            (state_of (D.observable self.new.disk) (view self.new.slots (D.seen self.new.disk 0)) (D.time self.new.disk) (faults_of self.new.exhausted (D.failures self.new.disk)) self.new.transactions.clients.items self.new.failed self.new.doubtful self.new.since self.new.short) result }
    {
        let mut now = [0u8; 256];
        match self.prepare(slot, &mut now) {
            Ok(()) => self.put_prepared(client, slot, &now, bytes),
            Err(_) => Err(SlotFault::Disk),
        }
    }

    /// Writes the slot for the client, where nothing is due.
    pub fn put(&mut self, client: u16, slot: u32, bytes: &[u8; 256]) -> Result<(), SlotFault>
        requires client { client < 16 }
        requires slot { slot < 2 ^ 20 }
        requires begun { (transaction_in self.old.transactions.clients.items client).begun ≡ true }
        requires none_due { NothingDue self.old.transactions.clients.items }
        requires alone { (c : ℕ) → c ≢ client → wrote (list_in self.old.transactions.clients.items c) slot ≡ false }
        requires counted { is_low slot ≡ false → (transaction_in self.old.transactions.clients.items client).counted < 7989 }
        requires low { is_low slot ≡ true → (transaction_in self.old.transactions.clients.items client).low < 10 }
        requires usable { self.old.failed ≡ false }
        ensures ok { OnOk result (Writes (state_of (D.observable self.old.disk) (view self.old.slots (D.seen self.old.disk 0)) (D.time self.old.disk) (faults_of self.old.exhausted (D.failures self.old.disk)) self.old.transactions.clients.items self.old.failed self.old.doubtful self.old.since self.old.short)
            (state_of (D.observable self.new.disk) (view self.new.slots (D.seen self.new.disk 0)) (D.time self.new.disk) (faults_of self.new.exhausted (D.failures self.new.disk)) self.new.transactions.clients.items self.new.failed self.new.doubtful self.new.since self.new.short) client slot bytes.now) }
        ensures err { OnErr result (Rests (state_of (D.observable self.old.disk) (view self.old.slots (D.seen self.old.disk 0)) (D.time self.old.disk) (faults_of self.old.exhausted (D.failures self.old.disk)) self.old.transactions.clients.items self.old.failed self.old.doubtful self.old.since self.old.short)
            (state_of (D.observable self.new.disk) (view self.new.slots (D.seen self.new.disk 0)) (D.time self.new.disk) (faults_of self.new.exhausted (D.failures self.new.disk)) self.new.transactions.clients.items self.new.failed self.new.doubtful self.new.since self.new.short)) }
        ensures full { IsErrOf result SlotFault.TxFull → ⊥ }
        ensures room { 0 < (transaction_in self.old.transactions.clients.items client).room → IsErrOf result SlotFault.NoMemory → ⊥ }
        ensures low_room { is_low slot ≡ true → IsErrOf result SlotFault.NoMemory → ⊥ }
        ensures same_observable { D.observable self.new.disk ≡ D.observable self.old.disk }
        ensures time { Goes (state_of (D.observable self.old.disk) (view self.old.slots (D.seen self.old.disk 0)) (D.time self.old.disk) (faults_of self.old.exhausted (D.failures self.old.disk)) self.old.transactions.clients.items self.old.failed self.old.doubtful self.old.since self.old.short)
            (state_of (D.observable self.new.disk) (view self.new.slots (D.seen self.new.disk 0)) (D.time self.new.disk) (faults_of self.new.exhausted (D.failures self.new.disk)) self.new.transactions.clients.items self.new.failed self.new.doubtful self.new.since self.new.short)
            (Stops (D.observable self.old.disk) self.old.since (D.time self.old.disk) (D.left self.old.disk)) (Stops (D.observable self.new.disk) self.new.since (D.time self.new.disk) (D.left self.new.disk)) }
        ensures cause { HasCause (state_of (D.observable self.old.disk) (view self.old.slots (D.seen self.old.disk 0)) (D.time self.old.disk) (faults_of self.old.exhausted (D.failures self.old.disk)) self.old.transactions.clients.items self.old.failed self.old.doubtful self.old.since self.old.short)
            (state_of (D.observable self.new.disk) (view self.new.slots (D.seen self.new.disk 0)) (D.time self.new.disk) (faults_of self.new.exhausted (D.failures self.new.disk)) self.new.transactions.clients.items self.new.failed self.new.doubtful self.new.since self.new.short) result }
    {
        match self.fill_to(slot) {
            Ok(()) => self.put_filled(client, slot, bytes),
            Err(_) => Err(SlotFault::Disk),
        }
    }
}
