//! Whole calls, but for those that make no disk call.

ghost use Rattle.std.specs.Prelude.{◌≡◌, ◌≢◌, ◌+◌, ◌<◌, ◌≤◌, ◌^◌, ℕ, List, length, true, false, Some, IsTrue, IfOk, OnOk, OnErr, IsErrOf, is_ok};
ghost use Rattle.storage.specs.Slots.{IsReadable, Writes, Commits, Fails, Rests, Goes, HasCause, OnlyDisk, is_low, wrote};
ghost use Rattle.open_transactions.specs.Clients.{transaction_in, number_in, list_in, lists, NothingDue};
ghost use Rattle.slot_area.specs.Area.{view};
ghost use Rattle.slot_txn.specs.logged.State.{state_of, faults_of};
ghost use Rattle.slot_txn.specs.logged.Stops.{Stops};

use crate::logged::logged_slots::LoggedSlots;
use storage::{Disk, SlotFault};

impl<D: Disk + Drop> LoggedSlots<D> {
    /// Makes a checkpoint where the log has grown. Nothing is due.
    fn go_on(&mut self) -> Result<(), SlotFault>
        requires usable { self.old.failed ≡ false }
        requires none_due { NothingDue self.old.transactions.clients.items }
        ensures rest { Rests (state_of (D.observable self.old.disk) (view self.old.slots (D.seen self.old.disk 0)) (D.time self.old.disk) (faults_of self.old.exhausted (D.failures self.old.disk)) self.old.transactions.clients.items self.old.failed self.old.doubtful self.old.since self.old.short)
            (state_of (D.observable self.new.disk) (view self.new.slots (D.seen self.new.disk 0)) (D.time self.new.disk) (faults_of self.new.exhausted (D.failures self.new.disk)) self.new.transactions.clients.items self.new.failed self.new.doubtful self.new.since self.new.short) }
        ensures time { Goes (state_of (D.observable self.old.disk) (view self.old.slots (D.seen self.old.disk 0)) (D.time self.old.disk) (faults_of self.old.exhausted (D.failures self.old.disk)) self.old.transactions.clients.items self.old.failed self.old.doubtful self.old.since self.old.short)
            (state_of (D.observable self.new.disk) (view self.new.slots (D.seen self.new.disk 0)) (D.time self.new.disk) (faults_of self.new.exhausted (D.failures self.new.disk)) self.new.transactions.clients.items self.new.failed self.new.doubtful self.new.since self.new.short)
            (Stops (D.observable self.old.disk) self.old.since (D.time self.old.disk) (D.left self.old.disk)) (Stops (D.observable self.new.disk) self.new.since (D.time self.new.disk) (D.left self.new.disk)) }
        ensures cause { HasCause (state_of (D.observable self.old.disk) (view self.old.slots (D.seen self.old.disk 0)) (D.time self.old.disk) (faults_of self.old.exhausted (D.failures self.old.disk)) self.old.transactions.clients.items self.old.failed self.old.doubtful self.old.since self.old.short)
            (state_of (D.observable self.new.disk) (view self.new.slots (D.seen self.new.disk 0)) (D.time self.new.disk) (faults_of self.new.exhausted (D.failures self.new.disk)) self.new.transactions.clients.items self.new.failed self.new.doubtful self.new.since self.new.short) result }
        ensures only { OnlyDisk result }
        ensures ready { OnOk result ((self.new.failed ≡ false) × NothingDue self.new.transactions.clients.items) }
    {
        match self.make_way() {
            Ok(()) => Ok(()),
            Err(_) => Err(SlotFault::Disk),
        }
    }

    /// Undoes what is due, where no call has failed, and makes a checkpoint where the log has grown.
    pub fn ready(&mut self) -> Result<(), SlotFault>
        ensures rest { Rests (state_of (D.observable self.old.disk) (view self.old.slots (D.seen self.old.disk 0)) (D.time self.old.disk) (faults_of self.old.exhausted (D.failures self.old.disk)) self.old.transactions.clients.items self.old.failed self.old.doubtful self.old.since self.old.short)
            (state_of (D.observable self.new.disk) (view self.new.slots (D.seen self.new.disk 0)) (D.time self.new.disk) (faults_of self.new.exhausted (D.failures self.new.disk)) self.new.transactions.clients.items self.new.failed self.new.doubtful self.new.since self.new.short) }
        ensures time { Goes (state_of (D.observable self.old.disk) (view self.old.slots (D.seen self.old.disk 0)) (D.time self.old.disk) (faults_of self.old.exhausted (D.failures self.old.disk)) self.old.transactions.clients.items self.old.failed self.old.doubtful self.old.since self.old.short)
            (state_of (D.observable self.new.disk) (view self.new.slots (D.seen self.new.disk 0)) (D.time self.new.disk) (faults_of self.new.exhausted (D.failures self.new.disk)) self.new.transactions.clients.items self.new.failed self.new.doubtful self.new.since self.new.short)
            (Stops (D.observable self.old.disk) self.old.since (D.time self.old.disk) (D.left self.old.disk)) (Stops (D.observable self.new.disk) self.new.since (D.time self.new.disk) (D.left self.new.disk)) }
        ensures cause { HasCause (state_of (D.observable self.old.disk) (view self.old.slots (D.seen self.old.disk 0)) (D.time self.old.disk) (faults_of self.old.exhausted (D.failures self.old.disk)) self.old.transactions.clients.items self.old.failed self.old.doubtful self.old.since self.old.short)
            (state_of (D.observable self.new.disk) (view self.new.slots (D.seen self.new.disk 0)) (D.time self.new.disk) (faults_of self.new.exhausted (D.failures self.new.disk)) self.new.transactions.clients.items self.new.failed self.new.doubtful self.new.since self.new.short) result }
        ensures only { OnlyDisk result }
        ensures ready { OnOk result ((self.new.failed ≡ false) × NothingDue self.new.transactions.clients.items) }
    {
        if self.failed {
            return Err(SlotFault::Disk);
        }
        match self.undo_due() {
            Ok(()) => self.go_on(),
            Err(fault) => Err(fault),
        }
    }

    /// Reads the slot, where nothing is due.
    pub fn read(&mut self, slot: u32, into: &mut [u8; 256]) -> Result<(), SlotFault>
        requires slot { slot < 2 ^ 20 }
        requires usable { self.old.failed ≡ false }
        requires none_due { NothingDue self.old.transactions.clients.items }
        ensures bytes { OnOk result (IsReadable (state_of (D.observable self.old.disk) (view self.old.slots (D.seen self.old.disk 0)) (D.time self.old.disk) (faults_of self.old.exhausted (D.failures self.old.disk)) self.old.transactions.clients.items self.old.failed self.old.doubtful self.old.since self.old.short) → into.new ≡ ((state_of (D.observable self.old.disk) (view self.old.slots (D.seen self.old.disk 0)) (D.time self.old.disk) (faults_of self.old.exhausted (D.failures self.old.disk)) self.old.transactions.clients.items self.old.failed self.old.doubtful self.old.since self.old.short)).reads slot) }
        ensures rest { Rests (state_of (D.observable self.old.disk) (view self.old.slots (D.seen self.old.disk 0)) (D.time self.old.disk) (faults_of self.old.exhausted (D.failures self.old.disk)) self.old.transactions.clients.items self.old.failed self.old.doubtful self.old.since self.old.short)
            (state_of (D.observable self.new.disk) (view self.new.slots (D.seen self.new.disk 0)) (D.time self.new.disk) (faults_of self.new.exhausted (D.failures self.new.disk)) self.new.transactions.clients.items self.new.failed self.new.doubtful self.new.since self.new.short) }
        ensures time { Goes (state_of (D.observable self.old.disk) (view self.old.slots (D.seen self.old.disk 0)) (D.time self.old.disk) (faults_of self.old.exhausted (D.failures self.old.disk)) self.old.transactions.clients.items self.old.failed self.old.doubtful self.old.since self.old.short)
            (state_of (D.observable self.new.disk) (view self.new.slots (D.seen self.new.disk 0)) (D.time self.new.disk) (faults_of self.new.exhausted (D.failures self.new.disk)) self.new.transactions.clients.items self.new.failed self.new.doubtful self.new.since self.new.short)
            (Stops (D.observable self.old.disk) self.old.since (D.time self.old.disk) (D.left self.old.disk)) (Stops (D.observable self.new.disk) self.new.since (D.time self.new.disk) (D.left self.new.disk)) }
        ensures cause { HasCause (state_of (D.observable self.old.disk) (view self.old.slots (D.seen self.old.disk 0)) (D.time self.old.disk) (faults_of self.old.exhausted (D.failures self.old.disk)) self.old.transactions.clients.items self.old.failed self.old.doubtful self.old.since self.old.short)
            (state_of (D.observable self.new.disk) (view self.new.slots (D.seen self.new.disk 0)) (D.time self.new.disk) (faults_of self.new.exhausted (D.failures self.new.disk)) self.new.transactions.clients.items self.new.failed self.new.doubtful self.new.since self.new.short) result }
        ensures only { OnlyDisk result }
    {
        if self.slots.is_blank(slot) {
            *into = [0; 256];
            return Ok(());
        }
        match self.read_slot(slot, into) {
            Ok(()) => Ok(()),
            Err(_) => Err(SlotFault::Disk),
        }
    }

    /// Makes room for the note of the commit, and commits.
    fn commit_with(&mut self, client: u16, number: u64) -> Result<u64, SlotFault>
        requires client { client < 16 }
        requires begun { (transaction_in self.old.transactions.clients.items client).begun ≡ true }
        requires number { number_in self.old.transactions.clients.items client ≡ Some number }
        requires none_due { NothingDue self.old.transactions.clients.items }
        requires usable { self.old.failed ≡ false }
        ensures moment { IfOk result (λ moment. moment ≡ D.time self.new.disk) }
        ensures ok { OnOk result (Commits (state_of (D.observable self.old.disk) (view self.old.slots (D.seen self.old.disk 0)) (D.time self.old.disk) (faults_of self.old.exhausted (D.failures self.old.disk)) self.old.transactions.clients.items self.old.failed self.old.doubtful self.old.since self.old.short)
            (state_of (D.observable self.new.disk) (view self.new.slots (D.seen self.new.disk 0)) (D.time self.new.disk) (faults_of self.new.exhausted (D.failures self.new.disk)) self.new.transactions.clients.items self.new.failed self.new.doubtful self.new.since self.new.short) client) }
        ensures acknowledged { OnOk result ((slots : ℕ → List ℕ) → Stops (D.observable self.new.disk) self.new.since (D.time self.new.disk) (D.left self.new.disk) (D.time self.new.disk) slots
            → slots ≡ ((state_of (D.observable self.new.disk) (view self.new.slots (D.seen self.new.disk 0)) (D.time self.new.disk) (faults_of self.new.exhausted (D.failures self.new.disk)) self.new.transactions.clients.items self.new.failed self.new.doubtful self.new.since self.new.short)).committed) }
        ensures err { OnErr result (Fails (state_of (D.observable self.old.disk) (view self.old.slots (D.seen self.old.disk 0)) (D.time self.old.disk) (faults_of self.old.exhausted (D.failures self.old.disk)) self.old.transactions.clients.items self.old.failed self.old.doubtful self.old.since self.old.short)
            (state_of (D.observable self.new.disk) (view self.new.slots (D.seen self.new.disk 0)) (D.time self.new.disk) (faults_of self.new.exhausted (D.failures self.new.disk)) self.new.transactions.clients.items self.new.failed self.new.doubtful self.new.since self.new.short) client) }
        ensures same_observable { D.observable self.new.disk ≡ D.observable self.old.disk }
        ensures time { Goes (state_of (D.observable self.old.disk) (view self.old.slots (D.seen self.old.disk 0)) (D.time self.old.disk) (faults_of self.old.exhausted (D.failures self.old.disk)) self.old.transactions.clients.items self.old.failed self.old.doubtful self.old.since self.old.short)
            (state_of (D.observable self.new.disk) (view self.new.slots (D.seen self.new.disk 0)) (D.time self.new.disk) (faults_of self.new.exhausted (D.failures self.new.disk)) self.new.transactions.clients.items self.new.failed self.new.doubtful self.new.since self.new.short)
            (Stops (D.observable self.old.disk) self.old.since (D.time self.old.disk) (D.left self.old.disk)) (Stops (D.observable self.new.disk) self.new.since (D.time self.new.disk) (D.left self.new.disk)) }
        ensures cause { HasCause (state_of (D.observable self.old.disk) (view self.old.slots (D.seen self.old.disk 0)) (D.time self.old.disk) (faults_of self.old.exhausted (D.failures self.old.disk)) self.old.transactions.clients.items self.old.failed self.old.doubtful self.old.since self.old.short)
            (state_of (D.observable self.new.disk) (view self.new.slots (D.seen self.new.disk 0)) (D.time self.new.disk) (faults_of self.new.exhausted (D.failures self.new.disk)) self.new.transactions.clients.items self.new.failed self.new.doubtful self.new.since self.new.short) result }
        ensures only { OnlyDisk result }
    {
        match self.make_note_room() {
            Ok(()) => self.commit(client, number),
            Err(_) => Err(SlotFault::Disk),
        }
    }

    /// Commits the client's transaction, where nothing is due.
    pub fn settle_commit(&mut self, client: u16) -> Result<u64, SlotFault>
        requires client { client < 16 }
        requires begun { (transaction_in self.old.transactions.clients.items client).begun ≡ true }
        requires none_due { NothingDue self.old.transactions.clients.items }
        requires usable { self.old.failed ≡ false }
        ensures moment { IfOk result (λ moment. moment ≡ D.time self.new.disk) }
        ensures ok { OnOk result (Commits (state_of (D.observable self.old.disk) (view self.old.slots (D.seen self.old.disk 0)) (D.time self.old.disk) (faults_of self.old.exhausted (D.failures self.old.disk)) self.old.transactions.clients.items self.old.failed self.old.doubtful self.old.since self.old.short)
            (state_of (D.observable self.new.disk) (view self.new.slots (D.seen self.new.disk 0)) (D.time self.new.disk) (faults_of self.new.exhausted (D.failures self.new.disk)) self.new.transactions.clients.items self.new.failed self.new.doubtful self.new.since self.new.short) client) }
        ensures acknowledged { OnOk result ((slots : ℕ → List ℕ) → Stops (D.observable self.new.disk) self.new.since (D.time self.new.disk) (D.left self.new.disk) (D.time self.new.disk) slots
            → slots ≡ ((state_of (D.observable self.new.disk) (view self.new.slots (D.seen self.new.disk 0)) (D.time self.new.disk) (faults_of self.new.exhausted (D.failures self.new.disk)) self.new.transactions.clients.items self.new.failed self.new.doubtful self.new.since self.new.short)).committed) }
        ensures err { OnErr result (Fails (state_of (D.observable self.old.disk) (view self.old.slots (D.seen self.old.disk 0)) (D.time self.old.disk) (faults_of self.old.exhausted (D.failures self.old.disk)) self.old.transactions.clients.items self.old.failed self.old.doubtful self.old.since self.old.short)
            (state_of (D.observable self.new.disk) (view self.new.slots (D.seen self.new.disk 0)) (D.time self.new.disk) (faults_of self.new.exhausted (D.failures self.new.disk)) self.new.transactions.clients.items self.new.failed self.new.doubtful self.new.since self.new.short) client) }
        ensures same_observable { D.observable self.new.disk ≡ D.observable self.old.disk }
        ensures time { Goes (state_of (D.observable self.old.disk) (view self.old.slots (D.seen self.old.disk 0)) (D.time self.old.disk) (faults_of self.old.exhausted (D.failures self.old.disk)) self.old.transactions.clients.items self.old.failed self.old.doubtful self.old.since self.old.short)
            (state_of (D.observable self.new.disk) (view self.new.slots (D.seen self.new.disk 0)) (D.time self.new.disk) (faults_of self.new.exhausted (D.failures self.new.disk)) self.new.transactions.clients.items self.new.failed self.new.doubtful self.new.since self.new.short)
            (Stops (D.observable self.old.disk) self.old.since (D.time self.old.disk) (D.left self.old.disk)) (Stops (D.observable self.new.disk) self.new.since (D.time self.new.disk) (D.left self.new.disk)) }
        ensures cause { HasCause (state_of (D.observable self.old.disk) (view self.old.slots (D.seen self.old.disk 0)) (D.time self.old.disk) (faults_of self.old.exhausted (D.failures self.old.disk)) self.old.transactions.clients.items self.old.failed self.old.doubtful self.old.since self.old.short)
            (state_of (D.observable self.new.disk) (view self.new.slots (D.seen self.new.disk 0)) (D.time self.new.disk) (faults_of self.new.exhausted (D.failures self.new.disk)) self.new.transactions.clients.items self.new.failed self.new.doubtful self.new.since self.new.short) result }
        ensures only { OnlyDisk result }
    {
        match self.transactions.number(client) {
            Some(number) => self.commit_with(client, number),
            None => unreachable!(),
        }
    }
}
