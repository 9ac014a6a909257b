//! Commits.

ghost use Rattle.std.specs.Prelude.{◌≡◌, ◌+◌, ◌<◌, ◌≤◌, ◌^◌, ℕ, List, length, true, false, Some, IsTrue, IfOk, OnOk, OnErr, is_ok};
ghost use Rattle.storage.specs.Slots.{Commits, Fails, Goes, HasCause, OnlyDisk};
ghost use Rattle.bi_log.specs.Buffer.{content};
ghost use Rattle.open_transactions.specs.Clients.{transaction_in, number_in, NothingDue};
ghost use Rattle.slot_area.specs.Area.{view};
ghost use Rattle.slot_txn.specs.logged.State.{state_of, faults_of};
ghost use Rattle.slot_txn.specs.logged.Stops.{Stops};

use crate::logged::logged_slots::LoggedSlots;
use crate::logged::settling::has_room;
use storage::{Disk, SlotFault};

impl<D: Disk + Drop> LoggedSlots<D> {
    /// Appends the commit of the client's transaction, where nothing is due and the buffer has room,
    /// and settles it with all notes before it. It returns the moment from which on each stop leaves
    /// its writes.
    pub fn commit(&mut self, client: u16, number: u64) -> Result<u64, SlotFault>
        requires client { client < 16 }
        requires begun { (transaction_in self.old.transactions.clients.items client).begun ≡ true }
        requires number { number_in self.old.transactions.clients.items client ≡ Some number }
        requires none_due { NothingDue self.old.transactions.clients.items }
        requires usable { self.old.failed ≡ false }
        requires room { (length (content self.old.log.buffer) + 525 ≤ 1048576) × (self.old.log.appended + 1 < 2 ^ 64) }
        ensures moment { IfOk result (λ moment. moment ≡ D.time self.new.disk) }
        ensures ok { OnOk result (Commits (state_of (D.observable self.old.disk) (view self.old.slots (D.seen self.old.disk 0)) (D.time self.old.disk) (faults_of self.old.exhausted (D.failures self.old.disk)) self.old.transactions.clients.items self.old.failed self.old.doubtful self.old.since self.old.short)
            (state_of (D.observable self.new.disk) (view self.new.slots (D.seen self.new.disk 0)) (D.time self.new.disk) (faults_of self.new.exhausted (D.failures self.new.disk)) self.new.transactions.clients.items self.new.failed self.new.doubtful self.new.since self.new.short) client) }
        ensures acknowledged { OnOk result ((slots : ℕ → List ℕ) → Stops (D.observable self.new.disk) self.new.since (D.time self.new.disk) (D.left self.new.disk) (D.time self.new.disk) slots
            → slots ≡ ((state_of (D.observable self.new.disk) (view self.new.slots (D.seen self.new.disk 0)) (D.time self.new.disk) (faults_of self.new.exhausted (D.failures self.new.disk)) self.new.transactions.clients.items self.new.failed self.new.doubtful self.new.since self.new.short)).committed) }
        ensures err { OnErr result (Fails (state_of (D.observable self.old.disk) (view self.old.slots (D.seen self.old.disk 0)) (D.time self.old.disk) (faults_of self.old.exhausted (D.failures self.old.disk)) self.old.transactions.clients.items self.old.failed self.old.doubtful self.old.since self.old.short)
            (state_of (D.observable self.new.disk) (view self.new.slots (D.seen self.new.disk 0)) (D.time self.new.disk) (faults_of self.new.exhausted (D.failures self.new.disk)) self.new.transactions.clients.items self.new.failed self.new.doubtful self.new.since self.new.short) client) }
        ensures same_observable { D.observable self.new.disk ≡ D.observable self.old.disk }
        ensures time { Goes (state_of (D.observable self.old.disk) (view self.old.slots (D.seen self.old.disk 0)) (D.time self.old.disk) (faults_of self.old.exhausted (D.failures self.old.disk)) self.old.transactions.clients.items self.old.failed self.old.doubtful self.old.since self.old.short)
            (state_of (D.observable self.new.disk) (view self.new.slots (D.seen self.new.disk 0)) (D.time self.new.disk) (faults_of self.new.exhausted (D.failures self.new.disk)) self.new.transactions.clients.items self.new.failed self.new.doubtful self.new.since self.new.short)
            (Stops (D.observable self.old.disk) self.old.since (D.time self.old.disk) (D.left self.old.disk)) (Stops (D.observable self.new.disk) self.new.since (D.time self.new.disk) (D.left self.new.disk)) }
        ensures cause { HasCause (state_of (D.observable self.old.disk) (view self.old.slots (D.seen self.old.disk 0)) (D.time self.old.disk) (faults_of self.old.exhausted (D.failures self.old.disk)) self.old.transactions.clients.items self.old.failed self.old.doubtful self.old.since self.old.short)
            (state_of (D.observable self.new.disk) (view self.new.slots (D.seen self.new.disk 0)) (D.time self.new.disk) (faults_of self.new.exhausted (D.failures self.new.disk)) self.new.transactions.clients.items self.new.failed self.new.doubtful self.new.since self.new.short) result }
        ensures only { OnlyDisk result }
    {
        if !has_room(self.log.gate) {
            self.exhausted = true;
            self.failed = true;
            return Err(SlotFault::Disk);
        }
        self.log.append_commit(number);
        match self.log.flush(&mut self.disk) {
            Ok(()) => {
                self.transactions.commit(client);
                Ok(self.disk.moment())
            }
            Err(_) => {
                self.failed = true;
                self.doubtful = Some(client);
                Err(SlotFault::Disk)
            }
        }
    }
}
