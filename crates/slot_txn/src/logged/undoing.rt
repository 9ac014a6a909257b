//! Writes that are due, undone.

ghost use Rattle.std.specs.Prelude.{◌≡◌, ◌+◌, ◌<◌, ◌≤◌, ◌^◌, ℕ, List, length, true, false, Some, IsTrue, OnOk, is_ok};
ghost use Rattle.storage.specs.Slots.{Rests, Goes, HasCause, OnlyDisk};
ghost use Rattle.open_transactions.specs.Clients.{transaction_in, number_in, list_in, lists, NothingDue};
ghost use Rattle.slot_area.specs.Area.{view};
ghost use Rattle.slot_txn.specs.logged.State.{state_of, faults_of};
ghost use Rattle.slot_txn.specs.logged.Stops.{Stops};

use crate::logged::logged_slots::LoggedSlots;
use storage::{Disk, SlotFault};

impl<D: Disk + Drop> LoggedSlots<D> {
    /// Undoes the client's last write, which is due.
    fn undo_one(&mut self, client: u16, number: u64) -> Result<(), SlotFault>
        requires client { client < 16 }
        requires due { length (transaction_in self.old.transactions.clients.items client).undo < length (list_in self.old.transactions.clients.items client) }
        requires number { number_in self.old.transactions.clients.items client ≡ Some number }
        requires usable { self.old.failed ≡ false }
        ensures rest { Rests (state_of (D.observable self.old.disk) (view self.old.slots (D.seen self.old.disk 0)) (D.time self.old.disk) (faults_of self.old.exhausted (D.failures self.old.disk)) self.old.transactions.clients.items self.old.failed self.old.doubtful self.old.since self.old.short)
            (state_of (D.observable self.new.disk) (view self.new.slots (D.seen self.new.disk 0)) (D.time self.new.disk) (faults_of self.new.exhausted (D.failures self.new.disk)) self.new.transactions.clients.items self.new.failed self.new.doubtful self.new.since self.new.short) }
        ensures time { Goes (state_of (D.observable self.old.disk) (view self.old.slots (D.seen self.old.disk 0)) (D.time self.old.disk) (faults_of self.old.exhausted (D.failures self.old.disk)) self.old.transactions.clients.items self.old.failed self.old.doubtful self.old.since self.old.short)
            (state_of (D.observable self.new.disk) (view self.new.slots (D.seen self.new.disk 0)) (D.time self.new.disk) (faults_of self.new.exhausted (D.failures self.new.disk)) self.new.transactions.clients.items self.new.failed self.new.doubtful self.new.since self.new.short)
            (Stops (D.observable self.old.disk) self.old.since (D.time self.old.disk) (D.left self.old.disk)) (Stops (D.observable self.new.disk) self.new.since (D.time self.new.disk) (D.left self.new.disk)) }
        ensures cause { HasCause (state_of (D.observable self.old.disk) (view self.old.slots (D.seen self.old.disk 0)) (D.time self.old.disk) (faults_of self.old.exhausted (D.failures self.old.disk)) self.old.transactions.clients.items self.old.failed self.old.doubtful self.old.since self.old.short)
            (state_of (D.observable self.new.disk) (view self.new.slots (D.seen self.new.disk 0)) (D.time self.new.disk) (faults_of self.new.exhausted (D.failures self.new.disk)) self.new.transactions.clients.items self.new.failed self.new.doubtful self.new.since self.new.short) result }
        ensures only { OnlyDisk result }
        ensures fewer { OnOk result (length (lists self.new.transactions.clients.items) < length (lists self.old.transactions.clients.items)) }
    {
        let write = self.transactions.last(client);
        let mut now = [0u8; 256];
        match self.prepare(write.slot, &mut now) {
            Ok(()) => self.put_back(client, number, &now),
            Err(_) => Err(SlotFault::Disk),
        }
    }

    /// Undoes one write of the client, if the log may have one.
    fn undo_of(&mut self, client: u16) -> Result<(), SlotFault>
        requires client { client < 16 }
        requires due { length (transaction_in self.old.transactions.clients.items client).undo < length (list_in self.old.transactions.clients.items client) }
        requires usable { self.old.failed ≡ false }
        ensures rest { Rests (state_of (D.observable self.old.disk) (view self.old.slots (D.seen self.old.disk 0)) (D.time self.old.disk) (faults_of self.old.exhausted (D.failures self.old.disk)) self.old.transactions.clients.items self.old.failed self.old.doubtful self.old.since self.old.short)
            (state_of (D.observable self.new.disk) (view self.new.slots (D.seen self.new.disk 0)) (D.time self.new.disk) (faults_of self.new.exhausted (D.failures self.new.disk)) self.new.transactions.clients.items self.new.failed self.new.doubtful self.new.since self.new.short) }
        ensures time { Goes (state_of (D.observable self.old.disk) (view self.old.slots (D.seen self.old.disk 0)) (D.time self.old.disk) (faults_of self.old.exhausted (D.failures self.old.disk)) self.old.transactions.clients.items self.old.failed self.old.doubtful self.old.since self.old.short)
            (state_of (D.observable self.new.disk) (view self.new.slots (D.seen self.new.disk 0)) (D.time self.new.disk) (faults_of self.new.exhausted (D.failures self.new.disk)) self.new.transactions.clients.items self.new.failed self.new.doubtful self.new.since self.new.short)
            (Stops (D.observable self.old.disk) self.old.since (D.time self.old.disk) (D.left self.old.disk)) (Stops (D.observable self.new.disk) self.new.since (D.time self.new.disk) (D.left self.new.disk)) }
        ensures cause { HasCause (state_of (D.observable self.old.disk) (view self.old.slots (D.seen self.old.disk 0)) (D.time self.old.disk) (faults_of self.old.exhausted (D.failures self.old.disk)) self.old.transactions.clients.items self.old.failed self.old.doubtful self.old.since self.old.short)
            (state_of (D.observable self.new.disk) (view self.new.slots (D.seen self.new.disk 0)) (D.time self.new.disk) (faults_of self.new.exhausted (D.failures self.new.disk)) self.new.transactions.clients.items self.new.failed self.new.doubtful self.new.since self.new.short) result }
        ensures only { OnlyDisk result }
        ensures fewer { OnOk result (length (lists self.new.transactions.clients.items) < length (lists self.old.transactions.clients.items)) }
    {
        match self.transactions.number(client) {
            Some(number) => self.undo_one(client, number),
            None => unreachable!(),
        }
    }

    /// Undoes all writes that are due.
    pub fn undo_due(&mut self) -> Result<(), SlotFault>
        requires usable { self.old.failed ≡ false }
        ensures rest { Rests (state_of (D.observable self.old.disk) (view self.old.slots (D.seen self.old.disk 0)) (D.time self.old.disk) (faults_of self.old.exhausted (D.failures self.old.disk)) self.old.transactions.clients.items self.old.failed self.old.doubtful self.old.since self.old.short)
            (state_of (D.observable self.new.disk) (view self.new.slots (D.seen self.new.disk 0)) (D.time self.new.disk) (faults_of self.new.exhausted (D.failures self.new.disk)) self.new.transactions.clients.items self.new.failed self.new.doubtful self.new.since self.new.short) }
        ensures time { Goes (state_of (D.observable self.old.disk) (view self.old.slots (D.seen self.old.disk 0)) (D.time self.old.disk) (faults_of self.old.exhausted (D.failures self.old.disk)) self.old.transactions.clients.items self.old.failed self.old.doubtful self.old.since self.old.short)
            (state_of (D.observable self.new.disk) (view self.new.slots (D.seen self.new.disk 0)) (D.time self.new.disk) (faults_of self.new.exhausted (D.failures self.new.disk)) self.new.transactions.clients.items self.new.failed self.new.doubtful self.new.since self.new.short)
            (Stops (D.observable self.old.disk) self.old.since (D.time self.old.disk) (D.left self.old.disk)) (Stops (D.observable self.new.disk) self.new.since (D.time self.new.disk) (D.left self.new.disk)) }
        ensures cause { HasCause (state_of (D.observable self.old.disk) (view self.old.slots (D.seen self.old.disk 0)) (D.time self.old.disk) (faults_of self.old.exhausted (D.failures self.old.disk)) self.old.transactions.clients.items self.old.failed self.old.doubtful self.old.since self.old.short)
            (state_of (D.observable self.new.disk) (view self.new.slots (D.seen self.new.disk 0)) (D.time self.new.disk) (faults_of self.new.exhausted (D.failures self.new.disk)) self.new.transactions.clients.items self.new.failed self.new.doubtful self.new.since self.new.short) result }
        ensures only { OnlyDisk result }
        ensures none_due { OnOk result (NothingDue self.new.transactions.clients.items) }
    {
        'due: loop {
            match self.transactions.first_due() {
                None => return Ok(()),
                Some(client) => self.undo_of(client)?,
            }
        }
    }
}
