//! Notes settled, and room for the next one.

ghost use Rattle.std.specs.Prelude.{◌≡◌, ◌+◌, ◌<◌, ◌≤◌, ◌^◌, ℕ, List, length, true, false, IsTrue, OnOk, is_ok};
ghost use Rattle.storage.specs.Slots.{undone};
ghost use Rattle.bi_log.specs.Buffer.{content};
ghost use Rattle.open_transactions.specs.Clients.{lists};
ghost use Rattle.slot_area.specs.Area.{view, unwritten, is_ready};
ghost use Rattle.slot_txn.specs.logged.State.{faults_of};
ghost use Rattle.slot_txn.specs.logged.Calls.{Calm};

use crate::logged::logged_slots::LoggedSlots;
use storage::{Disk, DiskFailed};

/// The most bytes of an area of the log.
const MOST_LOG_BYTES: u64 = 167_772_160;

/// The most bytes from a gate to the end of the next one: a batch, its length and the gates.
const MOST_BATCH: u64 = 1_048_582;

/// Whether an area of the log has room for a whole batch after the gate at this place.
pub(crate) fn has_room(gate: u64) -> bool
    ensures { result ≡ true → gate + 1048582 ≤ 167772160 }
{
    gate <= MOST_LOG_BYTES - MOST_BATCH
}

impl<D: Disk + Drop> LoggedSlots<D> {
    /// Puts the notes of the buffer into an open batch.
    pub fn settle(&mut self) -> Result<(), DiskFailed>
        requires usable { self.old.failed ≡ false }
        ensures calm { Calm (D.observable self.old.disk) (D.observable self.new.disk) (D.time self.old.disk) (D.time self.new.disk) (D.left self.old.disk) (D.left self.new.disk)
            (view self.old.slots (D.seen self.old.disk 0)) (view self.new.slots (D.seen self.new.disk 0)) (undone (lists self.old.transactions.clients.items) (view self.old.slots (D.seen self.old.disk 0)))
            (faults_of self.old.exhausted (D.failures self.old.disk)) (faults_of self.new.exhausted (D.failures self.new.disk)) self.new.failed (is_ok result) }
        ensures book { (self.new.transactions ≡ self.old.transactions) × (self.new.doubtful ≡ self.old.doubtful) × (self.new.serial ≡ self.old.serial) × (self.new.since ≡ self.old.since) × (self.new.short ≡ self.old.short) }
        ensures same { (self.new.slots ≡ self.old.slots) × (self.new.generation ≡ self.old.generation) }
        ensures settled { OnOk result ((self.new.log.settled ≡ self.new.log.appended) × (self.new.log.appended ≡ self.old.log.appended) × (length (content self.new.log.buffer) ≡ 0)) }
    {
        if self.log.is_empty() {
            return Ok(());
        }
        if !has_room(self.log.gate) {
            self.exhausted = true;
            self.failed = true;
            return Err(DiskFailed);
        }
        match self.log.flush(&mut self.disk) {
            Ok(()) => Ok(()),
            Err(_) => {
                self.failed = true;
                Err(DiskFailed)
            }
        }
    }

    /// Makes room in the buffer for one note.
    pub fn make_note_room(&mut self) -> Result<(), DiskFailed>
        requires usable { self.old.failed ≡ false }
        ensures calm { Calm (D.observable self.old.disk) (D.observable self.new.disk) (D.time self.old.disk) (D.time self.new.disk) (D.left self.old.disk) (D.left self.new.disk)
            (view self.old.slots (D.seen self.old.disk 0)) (view self.new.slots (D.seen self.new.disk 0)) (undone (lists self.old.transactions.clients.items) (view self.old.slots (D.seen self.old.disk 0)))
            (faults_of self.old.exhausted (D.failures self.old.disk)) (faults_of self.new.exhausted (D.failures self.new.disk)) self.new.failed (is_ok result) }
        ensures book { (self.new.transactions ≡ self.old.transactions) × (self.new.doubtful ≡ self.old.doubtful) × (self.new.serial ≡ self.old.serial) × (self.new.since ≡ self.old.since) × (self.new.short ≡ self.old.short) }
        ensures same { (self.new.slots ≡ self.old.slots) × (self.new.generation ≡ self.old.generation) }
        ensures room { OnOk result ((length (content self.new.log.buffer) + 525 ≤ 1048576) × (self.new.log.appended + 1 < 2 ^ 64)) }
    {
        if self.log.appended() >= 1 << 63 {
            self.exhausted = true;
            self.failed = true;
            return Err(DiskFailed);
        }
        if self.log.is_full() {
            return self.settle();
        }
        Ok(())
    }
}
