//! Slots read.

ghost use Rattle.std.specs.Prelude.{◌≡◌, ◌+◌, ◌<◌, ◌≤◌, ◌^◌, ℕ, List, length, true, false, IsTrue, OnOk, is_ok};
ghost use Rattle.storage.specs.Slots.{undone};
ghost use Rattle.bi_log.specs.Buffer.{content};
ghost use Rattle.open_transactions.specs.Clients.{lists};
ghost use Rattle.slot_area.specs.Area.{view, unwritten, is_ready};
ghost use Rattle.slot_txn.specs.logged.State.{faults_of};
ghost use Rattle.slot_txn.specs.logged.Calls.{Calm};

use crate::logged::logged_slots::LoggedSlots;
use storage::{Disk, DiskFailed};

impl<D: Disk + Drop> LoggedSlots<D> {
    /// Settles the notes where no frame is ready for the slot.
    pub fn make_frame(&mut self, slot: u32) -> Result<(), DiskFailed>
        requires usable { self.old.failed ≡ false }
        requires slot { slot < 2 ^ 20 }
        ensures calm { Calm (D.observable self.old.disk) (D.observable self.new.disk) (D.time self.old.disk) (D.time self.new.disk) (D.left self.old.disk) (D.left self.new.disk)
            (view self.old.slots (D.seen self.old.disk 0)) (view self.new.slots (D.seen self.new.disk 0)) (undone (lists self.old.transactions.clients.items) (view self.old.slots (D.seen self.old.disk 0)))
            (faults_of self.old.exhausted (D.failures self.old.disk)) (faults_of self.new.exhausted (D.failures self.new.disk)) self.new.failed (is_ok result) }
        ensures book { (self.new.transactions ≡ self.old.transactions) × (self.new.doubtful ≡ self.old.doubtful) × (self.new.serial ≡ self.old.serial) × (self.new.since ≡ self.old.since) × (self.new.short ≡ self.old.short) }
        ensures same { (self.new.slots ≡ self.old.slots) × (self.new.generation ≡ self.old.generation) }
        ensures ready { OnOk result (is_ready self.new.slots self.new.log.settled slot ≡ true) }
    {
        if self.slots.is_ready(self.log.settled, slot) {
            return Ok(());
        }
        self.settle()?;
        self.slots.is_ready_when_settled(self.log.settled, slot);
        Ok(())
    }

    /// The bytes of the slot as the frames and area 0 have them. It has a frame from then on.
    pub fn read_slot(&mut self, slot: u32, into: &mut [u8; 256]) -> Result<(), DiskFailed>
        requires usable { self.old.failed ≡ false }
        requires slot { slot < 2 ^ 20 }
        ensures calm { Calm (D.observable self.old.disk) (D.observable self.new.disk) (D.time self.old.disk) (D.time self.new.disk) (D.left self.old.disk) (D.left self.new.disk)
            (view self.old.slots (D.seen self.old.disk 0)) (view self.new.slots (D.seen self.new.disk 0)) (undone (lists self.old.transactions.clients.items) (view self.old.slots (D.seen self.old.disk 0)))
            (faults_of self.old.exhausted (D.failures self.old.disk)) (faults_of self.new.exhausted (D.failures self.new.disk)) self.new.failed (is_ok result) }
        ensures book { (self.new.transactions ≡ self.old.transactions) × (self.new.doubtful ≡ self.old.doubtful) × (self.new.serial ≡ self.old.serial) × (self.new.since ≡ self.old.since) × (self.new.short ≡ self.old.short) }
        ensures same { self.new.generation ≡ self.old.generation }
        ensures bytes { OnOk result (IsTrue (D.observable self.old.disk) → into.new ≡ view self.old.slots (D.seen self.old.disk 0) slot) }
        ensures ready { OnOk result ((settled : ℕ) → is_ready self.new.slots settled slot ≡ true) }
    {
        self.make_frame(slot)?;
        match self
            .slots
            .read_slot(&mut self.disk, self.log.settled, slot, into)
        {
            Ok(()) => Ok(()),
            Err(_) => {
                self.failed = true;
                Err(DiskFailed)
            }
        }
    }

    /// Reads the slot, which has a frame from then on, and makes room for the note of its change.
    pub fn prepare(&mut self, slot: u32, into: &mut [u8; 256]) -> Result<(), DiskFailed>
        requires usable { self.old.failed ≡ false }
        requires slot { slot < 2 ^ 20 }
        ensures calm { Calm (D.observable self.old.disk) (D.observable self.new.disk) (D.time self.old.disk) (D.time self.new.disk) (D.left self.old.disk) (D.left self.new.disk)
            (view self.old.slots (D.seen self.old.disk 0)) (view self.new.slots (D.seen self.new.disk 0)) (undone (lists self.old.transactions.clients.items) (view self.old.slots (D.seen self.old.disk 0)))
            (faults_of self.old.exhausted (D.failures self.old.disk)) (faults_of self.new.exhausted (D.failures self.new.disk)) self.new.failed (is_ok result) }
        ensures book { (self.new.transactions ≡ self.old.transactions) × (self.new.doubtful ≡ self.old.doubtful) × (self.new.serial ≡ self.old.serial) × (self.new.since ≡ self.old.since) × (self.new.short ≡ self.old.short) }
        ensures same { self.new.generation ≡ self.old.generation }
        ensures bytes { OnOk result (IsTrue (D.observable self.old.disk) → into.new ≡ view self.old.slots (D.seen self.old.disk 0) slot) }
        ensures ready { OnOk result (is_ready self.new.slots self.new.log.settled slot ≡ true) }
        ensures room { OnOk result ((length (content self.new.log.buffer) + 525 ≤ 1048576) × (self.new.log.appended + 1 < 2 ^ 64)) }
    {
        self.read_slot(slot, into)?;
        self.make_note_room()?;
        Ok(())
    }
}
