//! Slots past the end of area 0 that are noted as they read, before one behind them is written.

ghost use Rattle.std.specs.Prelude.{◌≡◌, ◌+◌, ◌<◌, ◌≤◌, ◌^◌, ℕ, List, length, true, false, IsTrue, OnOk, is_ok};
ghost use Rattle.storage.specs.Slots.{undone};
ghost use Rattle.bi_log.specs.Buffer.{content};
ghost use Rattle.open_transactions.specs.Clients.{lists};
ghost use Rattle.slot_area.specs.Area.{view};
ghost use Rattle.slot_txn.specs.logged.State.{faults_of};
ghost use Rattle.slot_txn.specs.logged.Calls.{Calm};

use crate::logged::logged_slots::LoggedSlots;
use log_meaning::{Change, Note};
use storage::{Disk, DiskFailed};

impl<D: Disk + Drop> LoggedSlots<D> {
    /// Notes the first slot past area 0's end that has no note as it reads: `now`.
    fn note_as_read(&mut self, now: &[u8; 256])
        requires usable { self.old.failed ≡ false }
        requires small { self.old.generation.filled < 2 ^ 20 }
        requires read { IsTrue (D.observable self.old.disk) → now.now ≡ view self.old.slots (D.seen self.old.disk 0) self.old.generation.filled }
        requires room { (length (content self.old.log.buffer) + 525 ≤ 1048576) × (self.old.log.appended + 1 < 2 ^ 64) }
        ensures calm { Calm (D.observable self.old.disk) (D.observable self.new.disk) (D.time self.old.disk) (D.time self.new.disk) (D.left self.old.disk) (D.left self.new.disk)
            (view self.old.slots (D.seen self.old.disk 0)) (view self.new.slots (D.seen self.new.disk 0)) (undone (lists self.old.transactions.clients.items) (view self.old.slots (D.seen self.old.disk 0)))
            (faults_of self.old.exhausted (D.failures self.old.disk)) (faults_of self.new.exhausted (D.failures self.new.disk)) self.new.failed true }
        ensures book { (self.new.transactions ≡ self.old.transactions) × (self.new.doubtful ≡ self.old.doubtful) × (self.new.serial ≡ self.old.serial) × (self.new.since ≡ self.old.since) × (self.new.short ≡ self.old.short) }
        ensures filled { self.new.generation.filled ≡ self.old.generation.filled + 1 }
    {
        let slot = self.generation.filled;
        self.log.append(&Note::Change(Change {
            tx: 0,
            slot,
            old: *now,
            new: *now,
        }));
        self.generation.filled = slot + 1;
    }

    /// Notes the first slot past area 0's end that has no note.
    fn fill_one(&mut self) -> Result<(), DiskFailed>
        requires usable { self.old.failed ≡ false }
        requires small { self.old.generation.filled < 2 ^ 20 }
        ensures calm { Calm (D.observable self.old.disk) (D.observable self.new.disk) (D.time self.old.disk) (D.time self.new.disk) (D.left self.old.disk) (D.left self.new.disk)
            (view self.old.slots (D.seen self.old.disk 0)) (view self.new.slots (D.seen self.new.disk 0)) (undone (lists self.old.transactions.clients.items) (view self.old.slots (D.seen self.old.disk 0)))
            (faults_of self.old.exhausted (D.failures self.old.disk)) (faults_of self.new.exhausted (D.failures self.new.disk)) self.new.failed (is_ok result) }
        ensures book { (self.new.transactions ≡ self.old.transactions) × (self.new.doubtful ≡ self.old.doubtful) × (self.new.serial ≡ self.old.serial) × (self.new.since ≡ self.old.since) × (self.new.short ≡ self.old.short) }
        ensures filled { OnOk result (self.new.generation.filled ≡ self.old.generation.filled + 1) }
    {
        let mut now = [0u8; 256];
        let slot = self.generation.filled;
        self.prepare(slot, &mut now)?;
        self.note_as_read(&now);
        Ok(())
    }

    /// Notes each slot before this one that area 0 did not have as the generation was opened. Where
    /// the log has grown, a checkpoint is made between two notes.
    pub fn fill_to(&mut self, slot: u32) -> Result<(), DiskFailed>
        requires usable { self.old.failed ≡ false }
        requires slot { slot < 2 ^ 20 }
        ensures calm { Calm (D.observable self.old.disk) (D.observable self.new.disk) (D.time self.old.disk) (D.time self.new.disk) (D.left self.old.disk) (D.left self.new.disk)
            (view self.old.slots (D.seen self.old.disk 0)) (view self.new.slots (D.seen self.new.disk 0)) (undone (lists self.old.transactions.clients.items) (view self.old.slots (D.seen self.old.disk 0)))
            (faults_of self.old.exhausted (D.failures self.old.disk)) (faults_of self.new.exhausted (D.failures self.new.disk)) self.new.failed (is_ok result) }
        ensures book { (self.new.transactions ≡ self.old.transactions) × (self.new.doubtful ≡ self.old.doubtful) × (self.new.serial ≡ self.old.serial) × (self.new.since ≡ self.old.since) × (self.new.short ≡ self.old.short) }
        ensures filled { OnOk result (slot ≤ self.new.generation.filled) }
    {
        'slots: while self.generation.filled < slot {
            self.fill_one()?;
            self.make_way()?;
        }
        Ok(())
    }
}
