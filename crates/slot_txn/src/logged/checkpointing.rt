//! Checkpoints: the next generation of the log.

ghost use Rattle.std.specs.Prelude.{◌≡◌, ◌+◌, ◌-◌, ◌<◌, ◌≤◌, ◌^◌, ℕ, List, length, true, false, None, IsTrue, OnOk, is_ok};
ghost use Rattle.storage.specs.Slots.{undone, wrote};
ghost use Rattle.log_meaning.specs.steps.Steps.{Image};
ghost use Rattle.bi_log.specs.Buffer.{content};
ghost use Rattle.open_transactions.specs.Clients.{lists, list_in};
ghost use Rattle.slot_area.specs.Area.{view, unwritten};
ghost use Rattle.slot_txn.specs.logged.State.{faults_of};
ghost use Rattle.slot_txn.specs.logged.Calls.{Calm};

use crate::logged::generation::Generation;
use crate::logged::logged_slots::LoggedSlots;
use checkpoint::carried::limits::may_carry;
use checkpoint::carried::turning::turn;
use storage::{Disk, DiskFailed};

/// By how many bytes an area of the log grows before the next generation is opened (this project's
/// choice).
const GROWTH: u64 = 16_777_216;

/// The last generation of all.
const LAST_GENERATION: u64 = 9_223_372_036_854_775_807;

impl<D: Disk + Drop> LoggedSlots<D> {
    /// Writes each changed slot to area 0, where all notes are settled.
    fn write_changes(&mut self) -> Result<(), DiskFailed>
        requires usable { self.old.failed ≡ false }
        requires settled { self.old.log.settled ≡ self.old.log.appended }
        ensures calm { Calm (D.observable self.old.disk) (D.observable self.new.disk) (D.time self.old.disk) (D.time self.new.disk) (D.left self.old.disk) (D.left self.new.disk)
            (view self.old.slots (D.seen self.old.disk 0)) (view self.new.slots (D.seen self.new.disk 0)) (undone (lists self.old.transactions.clients.items) (view self.old.slots (D.seen self.old.disk 0)))
            (faults_of self.old.exhausted (D.failures self.old.disk)) (faults_of self.new.exhausted (D.failures self.new.disk)) self.new.failed (is_ok result) }
        ensures book { (self.new.transactions ≡ self.old.transactions) × (self.new.doubtful ≡ self.old.doubtful) × (self.new.serial ≡ self.old.serial) × (self.new.since ≡ self.old.since) × (self.new.short ≡ self.old.short) }
        ensures same { (self.new.log ≡ self.old.log) × (self.new.generation ≡ self.old.generation) }
        ensures written { OnOk result ((slot : ℕ) → unwritten self.new.slots slot ≡ None) }
    {
        match self.slots.write_dirty(&mut self.disk) {
            Ok(()) => Ok(()),
            Err(_) => {
                self.failed = true;
                Err(DiskFailed)
            }
        }
    }

    /// Writes zeros to the slots of area 0 past its end that have notes, where all notes are settled
    /// and area 0 has each change.
    fn extend(&mut self) -> Result<(), DiskFailed>
        requires usable { self.old.failed ≡ false }
        requires empty { length (content self.old.log.buffer) ≡ 0 }
        requires written { (slot : ℕ) → unwritten self.old.slots slot ≡ None }
        ensures calm { Calm (D.observable self.old.disk) (D.observable self.new.disk) (D.time self.old.disk) (D.time self.new.disk) (D.left self.old.disk) (D.left self.new.disk)
            (view self.old.slots (D.seen self.old.disk 0)) (view self.new.slots (D.seen self.new.disk 0)) (undone (lists self.old.transactions.clients.items) (view self.old.slots (D.seen self.old.disk 0)))
            (faults_of self.old.exhausted (D.failures self.old.disk)) (faults_of self.new.exhausted (D.failures self.new.disk)) self.new.failed (is_ok result) }
        ensures book { (self.new.transactions ≡ self.old.transactions) × (self.new.doubtful ≡ self.old.doubtful) × (self.new.serial ≡ self.old.serial) × (self.new.since ≡ self.old.since) × (self.new.short ≡ self.old.short) }
        ensures same { (self.new.log ≡ self.old.log) × (self.new.generation ≡ self.old.generation) }
        ensures written { (slot : ℕ) → unwritten self.new.slots slot ≡ None }
        ensures reaches { OnOk result (self.old.generation.filled ≤ self.new.slots.end) }
    {
        match self.slots.extend_to(&mut self.disk, self.generation.filled) {
            Ok(()) => Ok(()),
            Err(_) => {
                self.failed = true;
                Err(DiskFailed)
            }
        }
    }

    /// Syncs an area.
    fn sync(&mut self, area: u8) -> Result<(), DiskFailed>
        requires usable { self.old.failed ≡ false }
        requires area { area < 3 }
        ensures calm { Calm (D.observable self.old.disk) (D.observable self.new.disk) (D.time self.old.disk) (D.time self.new.disk) (D.left self.old.disk) (D.left self.new.disk)
            (view self.old.slots (D.seen self.old.disk 0)) (view self.new.slots (D.seen self.new.disk 0)) (undone (lists self.old.transactions.clients.items) (view self.old.slots (D.seen self.old.disk 0)))
            (faults_of self.old.exhausted (D.failures self.old.disk)) (faults_of self.new.exhausted (D.failures self.new.disk)) self.new.failed (is_ok result) }
        ensures book { (self.new.transactions ≡ self.old.transactions) × (self.new.doubtful ≡ self.old.doubtful) × (self.new.serial ≡ self.old.serial) × (self.new.since ≡ self.old.since) × (self.new.short ≡ self.old.short) }
        ensures same { (self.new.log ≡ self.old.log) × (self.new.slots ≡ self.old.slots) × (self.new.generation ≡ self.old.generation) }
        ensures synced { OnOk result ((image : Image) → D.left self.new.disk (D.time self.new.disk) image → image area ≡ D.seen self.new.disk area) }
        ensures others { (k : ℕ) → ((image : Image) → D.left self.old.disk (D.time self.old.disk) image → image k ≡ D.seen self.old.disk k) → (image : Image) → D.left self.new.disk (D.time self.new.disk) image → image k ≡ D.seen self.new.disk k }
    {
        match self.disk.sync(area) {
            Ok(()) => Ok(()),
            Err(_) => {
                self.failed = true;
                Err(DiskFailed)
            }
        }
    }

    /// Settles the notes, writes each changed slot to area 0, and zeros to those past its end that have
    /// notes.
    fn write_out(&mut self) -> Result<(), DiskFailed>
        requires usable { self.old.failed ≡ false }
        ensures calm { Calm (D.observable self.old.disk) (D.observable self.new.disk) (D.time self.old.disk) (D.time self.new.disk) (D.left self.old.disk) (D.left self.new.disk)
            (view self.old.slots (D.seen self.old.disk 0)) (view self.new.slots (D.seen self.new.disk 0)) (undone (lists self.old.transactions.clients.items) (view self.old.slots (D.seen self.old.disk 0)))
            (faults_of self.old.exhausted (D.failures self.old.disk)) (faults_of self.new.exhausted (D.failures self.new.disk)) self.new.failed (is_ok result) }
        ensures book { (self.new.transactions ≡ self.old.transactions) × (self.new.doubtful ≡ self.old.doubtful) × (self.new.serial ≡ self.old.serial) × (self.new.since ≡ self.old.since) × (self.new.short ≡ self.old.short) }
        ensures same { self.new.generation ≡ self.old.generation }
        ensures written { OnOk result ((slot : ℕ) → unwritten self.new.slots slot ≡ None) }
        ensures empty { OnOk result (length (content self.new.log.buffer) ≡ 0) }
        ensures reaches { OnOk result (self.old.generation.filled ≤ self.new.slots.end) }
    {
        self.settle()?;
        self.write_changes()?;
        self.extend()
    }

    /// Syncs area 0, and the area of the log that is not in use.
    fn sync_both(&mut self) -> Result<(), DiskFailed>
        requires usable { self.old.failed ≡ false }
        ensures calm { Calm (D.observable self.old.disk) (D.observable self.new.disk) (D.time self.old.disk) (D.time self.new.disk) (D.left self.old.disk) (D.left self.new.disk)
            (view self.old.slots (D.seen self.old.disk 0)) (view self.new.slots (D.seen self.new.disk 0)) (undone (lists self.old.transactions.clients.items) (view self.old.slots (D.seen self.old.disk 0)))
            (faults_of self.old.exhausted (D.failures self.old.disk)) (faults_of self.new.exhausted (D.failures self.new.disk)) self.new.failed (is_ok result) }
        ensures book { (self.new.transactions ≡ self.old.transactions) × (self.new.doubtful ≡ self.old.doubtful) × (self.new.serial ≡ self.old.serial) × (self.new.since ≡ self.old.since) × (self.new.short ≡ self.old.short) }
        ensures same { (self.new.log ≡ self.old.log) × (self.new.slots ≡ self.old.slots) × (self.new.generation ≡ self.old.generation) }
        ensures zero { OnOk result ((image : Image) → D.left self.new.disk (D.time self.new.disk) image → image 0 ≡ D.seen self.new.disk 0) }
        ensures other { OnOk result ((image : Image) → D.left self.new.disk (D.time self.new.disk) image → image (3 - self.new.log.area) ≡ D.seen self.new.disk (3 - self.new.log.area)) }
    {
        self.sync(0)?;
        self.sync(3 - self.log.area)
    }

    /// Opens the next generation, where area 0 has all slots as they read and the areas are synced.
    fn open_next(&mut self) -> Result<(), DiskFailed>
        requires usable { self.old.failed ≡ false }
        requires empty { length (content self.old.log.buffer) ≡ 0 }
        requires written { (slot : ℕ) → unwritten self.old.slots slot ≡ None }
        requires zero { (image : Image) → D.left self.old.disk (D.time self.old.disk) image → image 0 ≡ D.seen self.old.disk 0 }
        requires other { (image : Image) → D.left self.old.disk (D.time self.old.disk) image → image (3 - self.old.log.area) ≡ D.seen self.old.disk (3 - self.old.log.area) }
        requires below { (client slot : ℕ) → client < 16 → wrote (list_in self.old.transactions.clients.items client) slot ≡ true → slot < self.old.slots.end }
        requires few { (client : ℕ) → client < 16 → length (list_in self.old.transactions.clients.items client) ≤ 7999 }
        requires number { self.old.generation.number + 1 < 2 ^ 63 }
        ensures calm { Calm (D.observable self.old.disk) (D.observable self.new.disk) (D.time self.old.disk) (D.time self.new.disk) (D.left self.old.disk) (D.left self.new.disk)
            (view self.old.slots (D.seen self.old.disk 0)) (view self.new.slots (D.seen self.new.disk 0)) (undone (lists self.old.transactions.clients.items) (view self.old.slots (D.seen self.old.disk 0)))
            (faults_of self.old.exhausted (D.failures self.old.disk)) (faults_of self.new.exhausted (D.failures self.new.disk)) self.new.failed (is_ok result) }
        ensures book { (self.new.transactions ≡ self.old.transactions) × (self.new.doubtful ≡ self.old.doubtful) × (self.new.serial ≡ self.old.serial) × (self.new.since ≡ self.old.since) × (self.new.short ≡ self.old.short) }
        ensures filled { OnOk result (self.new.generation.filled ≡ self.old.slots.end) }
    {
        let end = self.slots.end();
        let area = 3 - self.log.area;
        let number = self.generation.number + 1;
        match turn(
            &mut self.disk,
            area,
            number,
            &self.transactions,
            &mut self.log.buffer,
        ) {
            Ok(gate) => {
                self.log.area = area;
                self.log.gate = gate;
                self.generation = Generation {
                    number,
                    opened_at: gate,
                    extent: end,
                    filled: end,
                };
                Ok(())
            }
            Err(_) => {
                self.failed = true;
                Err(DiskFailed)
            }
        }
    }

    /// Whether the next generation can carry the writes of unfinished transactions.
    fn can_turn(&self) -> bool
        ensures below { result ≡ true → (client slot : ℕ) → client < 16 → wrote (list_in self.now.transactions.clients.items client) slot ≡ true → slot < self.now.slots.end }
        ensures few { result ≡ true → (client : ℕ) → client < 16 → length (list_in self.now.transactions.clients.items client) ≤ 7999 }
        ensures number { result ≡ true → self.now.generation.number + 1 < 2 ^ 63 }
    {
        if self.generation.number >= LAST_GENERATION {
            return false;
        }
        may_carry(&self.transactions, self.slots.end())
    }

    /// Settles the notes, writes the slots that have any to area 0 and syncs it, and opens the next
    /// generation, which carries the writes of unfinished transactions. Where it cannot carry them, or
    /// there is no next one, the log goes on as it is, up to the most bytes of its area.
    fn checkpoint(&mut self) -> Result<(), DiskFailed>
        requires usable { self.old.failed ≡ false }
        ensures calm { Calm (D.observable self.old.disk) (D.observable self.new.disk) (D.time self.old.disk) (D.time self.new.disk) (D.left self.old.disk) (D.left self.new.disk)
            (view self.old.slots (D.seen self.old.disk 0)) (view self.new.slots (D.seen self.new.disk 0)) (undone (lists self.old.transactions.clients.items) (view self.old.slots (D.seen self.old.disk 0)))
            (faults_of self.old.exhausted (D.failures self.old.disk)) (faults_of self.new.exhausted (D.failures self.new.disk)) self.new.failed (is_ok result) }
        ensures book { (self.new.transactions ≡ self.old.transactions) × (self.new.doubtful ≡ self.old.doubtful) × (self.new.serial ≡ self.old.serial) × (self.new.since ≡ self.old.since) × (self.new.short ≡ self.old.short) }
        ensures filled { OnOk result (self.old.generation.filled ≤ self.new.generation.filled) }
    {
        self.generation.opened_at = self.log.gate;
        self.write_out()?;
        self.sync_both()?;
        if self.can_turn() {
            return self.open_next();
        }
        Ok(())
    }

    /// Whether the area of the log has grown by 16,777,216 bytes since its generation was opened.
    fn has_grown(&self) -> bool {
        self.log.gate > self.generation.opened_at
            && self.log.gate - self.generation.opened_at >= GROWTH
    }

    /// Makes a checkpoint where the log has grown.
    pub fn make_way(&mut self) -> Result<(), DiskFailed>
        requires usable { self.old.failed ≡ false }
        ensures calm { Calm (D.observable self.old.disk) (D.observable self.new.disk) (D.time self.old.disk) (D.time self.new.disk) (D.left self.old.disk) (D.left self.new.disk)
            (view self.old.slots (D.seen self.old.disk 0)) (view self.new.slots (D.seen self.new.disk 0)) (undone (lists self.old.transactions.clients.items) (view self.old.slots (D.seen self.old.disk 0)))
            (faults_of self.old.exhausted (D.failures self.old.disk)) (faults_of self.new.exhausted (D.failures self.new.disk)) self.new.failed (is_ok result) }
        ensures book { (self.new.transactions ≡ self.old.transactions) × (self.new.doubtful ≡ self.old.doubtful) × (self.new.serial ≡ self.old.serial) × (self.new.since ≡ self.old.since) × (self.new.short ≡ self.old.short) }
        ensures filled { OnOk result (self.old.generation.filled ≤ self.new.generation.filled) }
    {
        if self.has_grown() {
            return self.checkpoint();
        }
        Ok(())
    }
}
