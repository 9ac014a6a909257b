//! Slots written, and writes put back.

ghost use Rattle.std.specs.Prelude.{◌≡◌, ◌≢◌, ◌⊎◌, ◌+◌, ◌<◌, ◌≤◌, ◌^◌, ◌++◌, ◌∷◌, [], ℕ, List, length, true, false, Some, IsTrue, OnOk, OnErr, is_ok};
ghost use Rattle.storage.specs.declared.slots.Undo.{Undo as Write};
ghost use Rattle.storage.specs.Slots.{Writes, Rests, Goes, HasCause, OnlyDisk, is_low, wrote};
ghost use Rattle.bi_log.specs.Buffer.{content};
ghost use Rattle.open_transactions.specs.Clients.{transaction_in, number_in, list_in, lists, memory_in, NothingDue};
ghost use Rattle.slot_area.specs.Area.{view, is_ready};
ghost use Rattle.slot_txn.specs.logged.State.{state_of, faults_of};
ghost use Rattle.slot_txn.specs.logged.Stops.{Stops};

use crate::logged::logged_slots::LoggedSlots;
use log_meaning::{Change, Note};
use storage::{Disk, SlotFault};

/// How far slots have notes, once this one has.
fn filled_after(filled: u32, slot: u32) -> u32
    requires { slot < 2 ^ 20 }
    ensures { ((filled ≤ slot) × (result ≡ slot + 1)) ⊎ ((slot < filled) × (result ≡ filled)) }
{
    if slot >= filled {
        return slot + 1;
    }
    filled
}

impl<D: Disk + Drop> LoggedSlots<D> {
    /// Notes and writes the slot for the client, where nothing is due. `old` is what it reads; it has a
    /// frame, the buffer has room, and each slot before it past area 0's end has a note.
    pub fn write(
        &mut self,
        client: u16,
        number: u64,
        slot: u32,
        old: &[u8; 256],
        bytes: &[u8; 256],
    ) -> Result<(), SlotFault>
        requires client { client < 16 }
        requires slot { slot < 2 ^ 20 }
        requires begun { (transaction_in self.old.transactions.clients.items client).begun ≡ true }
        requires number { number_in self.old.transactions.clients.items client ≡ Some number }
        requires none_due { NothingDue self.old.transactions.clients.items }
        requires alone { (c : ℕ) → c ≢ client → wrote (list_in self.old.transactions.clients.items c) slot ≡ false }
        requires memory { is_low slot ≡ false → 0 < memory_in self.old.transactions.clients.items client }
        requires counted { is_low slot ≡ false → (transaction_in self.old.transactions.clients.items client).counted < 7989 }
        requires low { is_low slot ≡ true → (transaction_in self.old.transactions.clients.items client).low < 10 }
        requires usable { self.old.failed ≡ false }
        requires filled { slot ≤ self.old.generation.filled }
        requires read { IsTrue (D.observable self.old.disk) → old.now ≡ view self.old.slots (D.seen self.old.disk 0) slot }
        requires ready { is_ready self.old.slots self.old.log.settled slot ≡ true }
        requires room { (length (content self.old.log.buffer) + 525 ≤ 1048576) × (self.old.log.appended + 1 < 2 ^ 64) }
        ensures ok { OnOk result (Writes (state_of (D.observable self.old.disk) (view self.old.slots (D.seen self.old.disk 0)) (D.time self.old.disk) (faults_of self.old.exhausted (D.failures self.old.disk)) self.old.transactions.clients.items self.old.failed self.old.doubtful self.old.since self.old.short)
            (state_of (D.observable self.new.disk) (view self.new.slots (D.seen self.new.disk 0)) (D.time self.new.disk) (faults_of self.new.exhausted (D.failures self.new.disk)) self.new.transactions.clients.items self.new.failed self.new.doubtful self.new.since self.new.short) client slot bytes.now) }
        ensures err { OnErr result (Rests (state_of (D.observable self.old.disk) (view self.old.slots (D.seen self.old.disk 0)) (D.time self.old.disk) (faults_of self.old.exhausted (D.failures self.old.disk)) self.old.transactions.clients.items self.old.failed self.old.doubtful self.old.since self.old.short)
            (state_of (D.observable self.new.disk) (view self.new.slots (D.seen self.new.disk 0)) (D.time self.new.disk) (faults_of self.new.exhausted (D.failures self.new.disk)) self.new.transactions.clients.items self.new.failed self.new.doubtful self.new.since self.new.short)) }
        ensures same_observable { D.observable self.new.disk ≡ D.observable self.old.disk }
        ensures time { Goes (state_of (D.observable self.old.disk) (view self.old.slots (D.seen self.old.disk 0)) (D.time self.old.disk) (faults_of self.old.exhausted (D.failures self.old.disk)) self.old.transactions.clients.items self.old.failed self.old.doubtful self.old.since self.old.short)
            (state_of (D.observable self.new.disk) (view self.new.slots (D.seen self.new.disk 0)) (D.time self.new.disk) (faults_of self.new.exhausted (D.failures self.new.disk)) self.new.transactions.clients.items self.new.failed self.new.doubtful self.new.since self.new.short)
            (Stops (D.observable self.old.disk) self.old.since (D.time self.old.disk) (D.left self.old.disk)) (Stops (D.observable self.new.disk) self.new.since (D.time self.new.disk) (D.left self.new.disk)) }
        ensures cause { HasCause (state_of (D.observable self.old.disk) (view self.old.slots (D.seen self.old.disk 0)) (D.time self.old.disk) (faults_of self.old.exhausted (D.failures self.old.disk)) self.old.transactions.clients.items self.old.failed self.old.doubtful self.old.since self.old.short)
            (state_of (D.observable self.new.disk) (view self.new.slots (D.seen self.new.disk 0)) (D.time self.new.disk) (faults_of self.new.exhausted (D.failures self.new.disk)) self.new.transactions.clients.items self.new.failed self.new.doubtful self.new.since self.new.short) result }
        ensures only { OnlyDisk result }
    {
        self.log.append(&Note::Change(Change {
            tx: number,
            slot,
            old: *old,
            new: *bytes,
        }));
        self.generation.filled = filled_after(self.generation.filled, slot);
        match self.slots.put_slot(
            &mut self.disk,
            self.log.settled,
            slot,
            bytes,
            self.log.appended,
        ) {
            Ok(()) => {
                self.transactions.add(client, slot, old);
                Ok(())
            }
            Err(_) => {
                self.failed = true;
                Err(SlotFault::Disk)
            }
        }
    }

    /// Undoes the client's last write, which is due. `now` is what its slot reads; it has a frame, and
    /// the buffer has room.
    pub fn put_back(&mut self, client: u16, number: u64, now: &[u8; 256]) -> Result<(), SlotFault>
        requires client { client < 16 }
        requires due { length (transaction_in self.old.transactions.clients.items client).undo < length (list_in self.old.transactions.clients.items client) }
        requires number { number_in self.old.transactions.clients.items client ≡ Some number }
        requires usable { self.old.failed ≡ false }
        requires read { (us : List Write) (u : Write) → list_in self.old.transactions.clients.items client ≡ us ++ u ∷ [] → IsTrue (D.observable self.old.disk) → now.now ≡ view self.old.slots (D.seen self.old.disk 0) u.slot }
        requires ready { (us : List Write) (u : Write) → list_in self.old.transactions.clients.items client ≡ us ++ u ∷ [] → is_ready self.old.slots self.old.log.settled u.slot ≡ true }
        requires room { (length (content self.old.log.buffer) + 525 ≤ 1048576) × (self.old.log.appended + 1 < 2 ^ 64) }
        ensures rest { Rests (state_of (D.observable self.old.disk) (view self.old.slots (D.seen self.old.disk 0)) (D.time self.old.disk) (faults_of self.old.exhausted (D.failures self.old.disk)) self.old.transactions.clients.items self.old.failed self.old.doubtful self.old.since self.old.short)
            (state_of (D.observable self.new.disk) (view self.new.slots (D.seen self.new.disk 0)) (D.time self.new.disk) (faults_of self.new.exhausted (D.failures self.new.disk)) self.new.transactions.clients.items self.new.failed self.new.doubtful self.new.since self.new.short) }
        ensures time { Goes (state_of (D.observable self.old.disk) (view self.old.slots (D.seen self.old.disk 0)) (D.time self.old.disk) (faults_of self.old.exhausted (D.failures self.old.disk)) self.old.transactions.clients.items self.old.failed self.old.doubtful self.old.since self.old.short)
            (state_of (D.observable self.new.disk) (view self.new.slots (D.seen self.new.disk 0)) (D.time self.new.disk) (faults_of self.new.exhausted (D.failures self.new.disk)) self.new.transactions.clients.items self.new.failed self.new.doubtful self.new.since self.new.short)
            (Stops (D.observable self.old.disk) self.old.since (D.time self.old.disk) (D.left self.old.disk)) (Stops (D.observable self.new.disk) self.new.since (D.time self.new.disk) (D.left self.new.disk)) }
        ensures cause { HasCause (state_of (D.observable self.old.disk) (view self.old.slots (D.seen self.old.disk 0)) (D.time self.old.disk) (faults_of self.old.exhausted (D.failures self.old.disk)) self.old.transactions.clients.items self.old.failed self.old.doubtful self.old.since self.old.short)
            (state_of (D.observable self.new.disk) (view self.new.slots (D.seen self.new.disk 0)) (D.time self.new.disk) (faults_of self.new.exhausted (D.failures self.new.disk)) self.new.transactions.clients.items self.new.failed self.new.doubtful self.new.since self.new.short) result }
        ensures only { OnlyDisk result }
        ensures fewer { OnOk result (length (lists self.new.transactions.clients.items) < length (lists self.old.transactions.clients.items)) }
    {
        let write = self.transactions.last(client);
        self.log.append(&Note::Change(Change {
            tx: number,
            slot: write.slot,
            old: *now,
            new: write.old,
        }));
        self.generation.filled = filled_after(self.generation.filled, write.slot);
        match self.slots.put_slot(
            &mut self.disk,
            self.log.settled,
            write.slot,
            &write.old,
            self.log.appended,
        ) {
            Ok(()) => {
                let _undone = self.transactions.pop(client);
                Ok(())
            }
            Err(_) => {
                self.failed = true;
                Err(SlotFault::Disk)
            }
        }
    }
}
