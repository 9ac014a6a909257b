//! Committing a transaction.

ghost use Rattle.std.specs.Prelude.{◌≡◌, ◌≢◌, ◌<◌, ◌≤◌, ◌+◌, ◌-◌, ◌^◌, ℕ, ℤ, List, length, true, false, IsTrue, IfOk, OnOk, OnErr};
ghost use Rattle.storage.specs.Slots.{Goes, IsReadable};
ghost use Rattle.row_store.specs.Rows.{AfterError, Commits, HasCause, OnlyDisk};
ghost use Rattle.row_store.specs.Times.{IsInDoubt};
ghost use Rattle.sequence_slots.specs.Values.{HoldValues};
ghost use Rattle.slot_rows.specs.Durable.{times_in};
ghost use Rattle.slot_rows.specs.State.{Reserved, state_of};

use crate::fault::error_of;
use crate::log::{after_all, before_all};
use crate::noted::commit;
use crate::rows::StoredRows;
use row_store::RowFault;
use storage::Slots;

/// The number, `before` less and `after` more.
pub(crate) fn moved(number: u64, before: u64, after: u64) -> u64
    ensures { number + after < 2 ^ 64 → result ≡ (number + after) - before }
{
    number.saturating_add(after).saturating_sub(before)
}

impl<S: Slots + Drop> StoredRows<S> {
    /// Commits the transaction with these values of the schema's sequences, of which `stored` are held
    /// until then. It returns the moment from which on each stop leaves them and its rows. After an
    /// error, which is Disk, it is still begun, and a stop may leave it committed or not. It takes no
    /// memory.
    pub fn commit(
        &mut self,
        client: u16,
        stored: &[i64],
        sequences: &[i64],
    ) -> Result<u64, RowFault>
        requires client { client < 16 }
        requires fine { (S.Slots.state self.old.chains.slots).failed ≡ false }
        requires begun { ((S.Slots.state self.old.chains.slots).transaction client).begun ≡ true }
        requires many { length sequences.now ≡ length self.old.schema.sequences }
        requires few { length sequences.now ≤ 270 }
        requires held { IsReadable (S.Slots.state self.old.chains.slots) → HoldValues (S.Slots.state self.old.chains.slots).committed stored.now }
        ensures schema { self.new.schema ≡ self.old.schema }
        ensures ok { OnOk result ((before after : Reserved) (values others : List ℤ) → after client ≡ (λ key. false) → ((c : ℕ) → c ≢ client → after c ≡ before c) →
            Commits (state_of self.old.schema before values (S.Slots.state self.old.chains.slots) self.old.opens.items)
            (state_of self.old.schema after others (S.Slots.state self.new.chains.slots) self.new.opens.items) client others) }
        ensures moment { IfOk result (λ moment. moment ≡ (S.Slots.state self.new.chains.slots).moment) }
        ensures acknowledged { OnOk result ((slots : ℕ → List ℕ) → S.Slots.stop self.new.chains.slots (S.Slots.state self.new.chains.slots).moment slots → slots ≡ (S.Slots.state self.new.chains.slots).committed) }
        ensures held { OnOk result (IsReadable (S.Slots.state self.old.chains.slots) → HoldValues (S.Slots.state self.new.chains.slots).committed sequences.now) }
        ensures certain { OnOk result (IsTrue (S.Slots.state self.old.chains.slots).observable → (S.Slots.state self.new.chains.slots).doubt ≡ (S.Slots.state self.new.chains.slots).committed) }
        ensures observable { (S.Slots.state self.new.chains.slots).observable ≡ (S.Slots.state self.old.chains.slots).observable }
        ensures fails { OnErr result (IsTrue (S.Slots.state self.old.chains.slots).observable → (S.Slots.state self.new.chains.slots).committed ≡ (S.Slots.state self.old.chains.slots).committed) }
        ensures doubt { OnErr result ((reserved : Reserved) (values : List ℤ) →
            IsInDoubt (state_of self.old.schema reserved values (S.Slots.state self.old.chains.slots) self.old.opens.items) client sequences.now
            (times_in self.old.schema (S.Slots.state self.old.chains.slots)) (times_in self.old.schema (S.Slots.state self.new.chains.slots))) }
        ensures err { (reserved : Reserved) (values : List ℤ) →
            AfterError (state_of self.old.schema reserved values (S.Slots.state self.old.chains.slots) self.old.opens.items)
            (state_of self.old.schema reserved values (S.Slots.state self.new.chains.slots) self.new.opens.items) result }
        ensures cause { (reserved : Reserved) (values : List ℤ) →
            HasCause (S.Slots.state self.old.chains.slots).faults (S.Slots.state self.new.chains.slots).faults
            (state_of self.old.schema reserved values (S.Slots.state self.old.chains.slots) self.old.opens.items) result }
        ensures only { OnlyDisk result }
        ensures time { Goes (S.Slots.state self.old.chains.slots) (S.Slots.state self.new.chains.slots) (S.Slots.stop self.old.chains.slots) (S.Slots.stop self.new.chains.slots) }
    {
        let transaction = &mut self.opens[client as usize];
        let before = before_all(transaction.log.as_slice());
        let after = after_all(transaction.log.as_slice());
        match commit(&mut self.chains, transaction, client, stored, sequences) {
            Ok(moment) => {
                self.used = moved(self.used, before, after);
                Ok(moment)
            }
            Err(fault) => Err(error_of(fault)),
        }
    }
}
