//! Beginning a transaction.

ghost use Rattle.std.specs.Prelude.{◌≡◌, ◌<◌, ℕ, ℤ, List, true, false, OnOk};
ghost use Rattle.storage.specs.Slots.{Goes, KeepsCommitted};
ghost use Rattle.row_store.specs.Rows.{AfterError, Begins, HasCause};
ghost use Rattle.slot_rows.specs.State.{Reserved, state_of};

use crate::fault::error_of;
use crate::noted::begin;
use crate::rows::StoredRows;
use row_store::RowFault;
use storage::Slots;

impl<S: Slots + Drop> StoredRows<S> {
    /// Begins the client's transaction. After an error none is begun.
    pub fn begin(&mut self, client: u16) -> Result<(), RowFault>
        requires client { client < 16 }
        requires fine { (S.Slots.state self.old.chains.slots).failed ≡ false }
        requires idle { ((S.Slots.state self.old.chains.slots).transaction client).begun ≡ false }
        ensures schema { self.new.schema ≡ self.old.schema }
        ensures ok { OnOk result ((reserved : Reserved) (sequences : List ℤ) → reserved client ≡ (λ key. false) →
            Begins (state_of self.old.schema reserved sequences (S.Slots.state self.old.chains.slots) self.old.opens.items)
            (state_of self.old.schema reserved sequences (S.Slots.state self.new.chains.slots) self.new.opens.items) client) }
        ensures err { (reserved : Reserved) (sequences : List ℤ) →
            AfterError (state_of self.old.schema reserved sequences (S.Slots.state self.old.chains.slots) self.old.opens.items)
            (state_of self.old.schema reserved sequences (S.Slots.state self.new.chains.slots) self.new.opens.items) result }
        ensures cause { (reserved : Reserved) (sequences : List ℤ) →
            HasCause (S.Slots.state self.old.chains.slots).faults (S.Slots.state self.new.chains.slots).faults
            (state_of self.old.schema reserved sequences (S.Slots.state self.old.chains.slots) self.old.opens.items) result }
        ensures keeps { KeepsCommitted (S.Slots.state self.old.chains.slots) (S.Slots.state self.new.chains.slots) }
        ensures time { Goes (S.Slots.state self.old.chains.slots) (S.Slots.state self.new.chains.slots) (S.Slots.stop self.old.chains.slots) (S.Slots.stop self.new.chains.slots) }
    {
        let transaction = &mut self.opens[client as usize];
        match begin(&mut self.chains, transaction, client) {
            Ok(()) => Ok(()),
            Err(fault) => Err(error_of(fault)),
        }
    }
}
