//! Going back to a mark, and giving up.

ghost use Rattle.std.specs.Prelude.{◌≡◌, ◌≢◌, ◌<◌, ◌≤◌, ℕ, ℤ, List, length, true, false, OnOk};
ghost use Rattle.storage.specs.Slots.{Goes, KeepsCommitted};
ghost use Rattle.row_store.specs.Rows.{Abandons, AfterError, GoesBack, HasCause, OnlyDisk};
ghost use Rattle.slot_rows.specs.Opens.{log_in};
ghost use Rattle.slot_rows.specs.State.{Reserved, state_of};

use crate::fault::error_of;
use crate::noted::{abandon, back};
use crate::rows::StoredRows;
use row_store::RowFault;
use storage::Slots;

impl<S: Slots + Drop> StoredRows<S> {
    /// The number of changes of the transaction that are not undone.
    pub fn mark(&self, client: u16) -> usize
        requires { client < 16 }
        ensures { result ≡ length (log_in self.now.opens.items client) }
    {
        self.opens[client as usize].log.len()
    }

    /// Undoes the changes after the mark. It takes no memory. Keys stay reserved.
    pub fn back(&mut self, client: u16, mark: usize) -> Result<(), RowFault>
        requires client { client < 16 }
        requires fine { (S.Slots.state self.old.chains.slots).failed ≡ false }
        requires begun { ((S.Slots.state self.old.chains.slots).transaction client).begun ≡ true }
        requires mark { mark ≤ length (log_in self.old.opens.items client) }
        ensures schema { self.new.schema ≡ self.old.schema }
        ensures ok { OnOk result ((reserved : Reserved) (sequences : List ℤ) →
            GoesBack (state_of self.old.schema reserved sequences (S.Slots.state self.old.chains.slots) self.old.opens.items)
            (state_of self.old.schema reserved sequences (S.Slots.state self.new.chains.slots) self.new.opens.items) client mark) }
        ensures err { (reserved : Reserved) (sequences : List ℤ) →
            AfterError (state_of self.old.schema reserved sequences (S.Slots.state self.old.chains.slots) self.old.opens.items)
            (state_of self.old.schema reserved sequences (S.Slots.state self.new.chains.slots) self.new.opens.items) result }
        ensures cause { (reserved : Reserved) (sequences : List ℤ) →
            HasCause (S.Slots.state self.old.chains.slots).faults (S.Slots.state self.new.chains.slots).faults
            (state_of self.old.schema reserved sequences (S.Slots.state self.old.chains.slots) self.old.opens.items) result }
        ensures only { OnlyDisk result }
        ensures keeps { KeepsCommitted (S.Slots.state self.old.chains.slots) (S.Slots.state self.new.chains.slots) }
        ensures time { Goes (S.Slots.state self.old.chains.slots) (S.Slots.state self.new.chains.slots) (S.Slots.stop self.old.chains.slots) (S.Slots.stop self.new.chains.slots) }
    {
        let transaction = &mut self.opens[client as usize];
        match back(&mut self.chains, transaction, client, mark) {
            Ok(()) => Ok(()),
            Err(fault) => Err(error_of(fault)),
        }
    }

    /// Undoes all changes and ends the transaction. It has no error, and takes no memory. The client
    /// reserves no key then.
    pub fn abandon(&mut self, client: u16)
        requires client { client < 16 }
        requires begun { ((S.Slots.state self.old.chains.slots).transaction client).begun ≡ true }
        ensures schema { self.new.schema ≡ self.old.schema }
        ensures abandoned { (before after : Reserved) (sequences : List ℤ) → after client ≡ (λ key. false) → ((c : ℕ) → c ≢ client → after c ≡ before c) →
            Abandons (state_of self.old.schema before sequences (S.Slots.state self.old.chains.slots) self.old.opens.items)
            (state_of self.old.schema after sequences (S.Slots.state self.new.chains.slots) self.new.opens.items) client }
        ensures later { (S.Slots.state self.old.chains.slots).faults ≤ (S.Slots.state self.new.chains.slots).faults }
        ensures keeps { KeepsCommitted (S.Slots.state self.old.chains.slots) (S.Slots.state self.new.chains.slots) }
        ensures time { Goes (S.Slots.state self.old.chains.slots) (S.Slots.state self.new.chains.slots) (S.Slots.stop self.old.chains.slots) (S.Slots.stop self.new.chains.slots) }
    {
        let transaction = &mut self.opens[client as usize];
        abandon(&mut self.chains, transaction, client);
    }
}
