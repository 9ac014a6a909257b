//! What is asked of rows without memory, and a free identity.

ghost use Rattle.std.specs.Prelude.{◌≡◌, ◌<◌, ◌≤◌, ℕ, ℤ, List, length, None, IfOk, OnOk};
ghost use Rattle.database_meaning.specs.Counts.{sum_below};
ghost use Rattle.storage.specs.Slots.{Goes, IsReadable, KeepsCommitted};
ghost use Rattle.database_meaning.specs.Setting.{fragments as fragments_in};
ghost use Rattle.row_store.specs.Questions.{IsUsed, table_at};
ghost use Rattle.row_store.specs.Rows.{AfterError, HasCause, IsFree, OnlyDisk};
ghost use Rattle.slot_rows.specs.Decoded.{decoded};
ghost use Rattle.slot_rows.specs.Opens.{open_in};
ghost use Rattle.slot_rows.specs.State.{Reserved, state_of};

use crate::commits::moved;
use crate::fault::error_of;
use crate::noted::fragments;
use crate::open::Open;
use crate::rows::StoredRows;
use abl_base::RowId;
use abl_values::Schema;
use row_store::RowFault;
use storage::Slots;

/// The fragments that the transactions of all sixteen clients drew.
fn drawn_all(opens: &[Open]) -> u64
    requires { length opens.now ≡ 16 }
    ensures is { result ≡ sum_below 16 (λ c. (open_in opens.now c).drawn) }
    ensures few { result ≤ 15978000 }
{
    let mut total = 0u64;
    for client in 0..16usize {
        total += opens[client].drawn;
    }
    total
}

impl<S: Slots + Drop> StoredRows<S> {
    /// The schema of the rows.
    pub fn schema(&self) -> &Schema
        ensures { result.now ≡ self.now.schema }
    {
        &self.schema
    }

    /// The table of the row, if there is one. It takes no memory.
    pub fn table(&mut self, row: RowId) -> Result<Option<u16>, RowFault>
        ensures schema { self.new.schema ≡ self.old.schema }
        ensures found { IfOk result (λ found. IsReadable (S.Slots.state self.old.chains.slots) →
            found ≡ table_at (decoded self.old.schema (S.Slots.state self.old.chains.slots).reads) row.0) }
        ensures same { OnOk result ((reserved : Reserved) (sequences : List ℤ) →
            state_of self.old.schema reserved sequences (S.Slots.state self.new.chains.slots) self.new.opens.items
            ≡ state_of self.old.schema reserved sequences (S.Slots.state self.old.chains.slots) self.old.opens.items) }
        ensures err { (reserved : Reserved) (sequences : List ℤ) →
            AfterError (state_of self.old.schema reserved sequences (S.Slots.state self.old.chains.slots) self.old.opens.items)
            (state_of self.old.schema reserved sequences (S.Slots.state self.new.chains.slots) self.new.opens.items) result }
        ensures cause { (reserved : Reserved) (sequences : List ℤ) →
            HasCause (S.Slots.state self.old.chains.slots).faults (S.Slots.state self.new.chains.slots).faults
            (state_of self.old.schema reserved sequences (S.Slots.state self.old.chains.slots) self.old.opens.items) result }
        ensures only { OnlyDisk result }
        ensures keeps { KeepsCommitted (S.Slots.state self.old.chains.slots) (S.Slots.state self.new.chains.slots) }
        ensures time { Goes (S.Slots.state self.old.chains.slots) (S.Slots.state self.new.chains.slots) (S.Slots.stop self.old.chains.slots) (S.Slots.stop self.new.chains.slots) }
    {
        match self.chains.table(row) {
            Ok(found) => Ok(found),
            Err(fault) => Err(error_of(fault)),
        }
    }

    /// The number of the row's fragments, 0 where there is no row. It takes no memory.
    pub fn fragments(&mut self, row: RowId) -> Result<u32, RowFault>
        ensures schema { self.new.schema ≡ self.old.schema }
        ensures found { IfOk result (λ count. IsReadable (S.Slots.state self.old.chains.slots) →
            count ≡ fragments_in (decoded self.old.schema (S.Slots.state self.old.chains.slots).reads row.0)) }
        ensures same { OnOk result ((reserved : Reserved) (sequences : List ℤ) →
            state_of self.old.schema reserved sequences (S.Slots.state self.new.chains.slots) self.new.opens.items
            ≡ state_of self.old.schema reserved sequences (S.Slots.state self.old.chains.slots) self.old.opens.items) }
        ensures err { (reserved : Reserved) (sequences : List ℤ) →
            AfterError (state_of self.old.schema reserved sequences (S.Slots.state self.old.chains.slots) self.old.opens.items)
            (state_of self.old.schema reserved sequences (S.Slots.state self.new.chains.slots) self.new.opens.items) result }
        ensures cause { (reserved : Reserved) (sequences : List ℤ) →
            HasCause (S.Slots.state self.old.chains.slots).faults (S.Slots.state self.new.chains.slots).faults
            (state_of self.old.schema reserved sequences (S.Slots.state self.old.chains.slots) self.old.opens.items) result }
        ensures only { OnlyDisk result }
        ensures keeps { KeepsCommitted (S.Slots.state self.old.chains.slots) (S.Slots.state self.new.chains.slots) }
        ensures time { Goes (S.Slots.state self.old.chains.slots) (S.Slots.state self.new.chains.slots) (S.Slots.stop self.old.chains.slots) (S.Slots.stop self.new.chains.slots) }
    {
        match self.chains.length(row) {
            Ok(Some(bytes)) => Ok(fragments(bytes as usize)),
            Ok(None) => Ok(0),
            Err(fault) => Err(error_of(fault)),
        }
    }

    /// The identity that an insert may give to a new row.
    pub fn fresh(&mut self) -> Result<RowId, RowFault>
        ensures schema { self.new.schema ≡ self.old.schema }
        ensures free { IfOk result (λ row. (reserved : Reserved) (sequences : List ℤ) →
            IsFree (state_of self.old.schema reserved sequences (S.Slots.state self.old.chains.slots) self.old.opens.items) row.0) }
        ensures same { OnOk result ((reserved : Reserved) (sequences : List ℤ) →
            state_of self.old.schema reserved sequences (S.Slots.state self.new.chains.slots) self.new.opens.items
            ≡ state_of self.old.schema reserved sequences (S.Slots.state self.old.chains.slots) self.old.opens.items) }
        ensures err { (reserved : Reserved) (sequences : List ℤ) →
            AfterError (state_of self.old.schema reserved sequences (S.Slots.state self.old.chains.slots) self.old.opens.items)
            (state_of self.old.schema reserved sequences (S.Slots.state self.new.chains.slots) self.new.opens.items) result }
        ensures cause { (reserved : Reserved) (sequences : List ℤ) →
            HasCause (S.Slots.state self.old.chains.slots).faults (S.Slots.state self.new.chains.slots).faults
            (state_of self.old.schema reserved sequences (S.Slots.state self.old.chains.slots) self.old.opens.items) result }
        ensures keeps { KeepsCommitted (S.Slots.state self.old.chains.slots) (S.Slots.state self.new.chains.slots) }
        ensures time { Goes (S.Slots.state self.old.chains.slots) (S.Slots.state self.new.chains.slots) (S.Slots.stop self.old.chains.slots) (S.Slots.stop self.new.chains.slots) }
    {
        match self.chains.fresh() {
            Ok(row) => Ok(row),
            Err(fault) => Err(error_of(fault)),
        }
    }

    /// A number from 8,192 to 1,048,576: no row has an identity from there on. It reads no slot.
    pub fn end(&self) -> u32
        ensures low { 8192 ≤ result }
        ensures high { result ≤ 1048576 }
        ensures none { IsReadable (S.Slots.state self.now.chains.slots) → (k : ℕ) → result ≤ k → decoded self.now.schema (S.Slots.state self.now.chains.slots).reads k ≡ None }
    {
        self.chains.end()
    }

    /// The number of used fragments: those of the committed rows, and those that open transactions
    /// drew, undone changes included.
    pub fn used(&self) -> u64
        ensures { (reserved : Reserved) (sequences : List ℤ) → IsReadable (S.Slots.state self.now.chains.slots) →
            IsUsed (state_of self.now.schema reserved sequences (S.Slots.state self.now.chains.slots) self.now.opens.items) result }
    {
        moved(self.used, 0, drawn_all(self.opens.as_slice()))
    }

    /// The number of slots that the client's transaction wrote, undone changes included.
    pub fn written(&self, client: u16) -> u64
        requires { client < 16 }
        ensures { result ≡ (open_in self.now.opens.items client).written }
    {
        self.opens[client as usize].written
    }
}
