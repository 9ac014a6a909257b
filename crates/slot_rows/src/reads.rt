//! Reading rows.

ghost use Rattle.std.specs.Prelude.{◌≡◌, ℤ, List, Some, None, MatchOption, IfOk, OnOk, ⊤};
ghost use Rattle.storage.specs.Slots.{Goes, IsReadable, KeepsCommitted, Rests};
ghost use Rattle.database_meaning.specs.Setting.{FitsTable, HasTable};
ghost use Rattle.row_fragments.specs.Calls.{Looked};
ghost use Rattle.byte_rows.specs.Rows.{of_slots};
ghost use Rattle.row_store.specs.Rows.{AfterError, HasCause};
ghost use Rattle.slot_rows.specs.Decoded.{AreRead, decoded};
ghost use Rattle.slot_rows.specs.State.{Reserved, state_of};

use crate::decode::{OldRow, decode};
use crate::fault::error_of;
use crate::rows::StoredRows;
use abl_base::RowId;
use abl_values::Schema;
use byte_rows::{ChainFault, Chains};
use database_meaning::StoredRow;
use row_store::RowFault;
use std::alloc::Global;
use storage::{SlotFault, Slots};

/// The row with this identity, if there is one, where each row is read. After an error nothing has
/// changed.
pub fn find<S: Slots + Drop>(
    alloc: Global,
    chains: &mut Chains<S>,
    schema: &Schema,
    row: RowId,
) -> Result<Option<OldRow>, ChainFault>
    requires read { IsReadable (S.Slots.state chains.old.slots) → AreRead schema.now (S.Slots.state chains.old.slots).reads }
    ensures found { IfOk result (λ found. IsReadable (S.Slots.state chains.old.slots) →
        MatchOption found (decoded schema.now (S.Slots.state chains.old.slots).reads row.0 ≡ None)
        (λ one. decoded schema.now (S.Slots.state chains.old.slots).reads row.0 ≡ Some one.row)) }
    ensures table { IfOk result (λ found. MatchOption found ⊤ (λ one. HasTable schema.now one.row.table)) }
    ensures fits { IfOk result (λ found. MatchOption found ⊤ (λ one. FitsTable schema.now one.row.table one.row.values)) }
    ensures looked { Looked (S.Slots.state chains.old.slots) (S.Slots.state chains.new.slots) (S.Slots.stop chains.old.slots) (S.Slots.stop chains.new.slots) (of_slots result) }
{
    let stored = match chains.get(row) {
        Ok(Some(stored)) => stored,
        Ok(None) => return Ok(None),
        Err(fault) => return Err(fault),
    };
    match decode(alloc, schema, stored.table, stored.bytes.as_slice()) {
        Ok(found) => Ok(found),
        Err(_) => Err(ChainFault::Slot(SlotFault::NoMemory)),
    }
}

impl<S: Slots + Drop> StoredRows<S> {
    /// The row with this identity, of whatever table, if there is one.
    pub fn get(&mut self, row: RowId) -> Result<Option<StoredRow>, RowFault>
        ensures schema { self.new.schema ≡ self.old.schema }
        ensures found { IfOk result (λ found. (reserved : Reserved) (sequences : List ℤ) → IsReadable (S.Slots.state self.old.chains.slots) →
            found ≡ (state_of self.old.schema reserved sequences (S.Slots.state self.old.chains.slots) self.old.opens.items).rows row.0) }
        ensures table { IfOk result (λ found. MatchOption found ⊤ (λ one. HasTable self.old.schema one.table)) }
        ensures fits { IfOk result (λ found. MatchOption found ⊤ (λ one. FitsTable self.old.schema one.table one.values)) }
        ensures same { OnOk result ((reserved : Reserved) (sequences : List ℤ) →
            state_of self.old.schema reserved sequences (S.Slots.state self.new.chains.slots) self.new.opens.items
            ≡ state_of self.old.schema reserved sequences (S.Slots.state self.old.chains.slots) self.old.opens.items) }
        ensures err { (reserved : Reserved) (sequences : List ℤ) →
            AfterError (state_of self.old.schema reserved sequences (S.Slots.state self.old.chains.slots) self.old.opens.items)
            (state_of self.old.schema reserved sequences (S.Slots.state self.new.chains.slots) self.new.opens.items) result }
        ensures cause { (reserved : Reserved) (sequences : List ℤ) →
            HasCause (S.Slots.state self.old.chains.slots).faults (S.Slots.state self.new.chains.slots).faults
            (state_of self.old.schema reserved sequences (S.Slots.state self.old.chains.slots) self.old.opens.items) result }
        ensures keeps { KeepsCommitted (S.Slots.state self.old.chains.slots) (S.Slots.state self.new.chains.slots) }
        ensures time { Goes (S.Slots.state self.old.chains.slots) (S.Slots.state self.new.chains.slots) (S.Slots.stop self.old.chains.slots) (S.Slots.stop self.new.chains.slots) }
    {
        match find(self.alloc, &mut self.chains, &self.schema, row) {
            Ok(Some(found)) => Ok(Some(found.row)),
            Ok(None) => Ok(None),
            Err(fault) => Err(error_of(fault)),
        }
    }

    /// The row with this identity, if there is one, as a change needs it.
    pub fn old_row(&mut self, row: RowId) -> Result<Option<OldRow>, RowFault>
        ensures schema { self.new.schema ≡ self.old.schema }
        ensures found { IfOk result (λ found. IsReadable (S.Slots.state self.old.chains.slots) →
            MatchOption found (decoded self.old.schema (S.Slots.state self.old.chains.slots).reads row.0 ≡ None)
            (λ one. decoded self.old.schema (S.Slots.state self.old.chains.slots).reads row.0 ≡ Some one.row)) }
        ensures table { IfOk result (λ found. MatchOption found ⊤ (λ one. HasTable self.old.schema one.row.table)) }
        ensures fits { IfOk result (λ found. MatchOption found ⊤ (λ one. FitsTable self.old.schema one.row.table one.row.values)) }
        ensures rests { OnOk result (Rests (S.Slots.state self.old.chains.slots) (S.Slots.state self.new.chains.slots)) }
        ensures same { OnOk result ((reserved : Reserved) (sequences : List ℤ) →
            state_of self.old.schema reserved sequences (S.Slots.state self.new.chains.slots) self.new.opens.items
            ≡ state_of self.old.schema reserved sequences (S.Slots.state self.old.chains.slots) self.old.opens.items) }
        ensures err { (reserved : Reserved) (sequences : List ℤ) →
            AfterError (state_of self.old.schema reserved sequences (S.Slots.state self.old.chains.slots) self.old.opens.items)
            (state_of self.old.schema reserved sequences (S.Slots.state self.new.chains.slots) self.new.opens.items) result }
        ensures cause { (reserved : Reserved) (sequences : List ℤ) →
            HasCause (S.Slots.state self.old.chains.slots).faults (S.Slots.state self.new.chains.slots).faults
            (state_of self.old.schema reserved sequences (S.Slots.state self.old.chains.slots) self.old.opens.items) result }
        ensures keeps { KeepsCommitted (S.Slots.state self.old.chains.slots) (S.Slots.state self.new.chains.slots) }
        ensures time { Goes (S.Slots.state self.old.chains.slots) (S.Slots.state self.new.chains.slots) (S.Slots.stop self.old.chains.slots) (S.Slots.stop self.new.chains.slots) }
    {
        match find(self.alloc, &mut self.chains, &self.schema, row) {
            Ok(found) => Ok(found),
            Err(fault) => Err(error_of(fault)),
        }
    }
}
