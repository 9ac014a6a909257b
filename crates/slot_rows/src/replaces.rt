//! Giving a row other values, and deleting it.

ghost use Rattle.std.specs.Prelude.{◌≡◌, ◌≤◌, ◌<◌, ℤ, List, true, false, Some, None, OnOk};
ghost use Rattle.abl_base.specs.declared.limits.TheConstants.{MAX_ROW_BYTES};
ghost use Rattle.storage.specs.Slots.{Goes, IsReadable, KeepsCommitted};
ghost use Rattle.database_meaning.specs.Setting.{FitsTable, HasTable, row_size};
ghost use Rattle.database_meaning.specs.Waiting.{row_in};
ghost use Rattle.row_store.specs.Rows.{AfterError, ChangesRow, HasCause};
ghost use Rattle.slot_rows.specs.Decoded.{decoded};
ghost use Rattle.slot_rows.specs.State.{Reserved, ReservesMoved, state_of};

use crate::decode::OldRow;
use crate::fault::error_of;
use crate::noted::{delete, put};
use crate::rows::StoredRows;
use abl_base::{Row, RowId};
use abl_values::stored::row_bytes;
use row_store::RowFault;
use storage::Slots;

impl<S: Slots + Drop> StoredRows<S> {
    /// Gives the row, which is `old`, other values of its table. Out of memory is also returned if
    /// another client's open transaction changed the row. The caller has asked for room before: the
    /// errors are those of memory and the disk alone.
    pub fn put(
        &mut self,
        client: u16,
        row: RowId,
        old: OldRow,
        values: &Row,
    ) -> Result<(), RowFault>
        requires client { client < 16 }
        requires fine { (S.Slots.state self.old.chains.slots).failed ≡ false }
        requires begun { ((S.Slots.state self.old.chains.slots).transaction client).begun ≡ true }
        requires there { IsReadable (S.Slots.state self.old.chains.slots) → decoded self.old.schema (S.Slots.state self.old.chains.slots).reads row.0 ≡ Some old.row }
        requires table { HasTable self.old.schema old.row.table }
        requires fits { FitsTable self.old.schema old.row.table values.now }
        requires size { row_size values.now ≤ MAX_ROW_BYTES }
        ensures schema { self.new.schema ≡ self.old.schema }
        ensures ok { OnOk result ((before after : Reserved) (sequences : List ℤ) → ReservesMoved self.old.schema before after client (Some old.row) (row_in old.row.table values.now) →
            ChangesRow (state_of self.old.schema before sequences (S.Slots.state self.old.chains.slots) self.old.opens.items)
            (state_of self.old.schema after sequences (S.Slots.state self.new.chains.slots) self.new.opens.items) client row.0 (row_in old.row.table values.now)) }
        ensures err { (reserved : Reserved) (sequences : List ℤ) →
            AfterError (state_of self.old.schema reserved sequences (S.Slots.state self.old.chains.slots) self.old.opens.items)
            (state_of self.old.schema reserved sequences (S.Slots.state self.new.chains.slots) self.new.opens.items) result }
        ensures cause { (reserved : Reserved) (sequences : List ℤ) →
            HasCause (S.Slots.state self.old.chains.slots).faults (S.Slots.state self.new.chains.slots).faults
            (state_of self.old.schema reserved sequences (S.Slots.state self.old.chains.slots) self.old.opens.items) result }
        ensures keeps { KeepsCommitted (S.Slots.state self.old.chains.slots) (S.Slots.state self.new.chains.slots) }
        ensures time { Goes (S.Slots.state self.old.chains.slots) (S.Slots.state self.new.chains.slots) (S.Slots.stop self.old.chains.slots) (S.Slots.stop self.new.chains.slots) }
    {
        let OldRow {
            row: before,
            fragments: had,
        } = old;
        let bytes = match row_bytes(self.alloc, self.schema.fields(before.table), values) {
            Ok(bytes) => bytes,
            Err(_) => return Err(RowFault::NoMemory),
        };
        let transaction = &mut self.opens[client as usize];
        match put(
            &mut self.chains,
            transaction,
            client,
            row,
            bytes.as_slice(),
            Some(before),
            had,
        ) {
            Ok(()) => Ok(()),
            Err(fault) => Err(error_of(fault)),
        }
    }

    /// Deletes the row, which is `old`. The errors are those of `put`.
    pub fn delete(&mut self, client: u16, row: RowId, old: OldRow) -> Result<(), RowFault>
        requires client { client < 16 }
        requires fine { (S.Slots.state self.old.chains.slots).failed ≡ false }
        requires begun { ((S.Slots.state self.old.chains.slots).transaction client).begun ≡ true }
        requires there { IsReadable (S.Slots.state self.old.chains.slots) → decoded self.old.schema (S.Slots.state self.old.chains.slots).reads row.0 ≡ Some old.row }
        ensures schema { self.new.schema ≡ self.old.schema }
        ensures ok { OnOk result ((before after : Reserved) (sequences : List ℤ) → ReservesMoved self.old.schema before after client (Some old.row) None →
            ChangesRow (state_of self.old.schema before sequences (S.Slots.state self.old.chains.slots) self.old.opens.items)
            (state_of self.old.schema after sequences (S.Slots.state self.new.chains.slots) self.new.opens.items) client row.0 None) }
        ensures err { (reserved : Reserved) (sequences : List ℤ) →
            AfterError (state_of self.old.schema reserved sequences (S.Slots.state self.old.chains.slots) self.old.opens.items)
            (state_of self.old.schema reserved sequences (S.Slots.state self.new.chains.slots) self.new.opens.items) result }
        ensures cause { (reserved : Reserved) (sequences : List ℤ) →
            HasCause (S.Slots.state self.old.chains.slots).faults (S.Slots.state self.new.chains.slots).faults
            (state_of self.old.schema reserved sequences (S.Slots.state self.old.chains.slots) self.old.opens.items) result }
        ensures keeps { KeepsCommitted (S.Slots.state self.old.chains.slots) (S.Slots.state self.new.chains.slots) }
        ensures time { Goes (S.Slots.state self.old.chains.slots) (S.Slots.state self.new.chains.slots) (S.Slots.stop self.old.chains.slots) (S.Slots.stop self.new.chains.slots) }
    {
        let OldRow {
            row: before,
            fragments: had,
        } = old;
        let transaction = &mut self.opens[client as usize];
        match delete(
            &mut self.chains,
            transaction,
            client,
            row,
            Some(before),
            had,
        ) {
            Ok(()) => Ok(()),
            Err(fault) => Err(error_of(fault)),
        }
    }
}
