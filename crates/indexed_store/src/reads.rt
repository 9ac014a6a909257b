//! Reading rows of a table.

ghost use Rattle.std.specs.Prelude.{◌≡◌, ℕ, ℤ, List, Some, MatchOption, IfOk, OnOk};
ghost use Rattle.storage.specs.Slots.{Goes, IsReadable, KeepsCommitted, Rests};
ghost use Rattle.database_meaning.specs.Setting.{FitsTable, HasTable};
ghost use Rattle.database_meaning.specs.Waiting.{row_in};
ghost use Rattle.row_store.specs.Questions.{replaced_at};
ghost use Rattle.row_store.specs.Rows.{AfterError, HasCause};
ghost use Rattle.row_keys.specs.Questions.{IsRead};
ghost use Rattle.slot_rows.specs.Decoded.{decoded};
ghost use Rattle.slot_rows.specs.State.{Reserved, state_of};

use abl_base::{Row, RowId};
use database_meaning::StoredRow;
use database_protocol::Cursor;
use row_store::{FoundRow, RowFault};
use slot_rows::{OldRow, StoredRows};
use storage::Slots;

/// The values of the row, if there is one and it is of the table.
pub(crate) fn values_in(table: u16, stored: Option<StoredRow>) -> Option<Row>
    ensures { IsRead table result stored }
{
    match stored {
        None => None,
        Some(row) => {
            if row.table == table {
                Some(row.values)
            } else {
                None
            }
        }
    }
}

/// The values of the row with this identity, if it is a row of that table.
pub(crate) fn read<S: Slots + Drop>(
    rows: &mut StoredRows<S>,
    table: u16,
    row: RowId,
) -> Result<Option<Row>, RowFault>
    ensures schema { rows.new.schema ≡ rows.old.schema }
    ensures found { IfOk result (λ found. (reserved : Reserved) (sequences : List ℤ) → IsReadable (S.Slots.state rows.old.chains.slots) →
        IsRead table found ((state_of rows.old.schema reserved sequences (S.Slots.state rows.old.chains.slots) rows.old.opens.items).rows row.0)) }
    ensures same { OnOk result ((reserved : Reserved) (sequences : List ℤ) →
        state_of rows.old.schema reserved sequences (S.Slots.state rows.new.chains.slots) rows.new.opens.items
        ≡ state_of rows.old.schema reserved sequences (S.Slots.state rows.old.chains.slots) rows.old.opens.items) }
    ensures err { (reserved : Reserved) (sequences : List ℤ) →
        AfterError (state_of rows.old.schema reserved sequences (S.Slots.state rows.old.chains.slots) rows.old.opens.items)
        (state_of rows.old.schema reserved sequences (S.Slots.state rows.new.chains.slots) rows.new.opens.items) result }
    ensures cause { (reserved : Reserved) (sequences : List ℤ) →
        HasCause (S.Slots.state rows.old.chains.slots).faults (S.Slots.state rows.new.chains.slots).faults
        (state_of rows.old.schema reserved sequences (S.Slots.state rows.old.chains.slots) rows.old.opens.items) result }
    ensures keeps { KeepsCommitted (S.Slots.state rows.old.chains.slots) (S.Slots.state rows.new.chains.slots) }
    ensures time { Goes (S.Slots.state rows.old.chains.slots) (S.Slots.state rows.new.chains.slots) (S.Slots.stop rows.old.chains.slots) (S.Slots.stop rows.new.chains.slots) }
{
    match rows.get(row) {
        Ok(stored) => Ok(values_in(table, stored)),
        Err(error) => Err(error),
    }
}

/// The row that a Put replaces, as `read` returns it; None where none is replaced.
pub(crate) fn replaced<S: Slots + Drop>(
    rows: &mut StoredRows<S>,
    table: u16,
    row: Option<RowId>,
) -> Result<Option<Row>, RowFault>
    ensures schema { rows.new.schema ≡ rows.old.schema }
    ensures found { IfOk result (λ found. (reserved : Reserved) (sequences : List ℤ) → IsReadable (S.Slots.state rows.old.chains.slots) →
        IsRead table found (replaced_at (state_of rows.old.schema reserved sequences (S.Slots.state rows.old.chains.slots) rows.old.opens.items) row)) }
    ensures same { OnOk result ((reserved : Reserved) (sequences : List ℤ) →
        state_of rows.old.schema reserved sequences (S.Slots.state rows.new.chains.slots) rows.new.opens.items
        ≡ state_of rows.old.schema reserved sequences (S.Slots.state rows.old.chains.slots) rows.old.opens.items) }
    ensures err { (reserved : Reserved) (sequences : List ℤ) →
        AfterError (state_of rows.old.schema reserved sequences (S.Slots.state rows.old.chains.slots) rows.old.opens.items)
        (state_of rows.old.schema reserved sequences (S.Slots.state rows.new.chains.slots) rows.new.opens.items) result }
    ensures cause { (reserved : Reserved) (sequences : List ℤ) →
        HasCause (S.Slots.state rows.old.chains.slots).faults (S.Slots.state rows.new.chains.slots).faults
        (state_of rows.old.schema reserved sequences (S.Slots.state rows.old.chains.slots) rows.old.opens.items) result }
    ensures keeps { KeepsCommitted (S.Slots.state rows.old.chains.slots) (S.Slots.state rows.new.chains.slots) }
    ensures time { Goes (S.Slots.state rows.old.chains.slots) (S.Slots.state rows.new.chains.slots) (S.Slots.stop rows.old.chains.slots) (S.Slots.stop rows.new.chains.slots) }
{
    match row {
        None => Ok(None),
        Some(at) => read(rows, table, at),
    }
}

/// The row that a search found, with its values. Out of memory is also returned where there is none,
/// which comes only where the rows are not known.
pub(crate) fn found<S: Slots + Drop>(
    rows: &mut StoredRows<S>,
    table: u16,
    at: Cursor,
) -> Result<Option<FoundRow>, RowFault>
    ensures schema { rows.new.schema ≡ rows.old.schema }
    ensures found { IfOk result (λ found. (reserved : Reserved) (sequences : List ℤ) → IsReadable (S.Slots.state rows.old.chains.slots) →
        MatchOption found ⊥ (λ f. (f.row ≡ at.row) × (f.key ≡ at.key)
        × ((state_of rows.old.schema reserved sequences (S.Slots.state rows.old.chains.slots) rows.old.opens.items).rows at.row.0 ≡ row_in table f.values))) }
    ensures same { OnOk result ((reserved : Reserved) (sequences : List ℤ) →
        state_of rows.old.schema reserved sequences (S.Slots.state rows.new.chains.slots) rows.new.opens.items
        ≡ state_of rows.old.schema reserved sequences (S.Slots.state rows.old.chains.slots) rows.old.opens.items) }
    ensures err { (reserved : Reserved) (sequences : List ℤ) →
        AfterError (state_of rows.old.schema reserved sequences (S.Slots.state rows.old.chains.slots) rows.old.opens.items)
        (state_of rows.old.schema reserved sequences (S.Slots.state rows.new.chains.slots) rows.new.opens.items) result }
    ensures cause { (reserved : Reserved) (sequences : List ℤ) →
        HasCause (S.Slots.state rows.old.chains.slots).faults (S.Slots.state rows.new.chains.slots).faults
        (state_of rows.old.schema reserved sequences (S.Slots.state rows.old.chains.slots) rows.old.opens.items) result }
    ensures keeps { KeepsCommitted (S.Slots.state rows.old.chains.slots) (S.Slots.state rows.new.chains.slots) }
    ensures time { Goes (S.Slots.state rows.old.chains.slots) (S.Slots.state rows.new.chains.slots) (S.Slots.stop rows.old.chains.slots) (S.Slots.stop rows.new.chains.slots) }
{
    match read(rows, table, at.row) {
        Ok(Some(values)) => Ok(Some(FoundRow {
            row: at.row,
            key: at.key,
            values,
        })),
        Ok(None) => Err(RowFault::NoMemory),
        Err(error) => Err(error),
    }
}

/// The row of the table that a change replaces. Out of memory is also returned where there is none,
/// which comes only where the rows are not known.
pub(crate) fn old_row<S: Slots + Drop>(
    rows: &mut StoredRows<S>,
    table: u16,
    row: RowId,
) -> Result<OldRow, RowFault>
    ensures schema { rows.new.schema ≡ rows.old.schema }
    ensures found { IfOk result (λ old. IsReadable (S.Slots.state rows.old.chains.slots) →
        decoded rows.old.schema (S.Slots.state rows.old.chains.slots).reads row.0 ≡ Some old.row) }
    ensures table { IfOk result (λ old. old.row.table ≡ table) }
    ensures has_table { IfOk result (λ old. HasTable rows.old.schema table) }
    ensures fits { IfOk result (λ old. FitsTable rows.old.schema table old.row.values) }
    ensures rests { OnOk result (Rests (S.Slots.state rows.old.chains.slots) (S.Slots.state rows.new.chains.slots)) }
    ensures same { OnOk result ((reserved : Reserved) (sequences : List ℤ) →
        state_of rows.old.schema reserved sequences (S.Slots.state rows.new.chains.slots) rows.new.opens.items
        ≡ state_of rows.old.schema reserved sequences (S.Slots.state rows.old.chains.slots) rows.old.opens.items) }
    ensures err { (reserved : Reserved) (sequences : List ℤ) →
        AfterError (state_of rows.old.schema reserved sequences (S.Slots.state rows.old.chains.slots) rows.old.opens.items)
        (state_of rows.old.schema reserved sequences (S.Slots.state rows.new.chains.slots) rows.new.opens.items) result }
    ensures cause { (reserved : Reserved) (sequences : List ℤ) →
        HasCause (S.Slots.state rows.old.chains.slots).faults (S.Slots.state rows.new.chains.slots).faults
        (state_of rows.old.schema reserved sequences (S.Slots.state rows.old.chains.slots) rows.old.opens.items) result }
    ensures keeps { KeepsCommitted (S.Slots.state rows.old.chains.slots) (S.Slots.state rows.new.chains.slots) }
    ensures time { Goes (S.Slots.state rows.old.chains.slots) (S.Slots.state rows.new.chains.slots) (S.Slots.stop rows.old.chains.slots) (S.Slots.stop rows.new.chains.slots) }
{
    match rows.old_row(row) {
        Ok(Some(old)) => {
            if old.row.table == table {
                Ok(old)
            } else {
                Err(RowFault::NoMemory)
            }
        }
        Ok(None) => Err(RowFault::NoMemory),
        Err(error) => Err(error),
    }
}
