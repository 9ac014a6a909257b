//! Entering the rows of slots in the indexes of their tables, as a store is opened.

ghost use Rattle.std.specs.Prelude.{◌≡◌, ◌≢◌, ◌<◌, ◌≤◌, ◌+◌, ℕ, List, [], length, None, IfOk, OnOk, IsErrOf};
ghost use Rattle.storage.specs.Slots.{IsReadable};
ghost use Rattle.database_meaning.specs.Setting.{FitsTable, HasTable};
ghost use Rattle.database_meaning.specs.Waiting.{row_in};
ghost use Rattle.row_store.specs.Changes.{RowsById, with_row};
ghost use Rattle.row_indexes.specs.Places.{keepers_of, places_of};
ghost use Rattle.row_keys.specs.Entries.{AreEntries};
ghost use Rattle.row_keys.specs.Numbers.{index_count};
ghost use Rattle.slot_rows.specs.Decoded.{decoded};
ghost use Rattle.slot_rows.specs.State.{state_of};
ghost use Rattle.indexed_store.specs.Opened.{AreEntered, AreSoundRows, HasRead, rows_before};
ghost use Rattle.indexed_store.specs.State.{no_reserved};

use crate::open_error::OpenError;
use abl_base::limits::FIRST_ROW;
use abl_base::{Row, RowId};
use abl_values::Schema;
use key_index::Index;
use row_indexes::index_changes::{end_all, enter_all};
use row_keys::{RowMoves, duplicate, long_key, moves_of, new_indexes};
use slot_rows::StoredRows;
use std::alloc::{AllocError, Global};
use storage::Slots;

/// The client that enters all rows, and ends after the last.
const CLIENT: u16 = 0;

/// Tests the keys of a row of the table: no key is too long, and no row in the indexes has one of its
/// unique keys.
fn test_keys(schema: &Schema, indexes: &[Index], table: u16, values: &Row) -> Result<(), OpenError>
    requires table { HasTable schema.now table }
    requires fits { FitsTable schema.now table values.now }
    requires count { length indexes.now ≡ index_count schema.now }
    ensures sound { OnOk result ((rows : RowsById) (at : ℕ) → AreEntered schema.now rows indexes.now → AreSoundRows schema.now (with_row rows at (row_in table values.now))) }
    ensures unsound { IsErrOf result OpenError.Unsound → (rows : RowsById) (at : ℕ) → rows at ≡ None → AreEntered schema.now rows indexes.now → ¬ AreSoundRows schema.now (with_row rows at (row_in table values.now)) }
    ensures disk { IsErrOf result OpenError.Disk → ⊥ }
{
    match long_key(schema, table, values) {
        Ok(None) => {}
        Ok(Some(_)) => return Err(OpenError::Unsound),
        Err(_) => return Err(OpenError::NoMemory),
    }
    match duplicate(schema, indexes, table, None, values) {
        Ok(None) => Ok(()),
        Ok(Some(_)) => Err(OpenError::Unsound),
        Err(_) => Err(OpenError::NoMemory),
    }
}

/// Enters a row of the table under all its keys.
fn enter_keys(
    alloc: Global,
    schema: &Schema,
    indexes: &mut Vec<Index>,
    row: RowId,
    table: u16,
    values: &Row,
) -> Result<(), AllocError>
    requires table { HasTable schema.now table }
    requires fits { FitsTable schema.now table values.now }
    requires count { length indexes.old.items ≡ index_count schema.now }
    ensures entries { OnOk result ((rows : RowsById) → rows row.0 ≡ None → AreEntries schema.now rows (places_of indexes.old.items) →
        AreEntries schema.now (with_row rows row.0 (row_in table values.now)) (places_of indexes.new.items)) }
    ensures keepers { OnOk result ((j : ℕ) (key : List ℕ) (c : ℕ) → c ≢ CLIENT → keepers_of indexes.new.items j key ≡ Some c → keepers_of indexes.old.items j key ≡ Some c) }
    ensures count { length indexes.new.items ≡ length indexes.old.items }
{
    let RowMoves { moves, enters: _ } = moves_of(alloc, schema, table, None, Some(values))?;
    enter_all(alloc, indexes, CLIENT, row.0, moves.as_slice())?;
    Ok(())
}

/// Enters a row of the table, after a test of its keys.
fn enter_row(
    alloc: Global,
    schema: &Schema,
    indexes: &mut Vec<Index>,
    row: RowId,
    table: u16,
    values: &Row,
) -> Result<(), OpenError>
    requires table { HasTable schema.now table }
    requires fits { FitsTable schema.now table values.now }
    requires count { length indexes.old.items ≡ index_count schema.now }
    ensures entered { OnOk result ((rows : RowsById) → rows row.0 ≡ None → AreEntered schema.now rows indexes.old.items →
        AreEntered schema.now (with_row rows row.0 (row_in table values.now)) indexes.new.items) }
    ensures unsound { IsErrOf result OpenError.Unsound → (rows : RowsById) → rows row.0 ≡ None → AreEntered schema.now rows indexes.old.items →
        ¬ AreSoundRows schema.now (with_row rows row.0 (row_in table values.now)) }
    ensures disk { IsErrOf result OpenError.Disk → ⊥ }
    ensures keepers { OnOk result ((j : ℕ) (key : List ℕ) (c : ℕ) → c ≢ CLIENT → keepers_of indexes.new.items j key ≡ Some c → keepers_of indexes.old.items j key ≡ Some c) }
    ensures count { length indexes.new.items ≡ length indexes.old.items }
{
    test_keys(schema, indexes.as_slice(), table, values)?;
    match enter_keys(alloc, schema, indexes, row, table, values) {
        Ok(()) => Ok(()),
        Err(_) => Err(OpenError::NoMemory),
    }
}

/// Enters the row with this identity, if there is one.
fn enter_at<S: Slots + Drop>(
    alloc: Global,
    rows: &mut StoredRows<S>,
    indexes: &mut Vec<Index>,
    at: u32,
) -> Result<(), OpenError>
    requires count { length indexes.old.items ≡ index_count rows.old.schema }
    ensures schema { rows.new.schema ≡ rows.old.schema }
    ensures read { HasRead (S.Slots.state rows.old.chains.slots) (S.Slots.state rows.new.chains.slots) (S.Slots.stop rows.old.chains.slots) (S.Slots.stop rows.new.chains.slots)
        (state_of rows.old.schema no_reserved [] (S.Slots.state rows.old.chains.slots) rows.old.opens.items)
        (state_of rows.new.schema no_reserved [] (S.Slots.state rows.new.chains.slots) rows.new.opens.items) result }
    ensures entered { OnOk result (IsReadable (S.Slots.state rows.old.chains.slots) →
        AreEntered rows.old.schema (rows_before at (decoded rows.old.schema (S.Slots.state rows.old.chains.slots).reads)) indexes.old.items →
        AreEntered rows.old.schema (rows_before (at + 1) (decoded rows.old.schema (S.Slots.state rows.old.chains.slots).reads)) indexes.new.items) }
    ensures unsound { IsErrOf result OpenError.Unsound → IsReadable (S.Slots.state rows.old.chains.slots) →
        AreEntered rows.old.schema (rows_before at (decoded rows.old.schema (S.Slots.state rows.old.chains.slots).reads)) indexes.old.items →
        ¬ AreSoundRows rows.old.schema (decoded rows.old.schema (S.Slots.state rows.old.chains.slots).reads) }
    ensures keepers { OnOk result ((j : ℕ) (key : List ℕ) (c : ℕ) → c ≢ CLIENT → keepers_of indexes.new.items j key ≡ Some c → keepers_of indexes.old.items j key ≡ Some c) }
    ensures count { length indexes.new.items ≡ length indexes.old.items }
{
    match rows.old_row(RowId(at)) {
        Ok(None) => Ok(()),
        Ok(Some(found)) => enter_row(
            alloc,
            rows.schema(),
            indexes,
            RowId(at),
            found.row.table,
            &found.row.values,
        ),
        Err(error) => Err(OpenError::of_rows(error)),
    }
}

/// Enters all rows.
fn enter_rows<S: Slots + Drop>(
    alloc: Global,
    rows: &mut StoredRows<S>,
    indexes: &mut Vec<Index>,
) -> Result<(), OpenError>
    requires count { length indexes.old.items ≡ index_count rows.old.schema }
    ensures schema { rows.new.schema ≡ rows.old.schema }
    ensures read { HasRead (S.Slots.state rows.old.chains.slots) (S.Slots.state rows.new.chains.slots) (S.Slots.stop rows.old.chains.slots) (S.Slots.stop rows.new.chains.slots)
        (state_of rows.old.schema no_reserved [] (S.Slots.state rows.old.chains.slots) rows.old.opens.items)
        (state_of rows.new.schema no_reserved [] (S.Slots.state rows.new.chains.slots) rows.new.opens.items) result }
    ensures entered { OnOk result (IsReadable (S.Slots.state rows.old.chains.slots) →
        AreEntered rows.old.schema (λ k. None) indexes.old.items →
        AreEntered rows.old.schema (decoded rows.old.schema (S.Slots.state rows.old.chains.slots).reads) indexes.new.items) }
    ensures unsound { IsErrOf result OpenError.Unsound → IsReadable (S.Slots.state rows.old.chains.slots) →
        AreEntered rows.old.schema (λ k. None) indexes.old.items →
        ¬ AreSoundRows rows.old.schema (decoded rows.old.schema (S.Slots.state rows.old.chains.slots).reads) }
    ensures keepers { OnOk result ((j : ℕ) (key : List ℕ) (c : ℕ) → c ≢ CLIENT → keepers_of indexes.new.items j key ≡ Some c → keepers_of indexes.old.items j key ≡ Some c) }
    ensures count { length indexes.new.items ≡ length indexes.old.items }
{
    let end = rows.end();
    for at in FIRST_ROW..end {
        enter_at(alloc, rows, indexes, at)?;
    }
    Ok(())
}

/// The indexes of all rows. `Unsound` means that a key of a row is too long, or that two rows have a
/// unique key in common.
pub(crate) fn indexes_of<S: Slots + Drop>(
    alloc: Global,
    rows: &mut StoredRows<S>,
) -> Result<Vec<Index>, OpenError>
    ensures schema { rows.new.schema ≡ rows.old.schema }
    ensures read { HasRead (S.Slots.state rows.old.chains.slots) (S.Slots.state rows.new.chains.slots) (S.Slots.stop rows.old.chains.slots) (S.Slots.stop rows.new.chains.slots)
        (state_of rows.old.schema no_reserved [] (S.Slots.state rows.old.chains.slots) rows.old.opens.items)
        (state_of rows.new.schema no_reserved [] (S.Slots.state rows.new.chains.slots) rows.new.opens.items) result }
    ensures entered { IfOk result (λ indexes. IsReadable (S.Slots.state rows.old.chains.slots) →
        AreEntered rows.old.schema (decoded rows.old.schema (S.Slots.state rows.old.chains.slots).reads) indexes.items) }
    ensures unsound { IsErrOf result OpenError.Unsound → IsReadable (S.Slots.state rows.old.chains.slots) →
        ¬ AreSoundRows rows.old.schema (decoded rows.old.schema (S.Slots.state rows.old.chains.slots).reads) }
    ensures keepers { IfOk result (λ indexes. (j : ℕ) (key : List ℕ) → keepers_of indexes.items j key ≡ None) }
    ensures count { IfOk result (λ indexes. length indexes.items ≡ index_count rows.old.schema) }
{
    let mut indexes = match new_indexes(alloc, rows.schema()) {
        Ok(indexes) => indexes,
        Err(_) => return Err(OpenError::NoMemory),
    };
    enter_rows(alloc, rows, &mut indexes)?;
    end_all(&mut indexes, CLIENT);
    Ok(indexes)
}
