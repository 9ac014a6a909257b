//! Questions of the indexes, with the errors of rows. Out of memory is the only error.

ghost use Rattle.std.specs.Prelude.{◌≡◌, ◌≢◌, ℕ, Option, length, IfOk, IsErrOf, MatchOption};
ghost use Rattle.std.specs.Option.{option_copied};
ghost use Rattle.abl_base.specs.declared.row.RowId.{RowId as Identity};
ghost use Rattle.database_meaning.specs.declared.state.StoredRow.{StoredRow as OneRow};
ghost use Rattle.database_meaning.specs.Setting.{FitsTable, HasTable};
ghost use Rattle.database_meaning.specs.Waiting.{ListsAll, row_in};
ghost use Rattle.row_store.specs.Changes.{RowsById};
ghost use Rattle.row_store.specs.Questions.{FindsNoneIn};
ghost use Rattle.row_indexes.specs.Places.{keepers_of, places_of};
ghost use Rattle.row_keys.specs.Entries.{AreEntries, AreFitting};
ghost use Rattle.row_keys.specs.Numbers.{HasOrder, index_count};
ghost use Rattle.row_keys.specs.Questions.{IsFoundAt, IsLeastDuplicateIn, IsRead, KeepsAgainst};

use abl_base::{Row, RowId};
use abl_values::Schema;
use database_protocol::{ClientIds, Cursor};
use key_index::Index;
use row_keys::{duplicate, next, reserved_by};
use row_store::{Duplicate, RowFault};

/// The other clients that have reserved a unique key which these values have and the old row has
/// not. `old` has the values of the row that is replaced, if there is one and it is of the table.
pub(crate) fn reserved_against(
    schema: &Schema,
    indexes: &[Index],
    client: u16,
    table: u16,
    old: Option<Row>,
    values: &Row,
) -> Result<ClientIds, RowFault>
    requires table { HasTable schema.now table }
    requires count { length indexes.now ≡ index_count schema.now }
    ensures found { IfOk result (λ holders. (stored : Option OneRow) → IsRead table old stored →
        ListsAll holders (KeepsAgainst schema.now (keepers_of indexes.now) client stored (row_in table values.now))) }
    ensures only { IsErrOf result RowFault.Disk → ⊥ }
{
    match reserved_by(schema, indexes, client, table, old.as_ref(), values) {
        Ok(holders) => Ok(holders),
        Err(_) => Err(RowFault::NoMemory),
    }
}

/// The least index in which another row than the replaced one has a unique key of these values.
pub(crate) fn least_duplicate(
    schema: &Schema,
    indexes: &[Index],
    table: u16,
    row: Option<RowId>,
    values: &Row,
) -> Result<Option<Duplicate>, RowFault>
    requires table { HasTable schema.now table }
    requires fits { FitsTable schema.now table values.now }
    requires count { length indexes.now ≡ index_count schema.now }
    ensures found { IfOk result (λ found. (rows : RowsById) → AreEntries schema.now rows (places_of indexes.now) → AreFitting schema.now rows →
        MatchOption found ((index : ℕ) (other : Identity) → ¬ IsLeastDuplicateIn schema.now rows row (row_in table values.now) index other)
        (λ d. IsLeastDuplicateIn schema.now rows row (row_in table values.now) d.index d.row)) }
    ensures only { IsErrOf result RowFault.Disk → ⊥ }
{
    match duplicate(schema, indexes, table, row, values) {
        Ok(other) => Ok(other),
        Err(_) => Err(RowFault::NoMemory),
    }
}

/// The row that a search finds, with its key.
pub(crate) fn place_found(
    schema: &Schema,
    indexes: &[Index],
    table: u16,
    index: Option<u16>,
    prefix: &Row,
    cursor: Option<&Cursor>,
    forward: bool,
) -> Result<Option<Cursor>, RowFault>
    requires table { HasTable schema.now table }
    requires order { HasOrder schema.now table index }
    requires count { length indexes.now ≡ index_count schema.now }
    ensures found { IfOk result (λ found. (rows : RowsById) → AreEntries schema.now rows (places_of indexes.now) → AreFitting schema.now rows →
        MatchOption found (FindsNoneIn schema.now rows table index prefix.now (option_copied cursor.entry) forward)
        (λ f. IsFoundAt schema.now rows table index prefix.now (option_copied cursor.entry) forward f)) }
    ensures only { IsErrOf result RowFault.Disk → ⊥ }
{
    match next(schema, indexes, table, index, prefix, cursor, forward) {
        Ok(found) => Ok(found),
        Err(_) => Err(RowFault::NoMemory),
    }
}
