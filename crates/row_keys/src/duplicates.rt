//! Rows that have a unique key already.

ghost use Rattle.std.specs.Prelude.{◌≡◌, ◌↔◌, ℕ, true, None, Some, length, IfOk, IsTrue, MatchOption};
ghost use Rattle.abl_base.specs.declared.row.RowId.{RowId as Identity};
ghost use Rattle.database_meaning.specs.Setting.{FitsTable, HasTable};
ghost use Rattle.database_meaning.specs.Waiting.{row_in};
ghost use Rattle.row_store.specs.Changes.{RowsById};
ghost use Rattle.row_indexes.specs.Places.{places_of};
ghost use Rattle.row_keys.specs.Numbers.{index_count};
ghost use Rattle.row_keys.specs.Entries.{AreEntries, AreFitting};
ghost use Rattle.row_keys.specs.Questions.{HasOther, IsLeastDuplicateIn, IsOther};

use crate::indexes::index_at;
use crate::keys::unique_key_of;
use crate::numbers::{def_at, first_of_table, numbered};
use abl_base::{Bytes, Row, RowId};
use abl_values::{IndexDef, Schema};
use key_index::Index;
use row_store::Duplicate;
use std::alloc::AllocError;

/// The least index of the table in which another row than the replaced one has a unique key of these
/// values, with that row. An error means out of memory.
pub fn duplicate(
    schema: &Schema,
    indexes: &[Index],
    table: u16,
    row: Option<RowId>,
    values: &Row,
) -> Result<Option<Duplicate>, AllocError>
    requires table { HasTable schema.now table }
    requires fits { FitsTable schema.now table values.now }
    requires count { length indexes.now ≡ index_count schema.now }
    ensures { IfOk result (λ found. (rows : RowsById) → AreEntries schema.now rows (places_of indexes.now) → AreFitting schema.now rows →
        MatchOption found ((index : ℕ) (other : Identity) → ¬ IsLeastDuplicateIn schema.now rows row (row_in table values.now) index other)
        (λ d. IsLeastDuplicateIn schema.now rows row (row_in table values.now) d.index d.row)) }
{
    let _count = indexes.len();
    let first = first_of_table(schema, table);
    for index in 0..schema.indexes(table).len() {
        let def = def_at(schema, table, index);
        match other_row(index_at(indexes, first + index), def, row, values)? {
            None => {}
            Some(other) => {
                return Ok(Some(Duplicate {
                    index: numbered(index)?,
                    row: other,
                }));
            }
        }
    }
    Ok(None)
}

/// Another row than the replaced one with the unique key of these values in the index.
fn other_row(
    index: &Index,
    def: &IndexDef,
    row: Option<RowId>,
    values: &Row,
) -> Result<Option<RowId>, AllocError>
    ensures { IfOk result (λ found. MatchOption found ((other : Identity) → ¬ HasOther index.now def.now row values.now other)
        (λ other. HasOther index.now def.now row values.now other)) }
{
    match unique_key_of(def, values)? {
        None => Ok(None),
        Some(key) => Ok(other_with_key(index, &key, row)),
    }
}

/// Another row than the replaced one with this key in the index: the first row with the key, or the
/// second one where the first is the replaced row.
fn other_with_key(index: &Index, key: &Bytes, row: Option<RowId>) -> Option<RowId>
    ensures { MatchOption result ((other : Identity) → ¬ IsOther index.now key.now row other)
        (λ other. IsOther index.now key.now row other) }
{
    let first = index.least(key, None)?;
    if !is_row(row, RowId(first)) {
        return Some(RowId(first));
    }
    let second = index.least(key, Some(first))?;
    Some(RowId(second))
}

/// Whether it is this row.
fn is_row(row: Option<RowId>, other: RowId) -> bool
    ensures { IsTrue result ↔ (row ≡ Some other) }
{
    match row {
        None => false,
        Some(row) => row.0 == other.0,
    }
}
