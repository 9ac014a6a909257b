//! The numbers of the indexes in the list of all.

ghost use Rattle.std.specs.Prelude.{◌≡◌, ◌<◌, ◌^◌, slice_index_or, IfOk};
ghost use Rattle.abl_values.specs.Schema.{indexes_of};
ghost use Rattle.database_meaning.specs.Setting.{HasIndex, HasTable, no_index};
ghost use Rattle.row_keys.specs.Numbers.{HasOrder, first_of_table, index_count, number_of};

use abl_values::{IndexDef, Schema};
use std::alloc::AllocError;

/// The number of the table's first index.
#[tactic(auto, using(crate::proofs::Counted::counted_next, crate::proofs::Counted::counted_within))]
pub(crate) fn first_of_table(schema: &Schema, table: u16) -> usize
    requires table { HasTable schema.now table }
    requires count { index_count schema.now < 2 ^ 64 }
    ensures { result ≡ first_of_table schema.now table }
{
    let mut first = 0;
    for earlier in 0..table {
        first += schema.indexes(earlier).len() + 1;
    }
    first
}

/// The number of an index of the table, or of the table's identities.
#[tactic(auto, using(crate::proofs::Counted::counted_within))]
pub(crate) fn number_of(schema: &Schema, table: u16, index: Option<u16>) -> usize
    requires table { HasTable schema.now table }
    requires order { HasOrder schema.now table index }
    requires count { index_count schema.now < 2 ^ 64 }
    ensures { result ≡ number_of schema.now table index }
{
    let first = first_of_table(schema, table);
    match index {
        Some(index) => first + usize::from(index),
        None => first + schema.indexes(table).len(),
    }
}

/// The number of an index in its table as answers have it. A table with more indexes than such
/// numbers is answered out of memory.
pub(crate) fn numbered(index: usize) -> Result<u16, AllocError>
    ensures { IfOk result (λ number. number ≡ index) }
{
    match u16::try_from(index) {
        Ok(number) => Ok(number),
        Err(_) => Err(AllocError),
    }
}

/// An index of the table.
pub(crate) fn def_at(schema: &Schema, table: u16, index: usize) -> &IndexDef
    requires table { HasTable schema.now table }
    requires index { HasIndex schema.now table index }
    ensures { result.now ≡ slice_index_or (indexes_of schema.now table) index no_index }
{
    &schema.indexes(table)[index]
}
