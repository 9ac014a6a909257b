//! Which row a search finds.

ghost use Rattle.std.specs.Prelude.{◌≡◌, ◌<◌, ◌^◌, length, IfOk, MatchOption};
ghost use Rattle.std.specs.Option.{option_copied};
ghost use Rattle.database_meaning.specs.Setting.{HasTable};
ghost use Rattle.row_store.specs.Changes.{RowsById};
ghost use Rattle.row_store.specs.Questions.{FindsNoneIn};
ghost use Rattle.row_indexes.specs.Places.{places_of};
ghost use Rattle.row_keys.specs.Numbers.{HasOrder, index_count};
ghost use Rattle.row_keys.specs.Entries.{AreEntries, AreFitting};
ghost use Rattle.row_keys.specs.Questions.{IsFoundAt};

use crate::indexes::index_at;
use crate::numbers::number_of;
use crate::prefixes::prefix_bytes;
use abl_base::Row;
use abl_values::Schema;
use database_protocol::Cursor;
use key_index::Index;
use std::alloc::AllocError;

/// The first row of the table after the cursor in the order of the index, or of identities without
/// an index, whose leading values are those of the prefix; the last one before it where the search
/// does not go forward. The answer has the row's identity and its key. An error means out of memory.
pub fn next(
    schema: &Schema,
    indexes: &[Index],
    table: u16,
    index: Option<u16>,
    prefix: &Row,
    cursor: Option<&Cursor>,
    forward: bool,
) -> Result<Option<Cursor>, AllocError>
    requires table { HasTable schema.now table }
    requires order { HasOrder schema.now table index }
    requires count { length indexes.now ≡ index_count schema.now }
    ensures { IfOk result (λ found. (rows : RowsById) → AreEntries schema.now rows (places_of indexes.now) → AreFitting schema.now rows →
        MatchOption found (FindsNoneIn schema.now rows table index prefix.now (option_copied cursor.entry) forward)
        (λ f. IsFoundAt schema.now rows table index prefix.now (option_copied cursor.entry) forward f)) }
{
    let _count = indexes.len();
    match prefix_bytes(schema, table, index, prefix)? {
        None => Ok(None),
        Some(bytes) => {
            let number = number_of(schema, table, index);
            let found = index_at(indexes, number).next(cursor, &bytes, forward)?;
            Ok(found)
        }
    }
}
