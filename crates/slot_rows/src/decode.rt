//! The row that bytes are.

ghost use Rattle.std.specs.Prelude.{◌≡◌, ◌≤◌, true, false, Some, MatchOption, IfOk, ⊤};
ghost use Rattle.abl_values.specs.Rows.{fragments_of};
ghost use Rattle.database_meaning.specs.Setting.{FitsTable, HasTable, row_size};
ghost use Rattle.slot_rows.specs.Decoded.{is_read, row_of as row_in_bytes};

use crate::noted::fragments;
use abl_base::limits::MAX_ROW_BYTES;
use abl_values::Schema;
use abl_values::stored_read::row_of;
use database_meaning::StoredRow;
use std::alloc::{AllocError, Global};

/// A row before a change, with the number of its fragments.
#[derive(Drop)]
pub struct OldRow {
    pub row: StoredRow,
    pub fragments: u32,
    ghost few: { fragments ≤ 125 },
    ghost counted: { fragments ≡ fragments_of (row_size row.values) },
}

/// The row of the table that these bytes are, if they are one. More than 30,000 bytes, which no
/// chain has, are answered out of memory.
pub fn decode(
    alloc: Global,
    schema: &Schema,
    table: u16,
    bytes: &[u8],
) -> Result<Option<OldRow>, AllocError>
    ensures row { IfOk result (λ found.
        MatchOption found (is_read schema.now (Some (record { table = table; bytes = bytes.now })) ≡ false)
        (λ one. row_in_bytes schema.now (Some (record { table = table; bytes = bytes.now })) ≡ Some one.row)) }
    ensures read { IfOk result (λ found. MatchOption found ⊤ (λ one. is_read schema.now (Some (record { table = table; bytes = bytes.now })) ≡ true)) }
    ensures table { IfOk result (λ found. MatchOption found ⊤ (λ one. HasTable schema.now one.row.table)) }
    ensures fits { IfOk result (λ found. MatchOption found ⊤ (λ one. FitsTable schema.now one.row.table one.row.values)) }
{
    if schema.tables() <= table {
        return Ok(None);
    }
    if (MAX_ROW_BYTES as usize) < bytes.len() {
        return Err(AllocError);
    }
    match row_of(alloc, schema.fields(table), bytes)? {
        Some(values) => Ok(Some(OldRow {
            row: StoredRow { table, values },
            fragments: fragments(bytes.len()),
        })),
        None => Ok(None),
    }
}
