//! Indexes: when a pending record is complete, and places in an index.

ghost use Rattle.std.specs.Prelude.{◌≡◌, ◌||◌, Option};
ghost use Rattle.std.specs.Option.{option_copied};
ghost use Rattle.abl_base.specs.declared.row.RowId.{RowId};
ghost use Rattle.database_protocol.specs.declared.row_order.Cursor.{Cursor};
ghost use Rattle.block_meaning.specs.Buffers.{is_row_in};
ghost use Rattle.block_meaning.specs.Changes.{all_begun, any_in};
ghost use Rattle.block_meaning.specs.Frames.{is_in};
ghost use Rattle.block_meaning.specs.Reads.{cursor_if, same_index};

use abl_base::RowId;
use abl_values::{IndexDef, KeyPart};
use database_protocol::Cursor;

/// Whether each unique index has a component that was assigned since the CREATE: then the pending
/// record is inserted at the end of the statement. `assigned` are the numbers of the assigned
/// fields. (OpenEdge ABL Reference, CREATE statement; that one component is enough is this
/// project's choice.)
pub fn all_begun(indexes: &[IndexDef], assigned: &[u16]) -> bool
    ensures { result ≡ all_begun indexes.now assigned.now }
{
    for index in indexes {
        if index.unique && !any_in(index.parts.as_slice(), assigned) {
            return false;
        }
    }
    true
}

/// Whether the field of one of the components was assigned.
fn any_in(parts: &[KeyPart], assigned: &[u16]) -> bool
    ensures { result ≡ any_in parts.now assigned.now }
{
    for part in parts {
        if is_in(part.field, assigned) {
            return true;
        }
    }
    false
}

/// Whether the number is one of these.
fn is_in(number: u16, numbers: &[u16]) -> bool
    ensures { result ≡ is_in number numbers.now }
{
    for other in numbers {
        if number == *other {
            return true;
        }
    }
    false
}

/// The cursor of a buffer's place, where the place is in the index of the reading. None as an index
/// means the order of row identities. (OpenEdge ABL Reference, FIND statement, NEXT and PREV.)
pub fn cursor_in(index: Option<u16>, place: Option<u16>, cursor: &Cursor) -> Option<&Cursor>
    ensures { option_copied result ≡ cursor_if (same_index index place) cursor.now }
{
    if same_index(index, place) {
        Some(cursor)
    } else {
        None
    }
}

/// Whether the two are the same index.
fn same_index(one: Option<u16>, other: Option<u16>) -> bool
    ensures { result ≡ same_index one other }
{
    match (one, other) {
        (None, None) => true,
        (Some(one), Some(other)) => one == other,
        (None, Some(_)) | (Some(_), None) => false,
    }
}

/// Whether the row is in the list.
pub fn is_row_in(row: RowId, rows: &[RowId]) -> bool
    ensures { result ≡ is_row_in row rows.now }
{
    for other in rows {
        if row.0 == other.0 {
            return true;
        }
    }
    false
}
