//! What becomes of the record in a buffer after an UNDO: one that a CREATE has made since is dropped,
//! any other row is read again.

ghost use Rattle.std.specs.Prelude.{◌≡◌};
ghost use Rattle.block_meaning.specs.Buffers.{made_later};
ghost use Rattle.client_memory.specs.Buffers.{denoted_buffer};
ghost use Rattle.client_ends.specs.Refreshes.{UpdatesAs};

use abl_base::RowId;
use client_memory::buffer::Held;
use client_memory::{Buffer, Content};

/// What becomes of the record in a buffer.
#[derive(Clone, Copy)]
pub enum Refresh {
    /// The buffer stays as it is.
    Stays,
    /// The record is dropped.
    Empties,
    /// The row is read again.
    Reads {
        table: u16,
        row: RowId,
        held: Held,
        made: Option<u64>,
    },
}

/// What becomes of the record in the buffer, where `mark` CREATEs preceded the copy of the level.
/// (OpenEdge ABL Reference, UNDO statement.)
pub fn refresh_of(mark: u64, buffer: &Buffer) -> Refresh
    ensures { UpdatesAs result mark (denoted_buffer buffer.now) }
{
    match &buffer.content {
        Content::Empty => Refresh::Stays,
        Content::Pending { made, .. } => {
            if mark < *made {
                Refresh::Empties
            } else {
                Refresh::Stays
            }
        }
        Content::Record {
            row,
            held,
            made,
            ..
        } => {
            if is_later(mark, *made) {
                Refresh::Empties
            } else {
                Refresh::Reads {
                    table: buffer.table,
                    row: *row,
                    held: *held,
                    made: *made,
                }
            }
        }
    }
}

/// Whether a CREATE after the first `mark` has made it.
fn is_later(mark: u64, made: Option<u64>) -> bool
    ensures { result ≡ made_later mark made }
{
    match made {
        None => false,
        Some(made) => mark < made,
    }
}
