//! Places in the order of rows, and lists of rows and clients.

ghost use Rattle.std.specs.Prelude.{◌≡◌, IfOk};

use abl_base::{Bytes, Items, RowId};
use std::alloc::AllocError;

/// Row identities.
pub type RowIds = Items<RowId>;

/// Client numbers.
pub type ClientIds = Items<u16>;

/// A place in a table's row order: key bytes, empty without an index, then identity.
#[derive(Drop, PartialEq)]
pub struct Cursor {
    pub key: Bytes,
    pub row: RowId,
}

impl Cursor {
    /// A copy of the place. An error means out of memory.
    pub fn copy(&self) -> Result<Cursor, AllocError>
        ensures { IfOk result (λ cursor. cursor ≡ self.now) }
    {
        Ok(Cursor {
            key: self.key.copy()?,
            row: self.row,
        })
    }
}
