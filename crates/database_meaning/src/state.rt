//! The parts of the database machine's state that programs keep as the same values.

ghost use Rattle.std.specs.Prelude.{◌≡◌, IfOk};

use abl_base::{Bytes, Row, copy_row};
use database_protocol::Op;
use std::alloc::AllocError;

/// A row with its table.
#[derive(Drop)]
pub struct StoredRow {
    pub table: u16,
    pub values: Row,
}

impl StoredRow {
    /// A copy of the row. An error means out of memory.
    pub fn copy(&self) -> Result<StoredRow, AllocError>
        ensures { IfOk result (λ row. row ≡ self.now) }
    {
        Ok(StoredRow {
            table: self.table,
            values: copy_row(&self.values)?,
        })
    }
}

/// A unique key: its bytes in an index of a table.
#[derive(Drop)]
pub struct Key {
    pub table: u16,
    pub index: u16,
    pub bytes: Bytes,
}

impl Key {
    /// A copy of the key. An error means out of memory.
    pub fn copy(&self) -> Result<Key, AllocError>
        ensures { IfOk result (λ key. key ≡ self.now) }
    {
        Ok(Key {
            table: self.table,
            index: self.index,
            bytes: self.bytes.copy()?,
        })
    }
}

/// An operation that was answered Blocked, with the number of steps that had by then freed a lock or
/// a reserved key.
#[derive(Drop)]
pub struct BlockedRequest {
    pub op: Op,
    pub frees: u64,
}
