//! What the database answers.

ghost use Rattle.std.specs.Prelude.{◌≡◌, IfOk};

use crate::row_order::ClientIds;
use abl_base::{Bytes, Row, RowId, copy_row};
use std::alloc::AllocError;

/// The answers of the database (this project's choice). The variants up to `NoMemory` are not
/// successes, and are in the order in which the database checks for them. They leave rows, locks,
/// reserved keys, levels and sequences unchanged.
#[derive(Drop)]
pub enum Answer {
    /// The operation is not allowed in the present state.
    Refused,
    /// The database was closed by a fault of the disk.
    Closed,
    /// The trace would pass its limit of 256 MiB.
    TraceFull,
    /// There is no such row of that table.
    Gone,
    /// A key of the row would pass 200 bytes in this index, the least such one.
    KeyTooLong { index: u16 },
    /// Others hold the row, and the client does not wait. Lists the holders, ascending.
    Busy { holders: ClientIds },
    /// Other clients prevent the operation, and the client waits. Lists them, ascending.
    Blocked { holders: ClientIds },
    /// Waiting would close a cycle of waiting clients. Lists the cycle, the caller first.
    Deadlock { cycle: ClientIds },
    /// Another row has a unique key of the new row, in this index, the least such one.
    Duplicate { index: u16, row: RowId },
    /// The slots of the database are used up.
    Full,
    /// The slot writes of one transaction are used up.
    TxFull,
    /// The next value leaves the range of 64 bits.
    SequenceEnd,
    /// There is no further row.
    AtEnd,
    /// Out of memory; nothing has changed.
    NoMemory,
    Done,
    /// The transaction is committed, at this moment of the disk.
    Committed { moment: u64 },
    /// A row with its key bytes in the index; they are empty without an index.
    Found { row: RowId, key: Bytes, values: Row },
    Row(Row),
    Granted,
    Inserted { row: RowId },
    Value(i64),
}

impl Answer {
    /// A copy of the answer. An error means out of memory.
    pub fn copy(&self) -> Result<Answer, AllocError>
        ensures { IfOk result (λ answer. answer ≡ self.now) }
    {
        match self {
            Answer::Refused => Ok(Answer::Refused),
            Answer::Closed => Ok(Answer::Closed),
            Answer::TraceFull => Ok(Answer::TraceFull),
            Answer::Gone => Ok(Answer::Gone),
            Answer::KeyTooLong { index } => Ok(Answer::KeyTooLong { index: *index }),
            Answer::Busy { holders } => Ok(Answer::Busy {
                holders: holders.copy()?,
            }),
            Answer::Blocked { holders } => Ok(Answer::Blocked {
                holders: holders.copy()?,
            }),
            Answer::Deadlock { cycle } => Ok(Answer::Deadlock {
                cycle: cycle.copy()?,
            }),
            Answer::Duplicate { index, row } => Ok(Answer::Duplicate {
                index: *index,
                row: *row,
            }),
            Answer::Full => Ok(Answer::Full),
            Answer::TxFull => Ok(Answer::TxFull),
            Answer::SequenceEnd => Ok(Answer::SequenceEnd),
            Answer::AtEnd => Ok(Answer::AtEnd),
            Answer::NoMemory => Ok(Answer::NoMemory),
            Answer::Done => Ok(Answer::Done),
            Answer::Committed { moment } => Ok(Answer::Committed { moment: *moment }),
            Answer::Found { row, key, values } => {
                let key = key.copy()?;
                let values = copy_row(values)?;
                Ok(Answer::Found {
                    row: *row,
                    key,
                    values,
                })
            }
            Answer::Row(values) => Ok(Answer::Row(copy_row(values)?)),
            Answer::Granted => Ok(Answer::Granted),
            Answer::Inserted { row } => Ok(Answer::Inserted { row: *row }),
            Answer::Value(value) => Ok(Answer::Value(*value)),
        }
    }
}
