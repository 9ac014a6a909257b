//! What a client asks of the database.

ghost use Rattle.std.specs.Prelude.{◌≡◌, ◌↔◌, IfOk, IsTrue};

use crate::row_order::{Cursor, RowIds};
use abl_base::{Row, RowId, copy_row};
use std::alloc::AllocError;

/// What a client asks of the database (this project's choice). Tables, indexes of a table and
/// sequences are numbered from 0 in the order of the schema file.
#[derive(Drop, PartialEq)]
pub enum Op {
    /// Begins a level: the transaction, or a subtransaction inside it.
    Enter,
    /// Ends the innermost level; at level 1 it commits. `keep` lists the rows that buffers of larger
    /// scope hold under a lock, ascending and each once.
    Leave {
        keep: RowIds,
    },
    /// Undoes all changes since level `depth` began; the transaction is level 1. The level stays open.
    Back {
        depth: u32,
    },
    /// Finds the next row in row order after the cursor (before it where `forward` is false), among
    /// those whose leading index values are the prefix. Without an index the order is that of row
    /// identities.
    Next {
        table: u16,
        index: Option<u16>,
        prefix: Row,
        cursor: Option<Cursor>,
        forward: bool,
    },
    /// Reads the values of a row.
    Get {
        table: u16,
        row: RowId,
    },
    /// Locks a row: share, or exclusive. `wait` says whether the client waits while others prevent it.
    Lock {
        table: u16,
        row: RowId,
        exclusive: bool,
        wait: bool,
    },
    /// Creates a row.
    Insert {
        table: u16,
        values: Row,
    },
    /// Gives a row new values.
    Put {
        table: u16,
        row: RowId,
        values: Row,
    },
    /// Deletes a row.
    Delete {
        table: u16,
        row: RowId,
    },
    /// Releases the lock on a row, where no transaction is open.
    Drop {
        row: RowId,
    },
    /// Moves a sequence by its increment, and returns the new value.
    NextValue {
        sequence: u16,
    },
    /// Returns a sequence's value.
    CurrentValue {
        sequence: u16,
    },
    /// The client has ended: an open transaction is undone, and all that it holds is freed.
    End,
}

impl Op {
    /// Whether the two are the same operation, where `==` says no more than that they are equal.
    #[tactic(auto, using(crate::proofs::Same::op_same))]
    pub fn is_same(&self, other: &Op) -> bool
        ensures { IsTrue result ↔ (self.now ≡ other.now) }
    {
        self == other
    }

    /// A copy of the operation. An error means out of memory.
    pub fn copy(&self) -> Result<Op, AllocError>
        ensures { IfOk result (λ op. op ≡ self.now) }
    {
        match self {
            Op::Enter => Ok(Op::Enter),
            Op::Leave { keep } => Ok(Op::Leave { keep: keep.copy()? }),
            Op::Back { depth } => Ok(Op::Back { depth: *depth }),
            Op::Next {
                table,
                index,
                prefix,
                cursor,
                forward,
            } => {
                let prefix = copy_row(prefix)?;
                let cursor = match cursor {
                    Some(cursor) => Some(cursor.copy()?),
                    None => None,
                };
                Ok(Op::Next {
                    table: *table,
                    index: *index,
                    prefix,
                    cursor,
                    forward: *forward,
                })
            }
            Op::Get { table, row } => Ok(Op::Get {
                table: *table,
                row: *row,
            }),
            Op::Lock {
                table,
                row,
                exclusive,
                wait,
            } => Ok(Op::Lock {
                table: *table,
                row: *row,
                exclusive: *exclusive,
                wait: *wait,
            }),
            Op::Insert { table, values } => Ok(Op::Insert {
                table: *table,
                values: copy_row(values)?,
            }),
            Op::Put { table, row, values } => Ok(Op::Put {
                table: *table,
                row: *row,
                values: copy_row(values)?,
            }),
            Op::Delete { table, row } => Ok(Op::Delete {
                table: *table,
                row: *row,
            }),
            Op::Drop { row } => Ok(Op::Drop { row: *row }),
            Op::NextValue { sequence } => Ok(Op::NextValue {
                sequence: *sequence,
            }),
            Op::CurrentValue { sequence } => Ok(Op::CurrentValue {
                sequence: *sequence,
            }),
            Op::End => Ok(Op::End),
        }
    }
}
