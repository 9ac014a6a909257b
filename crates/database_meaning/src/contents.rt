//! What a database holds between transactions.

use abl_base::{Items, Row, RowId};

/// A committed row with its table, a number from 0 in the order of the schema file.
#[derive(Drop)]
pub struct ContentRow {
    pub row: RowId,
    pub table: u16,
    pub values: Row,
}

/// Committed rows, ascending by identity.
pub type ContentRows = Items<ContentRow>;

/// The value of each sequence, in the order of the schema file.
pub type SequenceValues = Items<i64>;

/// The committed rows, and the value of each sequence in the order of the schema file.
#[derive(Drop)]
pub struct Contents {
    pub rows: ContentRows,
    pub sequences: SequenceValues,
}
