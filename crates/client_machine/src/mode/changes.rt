//! Assignments to fields and from sequences, CREATE and DELETE.

use abl_base::{Row, RowId, Value};
use bound_tree::Target;
use client_memory::buffer::Content;

/// A value that IMPORT has read, and its target.
#[derive(Drop)]
pub struct GivenValue {
    pub target: Target,
    pub value: Value,
}

/// The assignments of a statement that are left.
#[derive(Drop)]
pub enum AssignmentList {
    /// Those of the statement at the place, from this one on.
    Statement { place: usize, from: usize },
    /// Those of an IMPORT, the last one first.
    Given(Vec<GivenValue>),
}

/// A task of a change.
#[derive(Drop)]
pub enum ChangeTask {
    Assigns { pairs: AssignmentList, retry: bool },
    AssignsEach { pairs: AssignmentList, retry: bool },
    LocksOne(u32),
    SettlesOne(u32),
    Creates(u32),
    /// The buffer holds the new record.
    Begun(u32),
    Deletes(u32),
    DeletesRow { buffer: u32, table: u16, row: RowId },
}

/// An entry of a change.
#[derive(Drop)]
pub enum ChangeEntry {
    /// After a fault the buffer has this content again.
    AsBefore { buffer: u32, content: Content },
}

/// What follows an answer in a change.
#[derive(Drop)]
pub enum ChangeAnswer {
    /// The value of the sequence is assigned.
    WasCounted(Target),
    WasUpgraded {
        buffer: u32,
        row: RowId,
        values: Row,
        made: Option<u64>,
    },
    WasPut {
        buffer: u32,
        table: u16,
    },
    WasDeleted(u32),
}
