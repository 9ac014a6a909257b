//! What an answer carries. An answer that does not fit its operation never comes; here it gets the
//! simplest reading, as in the definitions.

ghost use Rattle.std.specs.Prelude.{◌≡◌};
ghost use Rattle.block_meaning.specs.Views as views;
ghost use Rattle.record_rules.specs.lines.Complaints.{complaint_if};
ghost use Rattle.record_rules.specs.Answers.{found_if, grant_of};

use crate::lines::Complaint;
use abl_base::{Row, RowId};
use database_protocol::{Answer, Cursor};

/// The record that a search found.
#[derive(Drop)]
pub struct FoundRow {
    pub cursor: Cursor,
    pub values: Row,
}

/// The record that a Next found. Its values are moved.
pub fn found_in(answer: Answer) -> Option<FoundRow>
    ensures { found_if result ≡ views.found_in answer }
{
    match answer {
        Answer::Found { row, key, values } => Some(FoundRow {
            cursor: Cursor { key, row },
            values,
        }),
        _ => None,
    }
}

/// The values that a Get read, moved.
pub fn values_in(answer: Answer) -> Option<Row>
    ensures { result ≡ views.values_in answer }
{
    match answer {
        Answer::Row(values) => Some(values),
        _ => None,
    }
}

/// The row that an Insert made.
pub fn inserted_row(answer: &Answer) -> Option<RowId>
    ensures { result ≡ views.row_in answer.now }
{
    match answer {
        Answer::Inserted { row } => Some(*row),
        _ => None,
    }
}

/// The value of a sequence.
pub fn sequence_value(answer: &Answer) -> Option<i64>
    ensures { result ≡ views.number_in answer.now }
{
    match answer {
        Answer::Value(value) => Some(*value),
        _ => None,
    }
}

/// The result of a request for a lock.
#[derive(Clone, Copy, PartialEq, Eq)]
pub enum Grant {
    Granted,
    Busy,
    Gone,
}

/// The result in the answer to Lock.
pub fn grant_in(answer: &Answer) -> Grant
    ensures { grant_of result ≡ views.grant_in answer.now }
{
    match answer {
        Answer::Granted => Grant::Granted,
        Answer::Busy { .. } => Grant::Busy,
        _ => Grant::Gone,
    }
}

/// Whether the row is gone.
pub fn is_gone(answer: &Answer) -> bool
    ensures { result ≡ views.is_gone answer.now }
{
    matches!(answer, Answer::Gone)
}

/// Why an Insert or Put of the record in the buffer, of this table, was refused, if it was.
pub fn refusal_in(buffer: u32, table: u16, answer: &Answer) -> Option<Complaint>
    ensures { complaint_if result ≡ views.refusal_in buffer table answer.now }
{
    match answer {
        Answer::KeyTooLong { index } => Some(Complaint::KeyTooLong {
            table,
            index: *index,
        }),
        Answer::Duplicate { index, .. } => Some(Complaint::Duplicate {
            table,
            index: *index,
        }),
        Answer::Full => Some(Complaint::DatabaseFull),
        Answer::Gone => Some(Complaint::Gone(buffer)),
        _ => None,
    }
}
