//! The text of an answer.

use crate::steps::values::with_values;
use database_protocol::Answer;
use std::alloc::{AllocError, Global};

/// The answer's name, and the numbers and values in it. The key of a row that was found, and the moment
/// of a commit, are left out.
pub fn answer_text(alloc: Global, answer: &Answer) -> Result<String, AllocError> {
    match answer {
        Answer::KeyTooLong { index } => numbered(alloc, "KeyTooLong", &[*index]),
        Answer::Busy { holders } => numbered(alloc, "Busy", holders.as_slice()),
        Answer::Blocked { holders } => numbered(alloc, "Blocked", holders.as_slice()),
        Answer::Deadlock { cycle } => numbered(alloc, "Deadlock", cycle.as_slice()),
        Answer::Duplicate { index, row } => format!(in alloc; "Duplicate {index} {}", row.0),
        Answer::Found { row, values, .. } => {
            let name = format!(in alloc; "Found {}", row.0)?;
            with_values(alloc, name.as_str(), values.as_slice())
        }
        Answer::Row(values) => with_values(alloc, "Row", values.as_slice()),
        Answer::Inserted { row } => format!(in alloc; "Inserted {}", row.0),
        Answer::Value(value) => format!(in alloc; "Value {value}"),
        other => String::from_str(alloc, name(other)),
    }
}

/// The name of an answer without numbers.
fn name(answer: &Answer) -> &'static str {
    match answer {
        Answer::Refused => "Refused",
        Answer::Closed => "Closed",
        Answer::TraceFull => "TraceFull",
        Answer::Gone => "Gone",
        Answer::Full => "Full",
        Answer::TxFull => "TxFull",
        Answer::SequenceEnd => "SequenceEnd",
        Answer::AtEnd => "AtEnd",
        Answer::NoMemory => "NoMemory",
        Answer::Done => "Done",
        Answer::Committed { .. } => "Committed",
        Answer::Granted => "Granted",
        _ => "another answer",
    }
}

/// A name with numbers after it.
fn numbered(alloc: Global, name: &str, numbers: &[u16]) -> Result<String, AllocError> {
    let mut text = String::from_str(alloc, name)?;
    for number in numbers {
        let next = format!(in alloc; " {number}")?;
        text.push_str(next.as_str())?;
    }
    Ok(text)
}
