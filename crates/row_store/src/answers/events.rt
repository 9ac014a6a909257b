//! The bytes that the trace counts for an event.

ghost use Rattle.std.specs.Prelude.{◌≡◌, ◌+◌, ◌<◌, ◌≤◌, ◌*◌, MatchOption};
ghost use Rattle.abl_base.specs.declared.limits.TheConstants.{NUMBER_BYTES as NUMBER};
ghost use Rattle.database_meaning.specs.Counts.{answer_size, cursor_size, event_size, op_size};
ghost use Rattle.database_meaning.specs.Setting.{row_size};

use crate::answers::rows::size_within;
use abl_base::Row;
use abl_base::limits::{EVENT_BYTES, NUMBER_BYTES};
use database_protocol::{Answer, Cursor, Op};

/// The number, if it is no more than the limit.
fn within(number: u64, limit: u64) -> Option<u64>
    ensures { MatchOption result (limit < number) (λ n. (n ≡ number) × (n ≤ limit)) }
{
    if number <= limit { Some(number) } else { None }
}

/// The number of bytes of a list of `count` numbers, if it is no more than the limit.
fn list_size(count: usize, limit: u64) -> Option<u64>
    ensures { MatchOption result (limit < NUMBER * count) (λ n. (n ≡ NUMBER * count) × (n ≤ limit)) }
{
    match (NUMBER_BYTES as u64).checked_mul(count as u64) {
        None => None,
        Some(bytes) => within(bytes, limit),
    }
}

/// The bytes of a cursor's key, if these are no more than the limit.
fn cursor_size(cursor: &Option<Cursor>, limit: u64) -> Option<u64>
    ensures { MatchOption result (limit < cursor_size cursor.now) (λ n. (n ≡ cursor_size cursor.now) × (n ≤ limit)) }
{
    match cursor {
        None => Some(0),
        Some(cursor) => within(cursor.key.len() as u64, limit),
    }
}

/// The bytes that an operation counts, if these are no more than the limit.
fn op_size(op: &Op, limit: u64) -> Option<u64>
    ensures { MatchOption result (limit < op_size op.now) (λ n. (n ≡ op_size op.now) × (n ≤ limit)) }
{
    match op {
        Op::Leave { keep } => list_size(keep.len(), limit),
        Op::Next { prefix, cursor, .. } => {
            let first = size_within(prefix.as_slice(), limit)?;
            let rest = cursor_size(cursor, limit - first)?;
            Some(first + rest)
        }
        Op::Insert { values, .. } | Op::Put { values, .. } => size_within(values.as_slice(), limit),
        Op::Enter
        | Op::Back { .. }
        | Op::Get { .. }
        | Op::Lock { .. }
        | Op::Delete { .. }
        | Op::Drop { .. }
        | Op::NextValue { .. }
        | Op::CurrentValue { .. }
        | Op::End => Some(0),
    }
}

/// The bytes of a found row and its key, if these are no more than the limit.
fn found_size(key: usize, values: &Row, limit: u64) -> Option<u64>
    ensures { MatchOption result (limit < key + row_size values.now) (λ n. (n ≡ key + row_size values.now) × (n ≤ limit)) }
{
    let first = within(key as u64, limit)?;
    let rest = size_within(values.as_slice(), limit - first)?;
    Some(first + rest)
}

/// The bytes that an answer counts, if these are no more than the limit.
fn answer_size(answer: &Answer, limit: u64) -> Option<u64>
    ensures { MatchOption result (limit < answer_size answer.now) (λ n. (n ≡ answer_size answer.now) × (n ≤ limit)) }
{
    match answer {
        Answer::Busy { holders } | Answer::Blocked { holders } => list_size(holders.len(), limit),
        Answer::Deadlock { cycle } => list_size(cycle.len(), limit),
        Answer::Found { key, values, .. } => found_size(key.len(), values, limit),
        Answer::Row(values) => size_within(values.as_slice(), limit),
        Answer::Refused
        | Answer::Closed
        | Answer::TraceFull
        | Answer::Gone
        | Answer::KeyTooLong { .. }
        | Answer::Duplicate { .. }
        | Answer::Full
        | Answer::TxFull
        | Answer::SequenceEnd
        | Answer::AtEnd
        | Answer::NoMemory
        | Answer::Done
        | Answer::Committed { .. }
        | Answer::Granted
        | Answer::Inserted { .. }
        | Answer::Value(_) => Some(0),
    }
}

/// The bytes that the event counts, if these are no more than the limit.
pub fn event_size_within(op: &Op, answer: &Answer, limit: u64) -> Option<u64>
    ensures { MatchOption result (limit < event_size op.now answer.now) (λ n. (n ≡ event_size op.now answer.now) × (n ≤ limit)) }
{
    let asked = op_size(op, limit)?;
    let answered = answer_size(answer, limit - asked)?;
    let own = within(EVENT_BYTES as u64, limit - asked - answered)?;
    Some(asked + answered + own)
}
