//! The counted bytes of the trace. The number is capped at one more than the limit of the trace.

ghost use Rattle.std.specs.Prelude.{◌≡◌, ◌≤◌, ◌↔◌, ◌+◌, ℕ, IsTrue};
ghost use Rattle.abl_base.specs.declared.limits.TheConstants.{MAX_TRACE_BYTES as MOST};
ghost use Rattle.database_meaning.specs.Counts.{is_counted};
ghost use Rattle.db_machine.specs.Replies.{HasPlace, IsSize, size_after};

use abl_base::limits::MAX_TRACE_BYTES;
use database_protocol::{Answer, Op};
use row_store::answers::events::event_size_within;

/// Whether the operation is End.
pub(crate) fn is_end(op: &Op) -> bool
    ensures { IsTrue result ↔ (op.now ≡ Op.End) }
{
    match op {
        Op::End => true,
        Op::Enter
        | Op::Leave { .. }
        | Op::Back { .. }
        | Op::Next { .. }
        | Op::Get { .. }
        | Op::Lock { .. }
        | Op::Insert { .. }
        | Op::Put { .. }
        | Op::Delete { .. }
        | Op::Drop { .. }
        | Op::NextValue { .. }
        | Op::CurrentValue { .. } => false,
    }
}

/// Whether the trace of this size has room for the event.
pub(crate) fn has_place(size: u64, op: &Op, answer: &Answer) -> bool
    requires { size ≤ MOST + 1 }
    ensures { IsTrue result ↔ HasPlace size op.now answer.now }
{
    if is_end(op) {
        return true;
    }
    let limit = MAX_TRACE_BYTES as u64;
    if size > limit {
        return false;
    }
    match event_size_within(op, answer, limit - size) {
        None => false,
        Some(_) => true,
    }
}

/// Whether the event is counted.
fn is_counted(op: &Op, answer: &Answer) -> bool
    ensures { result ≡ is_counted op.now answer.now }
{
    match op {
        Op::End => false,
        _ => !matches!(answer, Answer::TraceFull),
    }
}

/// The size of the trace after the event.
pub(crate) fn counted(size: u64, op: &Op, answer: &Answer) -> u64
    requires { size ≤ MOST + 1 }
    ensures bound { result ≤ MOST + 1 }
    ensures counted { (n : ℕ) → IsSize size n → IsSize result (size_after n op.now answer.now) }
{
    if !is_counted(op, answer) {
        return size;
    }
    let limit = MAX_TRACE_BYTES as u64 + 1;
    match event_size_within(op, answer, limit - size) {
        None => limit,
        Some(more) => size + more,
    }
}
