//! Answers in two copies, one for the client and one for the trace.

ghost use Rattle.std.specs.Prelude.{◌≡◌, ◌≤◌, ◌↔◌, ◌+◌, IfErr, IfOk, IsTrue};
ghost use Rattle.abl_base.specs.declared.limits.TheConstants.{MAX_TRACE_BYTES as MOST};
ghost use Rattle.db_machine.specs.OwnAnswers.{IsOpenAnswer};
ghost use Rattle.db_machine.specs.Replies.{IsFitted, IsRefusal};

use crate::own_answers::can_have;
use crate::trace_size::has_place;
use abl_values::Schema;
use database_protocol::{Answer, Op};
use row_store::RowFault;

/// An answer, and a copy of it for the trace.
#[derive(Drop)]
pub(crate) struct Reply {
    pub answer: Answer,
    pub copy: Answer,
}

/// The decided answer, where the trace has room for it, or TraceFull.
fn fit(size: u64, op: &Op, decided: Answer) -> Answer
    requires { size ≤ MOST + 1 }
    ensures { IsFitted size op.now decided result }
{
    if has_place(size, op, &decided) {
        decided
    } else {
        Answer::TraceFull
    }
}

/// The decided answer, where the trace has room for it, or TraceFull. Both copies are made before
/// anything changes. The error NoMemory means out of memory, or that the operation cannot have the
/// decided answer: a store that is not observable may find bytes that are no row of the table.
pub(crate) fn prepare(
    schema: &Schema,
    size: u64,
    op: &Op,
    decided: Answer,
) -> Result<Reply, RowFault>
    requires { size ≤ MOST + 1 }
    ensures fitted { IfOk result (λ reply. IsFitted size op.now decided reply.answer) }
    ensures copy { IfOk result (λ reply. reply.copy ≡ reply.answer) }
    ensures own { IfOk result (λ reply. IsOpenAnswer schema.now op.now reply.answer) }
    ensures memory { IfErr result (λ error. error ≡ RowFault.NoMemory) }
{
    if !can_have(schema, op, &decided) {
        return Err(RowFault::NoMemory);
    }
    let answer = fit(size, op, decided);
    match answer.copy() {
        Ok(copy) => Ok(Reply { answer, copy }),
        Err(_) => Err(RowFault::NoMemory),
    }
}

/// The answer, of which the caller has two copies, where the trace has room for it, or TraceFull. It
/// takes no memory.
pub(crate) fn fit_copies(size: u64, op: &Op, answer: Answer, copy: Answer) -> Reply
    requires size { size ≤ MOST + 1 }
    requires copy { copy ≡ answer }
    ensures fitted { IsFitted size op.now answer result.answer }
    ensures copy { result.copy ≡ result.answer }
{
    if has_place(size, op, &answer) {
        Reply { answer, copy }
    } else {
        Reply {
            answer: Answer::TraceFull,
            copy: Answer::TraceFull,
        }
    }
}

/// Whether nothing but the client's blocked request changes after the answer.
pub(crate) fn is_refusal(answer: &Answer) -> bool
    ensures { IsTrue result ↔ IsRefusal answer.now }
{
    match answer {
        Answer::TraceFull
        | Answer::Gone
        | Answer::KeyTooLong { .. }
        | Answer::Busy { .. }
        | Answer::Deadlock { .. }
        | Answer::Duplicate { .. }
        | Answer::Full
        | Answer::TxFull
        | Answer::SequenceEnd
        | Answer::AtEnd => true,
        Answer::Refused
        | Answer::Closed
        | Answer::Blocked { .. }
        | Answer::NoMemory
        | Answer::Done
        | Answer::Committed { .. }
        | Answer::Found { .. }
        | Answer::Row(_)
        | Answer::Granted
        | Answer::Inserted { .. }
        | Answer::Value(_) => false,
    }
}
