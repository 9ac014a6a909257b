//! One operation of one client: whether it is refused, and else its answer.

ghost use Rattle.std.specs.Prelude.{◌≡◌, ◌≢◌, ◌<◌, ◌≤◌, ◌+◌, ◌^◌, ◌||◌, IfOk, IsErrOf, OnErr, length, false, IsTrue, ◌⊎◌};
ghost use Rattle.abl_base.specs.declared.limits.TheConstants.{MAX_TRACE_BYTES as MOST};
ghost use Rattle.database_protocol.specs.declared.answer.Answer.TheVariants.{Closed, NoMemory, Refused};
ghost use Rattle.database_protocol.specs.declared.operation.Op.TheVariants.{End};
ghost use Rattle.database_meaning.specs.Fits.{Fits};
ghost use Rattle.database_meaning.specs.Setting.{increment_of};
ghost use Rattle.database_meaning.specs.Steps.{is_closed};
ghost use Rattle.db_core.specs.Crashes.{Continues};
ghost use Rattle.db_core.specs.Keeps.{Stays};
ghost use Rattle.db_core.specs.Known.{IsAllowed, known, setting_at};
ghost use Rattle.db_core.specs.Represents.{IsSound, marks_at};
ghost use Rattle.db_machine.specs.Crashes.{StepsOn, answer_for};
ghost use Rattle.db_machine.specs.Machine.{IsSome};
ghost use Rattle.db_machine.specs.Memory.{MayLackMemory};
ghost use Rattle.db_machine.specs.OwnAnswers.{IsOpenAnswer};
ghost use Rattle.db_machine.specs.Replies.{IsReply, IsStep};

use crate::levels::{answer_back, answer_commit, answer_enter, answer_inner_leave};
use crate::queries::{answer_drop, answer_lock, answer_next_value, answer_question};
use crate::replies::Reply;
use crate::trace_size::is_end;
use crate::writes::{answer_delete, answer_insert, answer_put};
use abl_values::Schema;
use database_protocol::{Answer, Op};
use db_core::Control;
use db_core::answers::{end_failed, end_request};
use db_core::control::depth;
use db_core::laws::{a_refusal_changes_nothing, refusals_are_known};
use db_core::levels::end;
use db_core::refusals::is_allowed;
use row_store::{RowFault, RowStore};
use std::alloc::Global;

/// By how much the sequence moves.
fn increment(schema: &Schema, sequence: u16) -> i64
    requires { sequence < length schema.now.sequences }
    ensures { result ≡ increment_of schema.now sequence }
{
    schema.sequences()[usize::from(sequence)].increment
}

/// Answers an allowed operation of an open database. End is no such operation: it has its own call.
fn answer_allowed<R: RowStore>(
    alloc: Global,
    rows: &mut R,
    control: &mut Control,
    schema: &Schema,
    size: u64,
    client: u16,
    op: &Op,
) -> Result<Reply, RowFault>
    requires few { length control.old.sessions.items ≤ 16 }
    requires sound { IsSound (R.RowStore.state rows.old) control.old }
    requires fine { (R.RowStore.state rows.old).failed ≡ false }
    requires size { size ≤ MOST + 1 }
    requires frees { control.old.frees + 1 < 2 ^ 64 }
    requires schema { (R.RowStore.state rows.old).schema ≡ schema.now }
    requires sequences { length control.old.sequences.items ≡ length schema.now.sequences }
    requires some { IsSome (R.RowStore.state rows.old) control.old }
    requires allowed { IsAllowed (setting_at schema.now control.old) (known control.old) client op.now }
    requires other { op.now ≢ End }
    ensures reply { IfOk result (λ reply. IsReply (R.RowStore.state rows.old) (R.RowStore.state rows.new) control.old control.new size client op.now reply.answer) }
    ensures copy { IfOk result (λ reply. reply.copy ≡ reply.answer) }
    ensures own { IfOk result (λ reply. IsOpenAnswer schema.now op.now reply.answer) }
    ensures stays { OnErr result (Stays (R.RowStore.state rows.old) (R.RowStore.state rows.new) control.old control.new client) }
    ensures memory { IsErrOf result RowFault.NoMemory → (R.RowStore.state rows.new).failed ≡ (R.RowStore.state rows.old).failed }
    ensures lacks { IsErrOf result RowFault.NoMemory → MayLackMemory (length (marks_at control.old client)) op.now }
    ensures disk { IsErrOf result RowFault.Disk → IsTrue (R.RowStore.state rows.new).failed }
    ensures durable { Continues (R.RowStore.state rows.old) (R.RowStore.state rows.new) (R.RowStore.left rows.old) (R.RowStore.left rows.new) (R.RowStore.times rows.old) (R.RowStore.times rows.new) control.old client op.now (answer_for result) }
    ensures since { (R.RowStore.times rows.new).since ≡ (R.RowStore.times rows.old).since }
{
    match op {
        Op::Enter => answer_enter(rows, control, schema, size, client, op),
        Op::Leave { keep } => {
            if depth(control, client) == 1 {
                answer_commit(alloc, rows, control, schema, size, client, op, keep)
            } else {
                answer_inner_leave(rows, control, schema, size, client, op, keep)
            }
        }
        Op::Back { depth } => answer_back(rows, control, schema, size, client, op, *depth),
        Op::Next { .. } | Op::Get { .. } | Op::CurrentValue { .. } => {
            answer_question(rows, control, schema, size, client, op)
        }
        Op::Lock {
            table,
            row,
            exclusive,
            wait,
        } => answer_lock(
            alloc, rows, control, schema, size, client, op, *table, *row, *exclusive, *wait,
        ),
        Op::Insert { table, values } => {
            answer_insert(
                alloc, rows, control, schema, size, client, op, *table, values,
            )
        }
        Op::Put { table, row, values } => {
            answer_put(
                alloc, rows, control, schema, size, client, op, *table, *row, values,
            )
        }
        Op::Delete { table, row } => {
            answer_delete(rows, control, schema, size, client, op, *table, *row)
        }
        Op::Drop { row } => answer_drop(rows, control, schema, size, client, op, *row),
        Op::NextValue { sequence } => {
            let increment = increment(schema, *sequence);
            answer_next_value(
                rows, control, schema, size, client, op, *sequence, increment,
            )
        }
        Op::End => Err(RowFault::NoMemory),
    }
}

/// Answers an operation other than End. After an error the operation was allowed, and nothing is
/// answered yet.
fn try_answer<R: RowStore>(
    alloc: Global,
    rows: &mut R,
    control: &mut Control,
    schema: &Schema,
    size: u64,
    closed: bool,
    client: u16,
    op: &Op,
) -> Result<Reply, RowFault>
    requires few { length control.old.sessions.items ≤ 16 }
    requires sound { IsSound (R.RowStore.state rows.old) control.old }
    requires fine { closed ≡ false → (R.RowStore.state rows.old).failed ≡ false }
    requires size { size ≤ MOST + 1 }
    requires frees { control.old.frees + 1 < 2 ^ 64 }
    requires schema { (R.RowStore.state rows.old).schema ≡ schema.now }
    requires sequences { length control.old.sequences.items ≡ length schema.now.sequences }
    requires some { IsSome (R.RowStore.state rows.old) control.old }
    requires other { op.now ≢ End }
    ensures step { IfOk result (λ reply. IsStep (R.RowStore.state rows.old) (R.RowStore.state rows.new) control.old control.new size closed client op.now reply.answer) }
    ensures refused { IfOk result (λ reply. reply.answer ≡ Refused → ¬ IsAllowed (setting_at schema.now control.old) (known control.old) client op.now) }
    ensures copy { IfOk result (λ reply. reply.copy ≡ reply.answer) }
    ensures fits { IfOk result (λ reply. Fits schema.now op.now reply.answer) }
    ensures fine { IfOk result (λ reply. (closed || is_closed reply.answer) ≡ false → (R.RowStore.state rows.new).failed ≡ false) }
    ensures stays { OnErr result (Stays (R.RowStore.state rows.old) (R.RowStore.state rows.new) control.old control.new client) }
    ensures allowed { OnErr result (IsAllowed (setting_at schema.now control.old) (known control.old) client op.now) }
    ensures memory { IsErrOf result RowFault.NoMemory → (R.RowStore.state rows.new).failed ≡ (R.RowStore.state rows.old).failed }
    ensures lacks { IsErrOf result RowFault.NoMemory → MayLackMemory (length (marks_at control.old client)) op.now }
    ensures disk { IsErrOf result RowFault.Disk → IsTrue (R.RowStore.state rows.new).failed }
    ensures met { IfOk result (λ reply. reply.answer ≢ NoMemory) }
    ensures unshut { OnErr result (closed ≡ false) }
    ensures shut { IfOk result (λ reply. reply.answer ≡ Closed → IsTrue closed) }
    ensures durable { StepsOn (R.RowStore.state rows.old) (R.RowStore.state rows.new) (R.RowStore.left rows.old) (R.RowStore.left rows.new) (R.RowStore.times rows.old) (R.RowStore.times rows.new) control.old closed client op.now (answer_for result) }
    ensures since { (R.RowStore.times rows.new).since ≡ (R.RowStore.times rows.old).since }
{
    a_refusal_changes_nothing();
    refusals_are_known();
    if !is_allowed(schema, control, client, op) {
        return Ok(Reply {
            answer: Answer::Refused,
            copy: Answer::Refused,
        });
    }
    if closed {
        end_request(control, client);
        return Ok(Reply {
            answer: Answer::Closed,
            copy: Answer::Closed,
        });
    }
    answer_allowed(alloc, rows, control, schema, size, client, op)
}

/// Answers an operation other than End. Where memory runs out the answer is NoMemory, and where the
/// disk fails it is Closed.
fn answer_other<R: RowStore>(
    alloc: Global,
    rows: &mut R,
    control: &mut Control,
    schema: &Schema,
    size: u64,
    closed: bool,
    client: u16,
    op: &Op,
) -> Reply
    requires few { length control.old.sessions.items ≤ 16 }
    requires sound { IsSound (R.RowStore.state rows.old) control.old }
    requires fine { closed ≡ false → (R.RowStore.state rows.old).failed ≡ false }
    requires size { size ≤ MOST + 1 }
    requires frees { control.old.frees + 1 < 2 ^ 64 }
    requires schema { (R.RowStore.state rows.old).schema ≡ schema.now }
    requires sequences { length control.old.sequences.items ≡ length schema.now.sequences }
    requires some { IsSome (R.RowStore.state rows.old) control.old }
    requires other { op.now ≢ End }
    ensures step { IsStep (R.RowStore.state rows.old) (R.RowStore.state rows.new) control.old control.new size closed client op.now result.answer }
    ensures refused { result.answer ≡ Refused → ¬ IsAllowed (setting_at schema.now control.old) (known control.old) client op.now }
    ensures copy { result.copy ≡ result.answer }
    ensures fits { Fits schema.now op.now result.answer }
    ensures fine { (closed || is_closed result.answer) ≡ false → (R.RowStore.state rows.new).failed ≡ false }
    ensures lacks { result.answer ≡ NoMemory → MayLackMemory (length (marks_at control.old client)) op.now }
    ensures cause { result.answer ≡ Closed → IsTrue closed ⊎ IsTrue (R.RowStore.state rows.new).failed }
    ensures durable { StepsOn (R.RowStore.state rows.old) (R.RowStore.state rows.new) (R.RowStore.left rows.old) (R.RowStore.left rows.new) (R.RowStore.times rows.old) (R.RowStore.times rows.new) control.old closed client op.now result.answer }
    ensures since { (R.RowStore.times rows.new).since ≡ (R.RowStore.times rows.old).since }
{
    refusals_are_known();
    match try_answer(alloc, rows, control, schema, size, closed, client, op) {
        Ok(reply) => reply,
        Err(RowFault::NoMemory) => {
            end_failed(control, client);
            Reply {
                answer: Answer::NoMemory,
                copy: Answer::NoMemory,
            }
        }
        Err(RowFault::Disk) => {
            end_failed(control, client);
            Reply {
                answer: Answer::Closed,
                copy: Answer::Closed,
            }
        }
    }
}

/// Answers an End: Done, or Refused where the client is unknown. It takes no memory.
fn answer_end<R: RowStore>(
    rows: &mut R,
    control: &mut Control,
    schema: &Schema,
    size: u64,
    closed: bool,
    client: u16,
) -> Reply
    requires few { length control.old.sessions.items ≤ 16 }
    requires sound { IsSound (R.RowStore.state rows.old) control.old }
    requires fine { closed ≡ false → (R.RowStore.state rows.old).failed ≡ false }
    requires size { size ≤ MOST + 1 }
    requires frees { control.old.frees + 1 < 2 ^ 64 }
    requires schema { (R.RowStore.state rows.old).schema ≡ schema.now }
    requires sequences { length control.old.sequences.items ≡ length schema.now.sequences }
    requires some { IsSome (R.RowStore.state rows.old) control.old }
    ensures step { IsStep (R.RowStore.state rows.old) (R.RowStore.state rows.new) control.old control.new size closed client Op.End result.answer }
    ensures refused { result.answer ≡ Refused → ¬ IsAllowed (setting_at schema.now control.old) (known control.old) client Op.End }
    ensures copy { result.copy ≡ result.answer }
    ensures fits { Fits schema.now Op.End result.answer }
    ensures fine { (closed || is_closed result.answer) ≡ false → (R.RowStore.state rows.new).failed ≡ false }
    ensures met { result.answer ≢ NoMemory }
    ensures cause { result.answer ≡ Closed → IsTrue closed ⊎ IsTrue (R.RowStore.state rows.new).failed }
    ensures durable { StepsOn (R.RowStore.state rows.old) (R.RowStore.state rows.new) (R.RowStore.left rows.old) (R.RowStore.left rows.new) (R.RowStore.times rows.old) (R.RowStore.times rows.new) control.old closed client Op.End result.answer }
    ensures since { (R.RowStore.times rows.new).since ≡ (R.RowStore.times rows.old).since }
{
    a_refusal_changes_nothing();
    refusals_are_known();
    if !is_allowed(schema, control, client, &Op::End) {
        return Reply {
            answer: Answer::Refused,
            copy: Answer::Refused,
        };
    }
    end(rows, control, client);
    Reply {
        answer: Answer::Done,
        copy: Answer::Done,
    }
}

/// Answers an operation.
pub(crate) fn answer<R: RowStore>(
    alloc: Global,
    rows: &mut R,
    control: &mut Control,
    schema: &Schema,
    size: u64,
    closed: bool,
    client: u16,
    op: &Op,
) -> Reply
    requires few { length control.old.sessions.items ≤ 16 }
    requires sound { IsSound (R.RowStore.state rows.old) control.old }
    requires fine { closed ≡ false → (R.RowStore.state rows.old).failed ≡ false }
    requires size { size ≤ MOST + 1 }
    requires frees { control.old.frees + 1 < 2 ^ 64 }
    requires schema { (R.RowStore.state rows.old).schema ≡ schema.now }
    requires sequences { length control.old.sequences.items ≡ length schema.now.sequences }
    requires some { IsSome (R.RowStore.state rows.old) control.old }
    ensures step { IsStep (R.RowStore.state rows.old) (R.RowStore.state rows.new) control.old control.new size closed client op.now result.answer }
    ensures refused { result.answer ≡ Refused → ¬ IsAllowed (setting_at schema.now control.old) (known control.old) client op.now }
    ensures copy { result.copy ≡ result.answer }
    ensures fits { Fits schema.now op.now result.answer }
    ensures fine { (closed || is_closed result.answer) ≡ false → (R.RowStore.state rows.new).failed ≡ false }
    ensures lacks { result.answer ≡ NoMemory → MayLackMemory (length (marks_at control.old client)) op.now }
    ensures cause { result.answer ≡ Closed → IsTrue closed ⊎ IsTrue (R.RowStore.state rows.new).failed }
    ensures durable { StepsOn (R.RowStore.state rows.old) (R.RowStore.state rows.new) (R.RowStore.left rows.old) (R.RowStore.left rows.new) (R.RowStore.times rows.old) (R.RowStore.times rows.new) control.old closed client op.now result.answer }
    ensures since { (R.RowStore.times rows.new).since ≡ (R.RowStore.times rows.old).since }
{
    if is_end(op) {
        return answer_end(rows, control, schema, size, closed, client);
    }
    answer_other(alloc, rows, control, schema, size, closed, client, op)
}
