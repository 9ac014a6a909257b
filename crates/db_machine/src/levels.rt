//! The answers to Enter, Leave and Back.

ghost use Rattle.std.specs.Prelude.{◌≡◌, ◌<◌, ◌≤◌, ◌+◌, ◌^◌, ℕ, [], IfOk, IsErrOf, OnErr, OnOk, length, false, true, IsTrue};
ghost use Rattle.abl_base.specs.declared.limits.TheConstants.{MAX_TRACE_BYTES as MOST};
ghost use Rattle.database_meaning.specs.Setting.{Setting};
ghost use Rattle.database_meaning.specs.State.{State};
ghost use Rattle.database_meaning.specs.Steps.{is_outermost};
ghost use Rattle.database_meaning.specs.Traces.{is_committed};
ghost use Rattle.row_store.specs.Rows.{AfterError, IsObservable, OnlyDisk};
ghost use Rattle.db_core.specs.Crashes.{Continues, StaysDurable};
ghost use Rattle.db_core.specs.Keeps.{Stays};
ghost use Rattle.db_core.specs.Moves.{AreStaying};
ghost use Rattle.db_core.specs.Represents.{IsSound, Represents, marks_at};
ghost use Rattle.db_machine.specs.Crashes.{answer_for};
ghost use Rattle.db_machine.specs.Machine.{IsSome};
ghost use Rattle.db_machine.specs.OwnAnswers.{IsOpenAnswer};
ghost use Rattle.db_machine.specs.Replies.{IsReply};

use crate::replies::{Reply, fit_copies, is_refusal, prepare};
use abl_base::Items;
use abl_values::Schema;
use database_protocol::{Answer, Op, RowIds};
use db_core::Control;
use db_core::answers::end_request;
use db_core::levels::{back, commit, enter, leave};
use db_core::staying::staying_rows;
use row_store::{RowFault, RowStore};
use std::alloc::Global;

/// Answers an Enter.
pub(crate) fn answer_enter<R: RowStore>(
    rows: &mut R,
    control: &mut Control,
    schema: &Schema,
    size: u64,
    client: u16,
    op: &Op,
) -> Result<Reply, RowFault>
    requires client { client < 16 }
    requires known { client < length control.old.sessions.items }
    requires few { length control.old.sessions.items ≤ 16 }
    requires sound { IsSound (R.RowStore.state rows.old) control.old }
    requires fine { (R.RowStore.state rows.old).failed ≡ false }
    requires some { IsSome (R.RowStore.state rows.old) control.old }
    requires size { size ≤ MOST + 1 }
    requires op { op.now ≡ Op.Enter }
    ensures reply { IfOk result (λ reply. IsReply (R.RowStore.state rows.old) (R.RowStore.state rows.new) control.old control.new size client op.now reply.answer) }
    ensures copy { IfOk result (λ reply. reply.copy ≡ reply.answer) }
    ensures own { IfOk result (λ reply. IsOpenAnswer schema.now op.now reply.answer) }
    ensures stays { OnErr result (Stays (R.RowStore.state rows.old) (R.RowStore.state rows.new) control.old control.new client) }
    ensures memory { IsErrOf result RowFault.NoMemory → (R.RowStore.state rows.new).failed ≡ (R.RowStore.state rows.old).failed }
    ensures disk { IsErrOf result RowFault.Disk → IsTrue (R.RowStore.state rows.new).failed }
    ensures durable { StaysDurable (R.RowStore.state rows.old) (R.RowStore.state rows.new) (R.RowStore.left rows.old) (R.RowStore.left rows.new) (R.RowStore.times rows.old) (R.RowStore.times rows.new) }
    ensures since { (R.RowStore.times rows.new).since ≡ (R.RowStore.times rows.old).since }
{
    let reply = prepare(schema, size, op, Answer::Done)?;
    if is_refusal(&reply.answer) {
        end_request(control, client);
        return Ok(reply);
    }
    enter(rows, control, client)?;
    Ok(reply)
}

/// Answers a Back to a level that is open.
pub(crate) fn answer_back<R: RowStore>(
    rows: &mut R,
    control: &mut Control,
    schema: &Schema,
    size: u64,
    client: u16,
    op: &Op,
    depth: u32,
) -> Result<Reply, RowFault>
    requires client { client < 16 }
    requires known { client < length control.old.sessions.items }
    requires few { length control.old.sessions.items ≤ 16 }
    requires sound { IsSound (R.RowStore.state rows.old) control.old }
    requires fine { (R.RowStore.state rows.old).failed ≡ false }
    requires some { IsSome (R.RowStore.state rows.old) control.old }
    requires size { size ≤ MOST + 1 }
    requires level { 0 < depth }
    requires open { depth ≤ length (marks_at control.old client) }
    requires op { op.now ≡ Op.Back depth }
    ensures reply { IfOk result (λ reply. IsReply (R.RowStore.state rows.old) (R.RowStore.state rows.new) control.old control.new size client op.now reply.answer) }
    ensures copy { IfOk result (λ reply. reply.copy ≡ reply.answer) }
    ensures own { IfOk result (λ reply. IsOpenAnswer schema.now op.now reply.answer) }
    ensures stays { OnErr result (Stays (R.RowStore.state rows.old) (R.RowStore.state rows.new) control.old control.new client) }
    ensures only { OnlyDisk result }
    ensures memory { IsErrOf result RowFault.NoMemory → (R.RowStore.state rows.new).failed ≡ (R.RowStore.state rows.old).failed }
    ensures disk { IsErrOf result RowFault.Disk → IsTrue (R.RowStore.state rows.new).failed }
    ensures durable { StaysDurable (R.RowStore.state rows.old) (R.RowStore.state rows.new) (R.RowStore.left rows.old) (R.RowStore.left rows.new) (R.RowStore.times rows.old) (R.RowStore.times rows.new) }
    ensures since { (R.RowStore.times rows.new).since ≡ (R.RowStore.times rows.old).since }
{
    let reply = fit_copies(size, op, Answer::Done, Answer::Done);
    if is_refusal(&reply.answer) {
        end_request(control, client);
        return Ok(reply);
    }
    back(rows, control, client, depth)?;
    Ok(reply)
}

/// Answers a Leave of an inner level.
pub(crate) fn answer_inner_leave<R: RowStore>(
    rows: &mut R,
    control: &mut Control,
    schema: &Schema,
    size: u64,
    client: u16,
    op: &Op,
    keep: &RowIds,
) -> Result<Reply, RowFault>
    requires client { client < 16 }
    requires known { client < length control.old.sessions.items }
    requires few { length control.old.sessions.items ≤ 16 }
    requires sound { IsSound (R.RowStore.state rows.old) control.old }
    requires fine { (R.RowStore.state rows.old).failed ≡ false }
    requires some { IsSome (R.RowStore.state rows.old) control.old }
    requires size { size ≤ MOST + 1 }
    requires inner { 1 < length (marks_at control.old client) }
    requires op { op.now ≡ Op.Leave keep.now }
    ensures reply { IfOk result (λ reply. IsReply (R.RowStore.state rows.old) (R.RowStore.state rows.new) control.old control.new size client op.now reply.answer) }
    ensures copy { IfOk result (λ reply. reply.copy ≡ reply.answer) }
    ensures own { IfOk result (λ reply. IsOpenAnswer schema.now op.now reply.answer) }
    ensures stays { OnErr result (Stays (R.RowStore.state rows.old) (R.RowStore.state rows.new) control.old control.new client) }
    ensures only { OnlyDisk result }
    ensures memory { IsErrOf result RowFault.NoMemory → (R.RowStore.state rows.new).failed ≡ (R.RowStore.state rows.old).failed }
    ensures disk { IsErrOf result RowFault.Disk → IsTrue (R.RowStore.state rows.new).failed }
    ensures durable { StaysDurable (R.RowStore.state rows.old) (R.RowStore.state rows.new) (R.RowStore.left rows.old) (R.RowStore.left rows.new) (R.RowStore.times rows.old) (R.RowStore.times rows.new) }
    ensures since { (R.RowStore.times rows.new).since ≡ (R.RowStore.times rows.old).since }
    ensures uncommitted { IfOk result (λ reply. is_committed reply.answer ≡ false) }
{
    let reply = fit_copies(size, op, Answer::Done, Answer::Done);
    if is_refusal(&reply.answer) {
        end_request(control, client);
        return Ok(reply);
    }
    leave(control, client);
    Ok(reply)
}

/// Those rows of a Leave's `keep` on which the client's locks stay when it commits. Where it names
/// none, no memory is taken.
fn rows_to_keep<R: RowStore>(
    alloc: Global,
    rows: &mut R,
    control: &Control,
    keep: &RowIds,
) -> Result<RowIds, RowFault>
    ensures staying { IfOk result (λ staying. (f : Setting) (s : State) (c : ℕ) → Represents f (R.RowStore.state rows.old) control.now s → IsObservable (R.RowStore.state rows.old) →
        is_outermost s c ≡ true → AreStaying s c keep.now staying) }
    ensures only { keep.now ≡ [] → OnlyDisk result }
    ensures same { OnOk result (R.RowStore.state rows.new ≡ R.RowStore.state rows.old) }
    ensures err { AfterError (R.RowStore.state rows.old) (R.RowStore.state rows.new) result }
    ensures durable { StaysDurable (R.RowStore.state rows.old) (R.RowStore.state rows.new) (R.RowStore.left rows.old) (R.RowStore.left rows.new) (R.RowStore.times rows.old) (R.RowStore.times rows.new) }
    ensures since { (R.RowStore.times rows.new).since ≡ (R.RowStore.times rows.old).since }
{
    if keep.len() == 0 {
        return Ok(Items::empty(alloc));
    }
    staying_rows(alloc, rows, control, keep)
}

/// Answers a Leave of the outermost level.
pub(crate) fn answer_commit<R: RowStore>(
    alloc: Global,
    rows: &mut R,
    control: &mut Control,
    schema: &Schema,
    size: u64,
    client: u16,
    op: &Op,
    keep: &RowIds,
) -> Result<Reply, RowFault>
    requires client { client < 16 }
    requires known { client < length control.old.sessions.items }
    requires few { length control.old.sessions.items ≤ 16 }
    requires sound { IsSound (R.RowStore.state rows.old) control.old }
    requires fine { (R.RowStore.state rows.old).failed ≡ false }
    requires some { IsSome (R.RowStore.state rows.old) control.old }
    requires size { size ≤ MOST + 1 }
    requires sequences { length control.old.sequences.items ≡ length (R.RowStore.state rows.old).schema.sequences }
    requires outermost { length (marks_at control.old client) ≡ 1 }
    requires frees { control.old.frees + 1 < 2 ^ 64 }
    requires op { op.now ≡ Op.Leave keep.now }
    ensures reply { IfOk result (λ reply. IsReply (R.RowStore.state rows.old) (R.RowStore.state rows.new) control.old control.new size client op.now reply.answer) }
    ensures copy { IfOk result (λ reply. reply.copy ≡ reply.answer) }
    ensures own { IfOk result (λ reply. IsOpenAnswer schema.now op.now reply.answer) }
    ensures stays { OnErr result (Stays (R.RowStore.state rows.old) (R.RowStore.state rows.new) control.old control.new client) }
    ensures only { keep.now ≡ [] → OnlyDisk result }
    ensures memory { IsErrOf result RowFault.NoMemory → (R.RowStore.state rows.new).failed ≡ (R.RowStore.state rows.old).failed }
    ensures disk { IsErrOf result RowFault.Disk → IsTrue (R.RowStore.state rows.new).failed }
    ensures durable { Continues (R.RowStore.state rows.old) (R.RowStore.state rows.new) (R.RowStore.left rows.old) (R.RowStore.left rows.new) (R.RowStore.times rows.old) (R.RowStore.times rows.new) control.old client op.now (answer_for result) }
    ensures since { (R.RowStore.times rows.new).since ≡ (R.RowStore.times rows.old).since }
{
    let reply = fit_copies(
        size,
        op,
        Answer::Committed { moment: 0 },
        Answer::Committed { moment: 0 },
    );
    if is_refusal(&reply.answer) {
        end_request(control, client);
        return Ok(reply);
    }
    let staying = rows_to_keep(alloc, rows, control, keep)?;
    let moment = commit(rows, control, client, &staying)?;
    Ok(Reply {
        answer: Answer::Committed { moment },
        copy: Answer::Committed { moment },
    })
}
