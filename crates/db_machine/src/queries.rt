//! The answers to operations that change no row and no level: Next, Get, CurrentValue, Lock, Drop and
//! NextValue.

ghost use Rattle.std.specs.Prelude.{◌≡◌, ◌<◌, ◌≤◌, ◌+◌, ◌^◌, ℕ, IfOk, IsErrOf, None, OnErr, OnOk, length, false, IsTrue};
ghost use Rattle.abl_base.specs.declared.limits.TheConstants.{MAX_TRACE_BYTES as MOST};
ghost use Rattle.database_protocol.specs.declared.operation.Op.{Op as Asked};
ghost use Rattle.database_meaning.specs.Answers.{FromGone};
ghost use Rattle.database_meaning.specs.Steps.{blocked_after};
ghost use Rattle.database_meaning.specs.Setting.{Setting, increment_of};
ghost use Rattle.database_meaning.specs.State.{State};
ghost use Rattle.database_meaning.specs.Traces.{is_committed};
ghost use Rattle.row_store.specs.Rows.{AfterError, IsObservable, OnlyDisk};
ghost use Rattle.db_core.specs.Crashes.{StaysDurable};
ghost use Rattle.db_core.specs.Keeps.{Stays};
ghost use Rattle.db_core.specs.Represents.{IsSound, Represents};
ghost use Rattle.db_machine.specs.Machine.{IsSome};
ghost use Rattle.db_machine.specs.OwnAnswers.{IsOpenAnswer};
ghost use Rattle.db_machine.specs.Replies.{AsksWhatIs, IsReply};

use crate::replies::{Reply, fit_copies, is_refusal, prepare};
use abl_base::RowId;
use abl_values::Schema;
use database_protocol::{Answer, Op};
use db_core::Control;
use db_core::answers::{end_request, move_sequence};
use db_core::decide::{decide_get, decide_lock};
use db_core::locks::{drop_lock, grant_lock, wait as wait_for_lock};
use db_core::search::decide_next;
use db_core::sequences::{decide_current_value, decide_next_value};
use row_store::{RowFault, RowStore};
use std::alloc::Global;

/// The answer to a Next, Get or CurrentValue. Nothing changes. Other operations do not come here.
fn decide_question<R: RowStore>(
    rows: &mut R,
    control: &Control,
    op: &Op,
) -> Result<Answer, RowFault>
    requires sound { IsSound (R.RowStore.state rows.old) control.now }
    requires asks { AsksWhatIs (R.RowStore.state rows.old).schema control.now op.now }
    ensures answer { IfOk result (λ answer. (f : Setting) (s : State) (c : ℕ) →
        Represents f (R.RowStore.state rows.old) control.now s → IsObservable (R.RowStore.state rows.old) → FromGone f s c op.now answer) }
    ensures quiet { IfOk result (λ answer. (s : State) (c : ℕ) (other : Asked) → blocked_after s c other answer ≡ None) }
    ensures same { OnOk result (R.RowStore.state rows.new ≡ R.RowStore.state rows.old) }
    ensures err { AfterError (R.RowStore.state rows.old) (R.RowStore.state rows.new) result }
    ensures durable { StaysDurable (R.RowStore.state rows.old) (R.RowStore.state rows.new) (R.RowStore.left rows.old) (R.RowStore.left rows.new) (R.RowStore.times rows.old) (R.RowStore.times rows.new) }
    ensures since { (R.RowStore.times rows.new).since ≡ (R.RowStore.times rows.old).since }
{
    match op {
        Op::Next {
            table,
            index,
            prefix,
            cursor,
            forward,
        } => decide_next(
            rows,
            control,
            *table,
            *index,
            prefix,
            cursor.as_ref(),
            *forward,
        ),
        Op::Get { table, row } => decide_get(rows, control, *table, *row),
        Op::CurrentValue { sequence } => Ok(decide_current_value(control, *sequence)),
        _ => Err(RowFault::NoMemory),
    }
}

/// Answers a Next, Get or CurrentValue.
pub(crate) fn answer_question<R: RowStore>(
    rows: &mut R,
    control: &mut Control,
    schema: &Schema,
    size: u64,
    client: u16,
    op: &Op,
) -> Result<Reply, RowFault>
    requires client { client < 16 }
    requires known { client < length control.old.sessions.items }
    requires few { length control.old.sessions.items ≤ 16 }
    requires sound { IsSound (R.RowStore.state rows.old) control.old }
    requires fine { (R.RowStore.state rows.old).failed ≡ false }
    requires some { IsSome (R.RowStore.state rows.old) control.old }
    requires size { size ≤ MOST + 1 }
    requires asks { AsksWhatIs (R.RowStore.state rows.old).schema control.old op.now }
    ensures reply { IfOk result (λ reply. IsReply (R.RowStore.state rows.old) (R.RowStore.state rows.new) control.old control.new size client op.now reply.answer) }
    ensures copy { IfOk result (λ reply. reply.copy ≡ reply.answer) }
    ensures own { IfOk result (λ reply. IsOpenAnswer schema.now op.now reply.answer) }
    ensures stays { OnErr result (Stays (R.RowStore.state rows.old) (R.RowStore.state rows.new) control.old control.new client) }
    ensures memory { IsErrOf result RowFault.NoMemory → (R.RowStore.state rows.new).failed ≡ (R.RowStore.state rows.old).failed }
    ensures disk { IsErrOf result RowFault.Disk → IsTrue (R.RowStore.state rows.new).failed }
    ensures durable { StaysDurable (R.RowStore.state rows.old) (R.RowStore.state rows.new) (R.RowStore.left rows.old) (R.RowStore.left rows.new) (R.RowStore.times rows.old) (R.RowStore.times rows.new) }
    ensures since { (R.RowStore.times rows.new).since ≡ (R.RowStore.times rows.old).since }
    ensures uncommitted { IfOk result (λ reply. is_committed reply.answer ≡ false) }
{
    let decided = decide_question(rows, control, op)?;
    let reply = prepare(schema, size, op, decided)?;
    end_request(control, client);
    Ok(reply)
}

/// Answers a Lock.
pub(crate) fn answer_lock<R: RowStore>(
    alloc: Global,
    rows: &mut R,
    control: &mut Control,
    schema: &Schema,
    size: u64,
    client: u16,
    op: &Op,
    table: u16,
    row: RowId,
    exclusive: bool,
    wait: bool,
) -> Result<Reply, RowFault>
    requires client { client < 16 }
    requires known { client < length control.old.sessions.items }
    requires few { length control.old.sessions.items ≤ 16 }
    requires sound { IsSound (R.RowStore.state rows.old) control.old }
    requires fine { (R.RowStore.state rows.old).failed ≡ false }
    requires some { IsSome (R.RowStore.state rows.old) control.old }
    requires size { size ≤ MOST + 1 }
    requires op { op.now ≡ Op.Lock table row exclusive wait }
    ensures reply { IfOk result (λ reply. IsReply (R.RowStore.state rows.old) (R.RowStore.state rows.new) control.old control.new size client op.now reply.answer) }
    ensures copy { IfOk result (λ reply. reply.copy ≡ reply.answer) }
    ensures own { IfOk result (λ reply. IsOpenAnswer schema.now op.now reply.answer) }
    ensures stays { OnErr result (Stays (R.RowStore.state rows.old) (R.RowStore.state rows.new) control.old control.new client) }
    ensures memory { IsErrOf result RowFault.NoMemory → (R.RowStore.state rows.new).failed ≡ (R.RowStore.state rows.old).failed }
    ensures disk { IsErrOf result RowFault.Disk → IsTrue (R.RowStore.state rows.new).failed }
    ensures durable { StaysDurable (R.RowStore.state rows.old) (R.RowStore.state rows.new) (R.RowStore.left rows.old) (R.RowStore.left rows.new) (R.RowStore.times rows.old) (R.RowStore.times rows.new) }
    ensures since { (R.RowStore.times rows.new).since ≡ (R.RowStore.times rows.old).since }
{
    let decided = decide_lock(alloc, rows, control, client, table, row, exclusive, wait)?;
    let reply = prepare(schema, size, op, decided)?;
    if is_refusal(&reply.answer) {
        end_request(control, client);
        return Ok(reply);
    }
    match &reply.answer {
        Answer::Granted => match grant_lock(alloc, control, client, row, exclusive) {
            Ok(()) => Ok(reply),
            Err(_) => Err(RowFault::NoMemory),
        },
        Answer::Blocked { .. } => {
            match wait_for_lock(alloc, control, client, table, row, exclusive, wait) {
                Ok(()) => Ok(reply),
                Err(_) => Err(RowFault::NoMemory),
            }
        }
        _ => Err(RowFault::NoMemory),
    }
}

/// Answers a Drop.
pub(crate) fn answer_drop<R: RowStore>(
    rows: &mut R,
    control: &mut Control,
    schema: &Schema,
    size: u64,
    client: u16,
    op: &Op,
    row: RowId,
) -> Result<Reply, RowFault>
    requires client { client < 16 }
    requires known { client < length control.old.sessions.items }
    requires few { length control.old.sessions.items ≤ 16 }
    requires sound { IsSound (R.RowStore.state rows.old) control.old }
    requires fine { (R.RowStore.state rows.old).failed ≡ false }
    requires some { IsSome (R.RowStore.state rows.old) control.old }
    requires size { size ≤ MOST + 1 }
    requires frees { control.old.frees + 1 < 2 ^ 64 }
    requires op { op.now ≡ Op.Drop row }
    ensures reply { IfOk result (λ reply. IsReply (R.RowStore.state rows.old) (R.RowStore.state rows.new) control.old control.new size client op.now reply.answer) }
    ensures copy { IfOk result (λ reply. reply.copy ≡ reply.answer) }
    ensures own { IfOk result (λ reply. IsOpenAnswer schema.now op.now reply.answer) }
    ensures stays { OnErr result (Stays (R.RowStore.state rows.old) (R.RowStore.state rows.new) control.old control.new client) }
    ensures only { OnlyDisk result }
    ensures memory { IsErrOf result RowFault.NoMemory → (R.RowStore.state rows.new).failed ≡ (R.RowStore.state rows.old).failed }
    ensures disk { IsErrOf result RowFault.Disk → IsTrue (R.RowStore.state rows.new).failed }
    ensures durable { StaysDurable (R.RowStore.state rows.old) (R.RowStore.state rows.new) (R.RowStore.left rows.old) (R.RowStore.left rows.new) (R.RowStore.times rows.old) (R.RowStore.times rows.new) }
    ensures since { (R.RowStore.times rows.new).since ≡ (R.RowStore.times rows.old).since }
{
    let reply = fit_copies(size, op, Answer::Done, Answer::Done);
    if is_refusal(&reply.answer) {
        end_request(control, client);
        return Ok(reply);
    }
    drop_lock(control, client, row);
    Ok(reply)
}

/// Answers a NextValue of a sequence with this increment.
pub(crate) fn answer_next_value<R: RowStore>(
    rows: &mut R,
    control: &mut Control,
    schema: &Schema,
    size: u64,
    client: u16,
    op: &Op,
    sequence: u16,
    increment: i64,
) -> Result<Reply, RowFault>
    requires client { client < 16 }
    requires known { client < length control.old.sessions.items }
    requires few { length control.old.sessions.items ≤ 16 }
    requires sound { IsSound (R.RowStore.state rows.old) control.old }
    requires fine { (R.RowStore.state rows.old).failed ≡ false }
    requires some { IsSome (R.RowStore.state rows.old) control.old }
    requires size { size ≤ MOST + 1 }
    requires sequence { sequence < length control.old.sequences.items }
    requires increment { increment ≡ increment_of (R.RowStore.state rows.old).schema sequence }
    requires op { op.now ≡ Op.NextValue sequence }
    ensures reply { IfOk result (λ reply. IsReply (R.RowStore.state rows.old) (R.RowStore.state rows.new) control.old control.new size client op.now reply.answer) }
    ensures copy { IfOk result (λ reply. reply.copy ≡ reply.answer) }
    ensures own { IfOk result (λ reply. IsOpenAnswer schema.now op.now reply.answer) }
    ensures stays { OnErr result (Stays (R.RowStore.state rows.old) (R.RowStore.state rows.new) control.old control.new client) }
    ensures memory { IsErrOf result RowFault.NoMemory → (R.RowStore.state rows.new).failed ≡ (R.RowStore.state rows.old).failed }
    ensures disk { IsErrOf result RowFault.Disk → IsTrue (R.RowStore.state rows.new).failed }
    ensures durable { StaysDurable (R.RowStore.state rows.old) (R.RowStore.state rows.new) (R.RowStore.left rows.old) (R.RowStore.left rows.new) (R.RowStore.times rows.old) (R.RowStore.times rows.new) }
    ensures since { (R.RowStore.times rows.new).since ≡ (R.RowStore.times rows.old).since }
{
    let decided = decide_next_value(control, sequence, increment);
    let reply = prepare(schema, size, op, decided)?;
    if is_refusal(&reply.answer) {
        end_request(control, client);
        return Ok(reply);
    }
    match &reply.answer {
        Answer::Value(value) => {
            move_sequence(control, client, sequence, *value);
            Ok(reply)
        }
        _ => Err(RowFault::NoMemory),
    }
}
