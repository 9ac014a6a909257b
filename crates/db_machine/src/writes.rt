//! The answers to Insert, Put and Delete.

ghost use Rattle.std.specs.Prelude.{◌≡◌, ◌<◌, ◌≤◌, ◌+◌, ℕ, List, IfErr, IfOk, IsErrOf, None, OnErr, OnOk, length, false, IsTrue};
ghost use Rattle.abl_base.specs.declared.limits.TheConstants.{MAX_ROW_BYTES, MAX_TRACE_BYTES as MOST};
ghost use Rattle.database_meaning.specs.Setting.{FitsTable, HasTable, Setting, row_size};
ghost use Rattle.database_meaning.specs.State.{HoldsExclusively, State};
ghost use Rattle.database_meaning.specs.Steps.{after};
ghost use Rattle.row_store.specs.Rows.{RowState};
ghost use Rattle.db_core.specs.Crashes.{StaysDurable};
ghost use Rattle.db_core.specs.Keeps.{SameCounts, Stays};
ghost use Rattle.db_core.specs.Known.{known};
ghost use Rattle.db_core.specs.Represents.{FitsOp, IsSound, Represents, lock_asked, marks_at};
ghost use Rattle.db_machine.specs.Machine.{IsSome};
ghost use Rattle.db_machine.specs.OwnAnswers.{IsOpenAnswer};
ghost use Rattle.db_machine.specs.Replies.{IsReply};

use crate::replies::{Reply, is_refusal, prepare};
use abl_base::{Row, RowId};
use abl_values::Schema;
use database_protocol::{Answer, Op};
use db_core::Control;
use db_core::answers::end_request;
use db_core::decide_writes::{decide_delete, decide_insert, decide_put};
use db_core::laws::held_rows_are_untouched_by_others;
use db_core::locks::wait_for_key;
use db_core::writes::{delete, insert, put};
use row_store::{RowFault, RowStore};
use std::alloc::Global;

/// Blocks the client at an Insert or Put. An error means out of memory.
fn wait_at(control: &mut Control, client: u16, op: &Op) -> Result<(), RowFault>
    requires known { client < length control.old.sessions.items }
    requires keyed { lock_asked op.now ≡ None }
    ensures represents { OnOk result ((f : Setting) (rows : RowState) (s : State) (holders : List ℕ) → Represents f rows control.old s →
        Represents f rows control.new (after f s client op.now (Answer.Blocked holders))) }
    ensures sound { OnOk result ((rows : RowState) → FitsOp rows.schema op.now → IsSound rows control.old → IsSound rows control.new) }
    ensures counts { OnOk result (SameCounts control.old control.new) }
    ensures err { OnErr result (control.new ≡ control.old) }
    ensures memory { IfErr result (λ error. error ≡ RowFault.NoMemory) }
{
    match op.copy() {
        Ok(copy) => {
            wait_for_key(control, client, copy);
            Ok(())
        }
        Err(_) => Err(RowFault::NoMemory),
    }
}

/// Answers an Insert.
pub(crate) fn answer_insert<R: RowStore>(
    alloc: Global,
    rows: &mut R,
    control: &mut Control,
    schema: &Schema,
    size: u64,
    client: u16,
    op: &Op,
    table: u16,
    values: &Row,
) -> Result<Reply, RowFault>
    requires client { client < 16 }
    requires known { client < length control.old.sessions.items }
    requires few { length control.old.sessions.items ≤ 16 }
    requires sound { IsSound (R.RowStore.state rows.old) control.old }
    requires fine { (R.RowStore.state rows.old).failed ≡ false }
    requires some { IsSome (R.RowStore.state rows.old) control.old }
    requires size { size ≤ MOST + 1 }
    requires level { 0 < length (marks_at control.old client) }
    requires table { HasTable (R.RowStore.state rows.old).schema table }
    requires fits { FitsTable (R.RowStore.state rows.old).schema table values.now }
    requires bytes { row_size values.now ≤ MAX_ROW_BYTES }
    requires op { op.now ≡ Op.Insert table values.now }
    ensures reply { IfOk result (λ reply. IsReply (R.RowStore.state rows.old) (R.RowStore.state rows.new) control.old control.new size client op.now reply.answer) }
    ensures copy { IfOk result (λ reply. reply.copy ≡ reply.answer) }
    ensures own { IfOk result (λ reply. IsOpenAnswer schema.now op.now reply.answer) }
    ensures stays { OnErr result (Stays (R.RowStore.state rows.old) (R.RowStore.state rows.new) control.old control.new client) }
    ensures memory { IsErrOf result RowFault.NoMemory → (R.RowStore.state rows.new).failed ≡ (R.RowStore.state rows.old).failed }
    ensures disk { IsErrOf result RowFault.Disk → IsTrue (R.RowStore.state rows.new).failed }
    ensures durable { StaysDurable (R.RowStore.state rows.old) (R.RowStore.state rows.new) (R.RowStore.left rows.old) (R.RowStore.left rows.new) (R.RowStore.times rows.old) (R.RowStore.times rows.new) }
    ensures since { (R.RowStore.times rows.new).since ≡ (R.RowStore.times rows.old).since }
{
    let decided = decide_insert(alloc, rows, control, client, op, table, values)?;
    let reply = prepare(schema, size, op, decided)?;
    if is_refusal(&reply.answer) {
        end_request(control, client);
        return Ok(reply);
    }
    match &reply.answer {
        Answer::Inserted { row } => {
            insert(alloc, rows, control, client, *row, table, values)?;
            Ok(reply)
        }
        Answer::Blocked { .. } => {
            wait_at(control, client, op)?;
            Ok(reply)
        }
        _ => Err(RowFault::NoMemory),
    }
}

/// Answers a Put.
pub(crate) fn answer_put<R: RowStore>(
    alloc: Global,
    rows: &mut R,
    control: &mut Control,
    schema: &Schema,
    size: u64,
    client: u16,
    op: &Op,
    table: u16,
    row: RowId,
    values: &Row,
) -> Result<Reply, RowFault>
    requires client { client < 16 }
    requires known { client < length control.old.sessions.items }
    requires few { length control.old.sessions.items ≤ 16 }
    requires sound { IsSound (R.RowStore.state rows.old) control.old }
    requires fine { (R.RowStore.state rows.old).failed ≡ false }
    requires size { size ≤ MOST + 1 }
    requires level { 0 < length (marks_at control.old client) }
    requires table { HasTable (R.RowStore.state rows.old).schema table }
    requires fits { FitsTable (R.RowStore.state rows.old).schema table values.now }
    requires bytes { row_size values.now ≤ MAX_ROW_BYTES }
    requires held { HoldsExclusively (known control.old) client row.0 }
    requires some { IsSome (R.RowStore.state rows.old) control.old }
    requires op { op.now ≡ Op.Put table row values.now }
    ensures reply { IfOk result (λ reply. IsReply (R.RowStore.state rows.old) (R.RowStore.state rows.new) control.old control.new size client op.now reply.answer) }
    ensures copy { IfOk result (λ reply. reply.copy ≡ reply.answer) }
    ensures own { IfOk result (λ reply. IsOpenAnswer schema.now op.now reply.answer) }
    ensures stays { OnErr result (Stays (R.RowStore.state rows.old) (R.RowStore.state rows.new) control.old control.new client) }
    ensures memory { IsErrOf result RowFault.NoMemory → (R.RowStore.state rows.new).failed ≡ (R.RowStore.state rows.old).failed }
    ensures disk { IsErrOf result RowFault.Disk → IsTrue (R.RowStore.state rows.new).failed }
    ensures durable { StaysDurable (R.RowStore.state rows.old) (R.RowStore.state rows.new) (R.RowStore.left rows.old) (R.RowStore.left rows.new) (R.RowStore.times rows.old) (R.RowStore.times rows.new) }
    ensures since { (R.RowStore.times rows.new).since ≡ (R.RowStore.times rows.old).since }
{
    let decided = decide_put(alloc, rows, control, client, op, table, row, values)?;
    let reply = prepare(schema, size, op, decided)?;
    if is_refusal(&reply.answer) {
        end_request(control, client);
        return Ok(reply);
    }
    held_rows_are_untouched_by_others();
    match &reply.answer {
        Answer::Done => {
            put(rows, control, client, table, row, values)?;
            Ok(reply)
        }
        Answer::Blocked { .. } => {
            wait_at(control, client, op)?;
            Ok(reply)
        }
        _ => Err(RowFault::NoMemory),
    }
}

/// Answers a Delete.
pub(crate) fn answer_delete<R: RowStore>(
    rows: &mut R,
    control: &mut Control,
    schema: &Schema,
    size: u64,
    client: u16,
    op: &Op,
    table: u16,
    row: RowId,
) -> Result<Reply, RowFault>
    requires client { client < 16 }
    requires known { client < length control.old.sessions.items }
    requires few { length control.old.sessions.items ≤ 16 }
    requires sound { IsSound (R.RowStore.state rows.old) control.old }
    requires fine { (R.RowStore.state rows.old).failed ≡ false }
    requires size { size ≤ MOST + 1 }
    requires level { 0 < length (marks_at control.old client) }
    requires held { HoldsExclusively (known control.old) client row.0 }
    requires some { IsSome (R.RowStore.state rows.old) control.old }
    requires op { op.now ≡ Op.Delete table row }
    ensures reply { IfOk result (λ reply. IsReply (R.RowStore.state rows.old) (R.RowStore.state rows.new) control.old control.new size client op.now reply.answer) }
    ensures copy { IfOk result (λ reply. reply.copy ≡ reply.answer) }
    ensures own { IfOk result (λ reply. IsOpenAnswer schema.now op.now reply.answer) }
    ensures stays { OnErr result (Stays (R.RowStore.state rows.old) (R.RowStore.state rows.new) control.old control.new client) }
    ensures memory { IsErrOf result RowFault.NoMemory → (R.RowStore.state rows.new).failed ≡ (R.RowStore.state rows.old).failed }
    ensures disk { IsErrOf result RowFault.Disk → IsTrue (R.RowStore.state rows.new).failed }
    ensures durable { StaysDurable (R.RowStore.state rows.old) (R.RowStore.state rows.new) (R.RowStore.left rows.old) (R.RowStore.left rows.new) (R.RowStore.times rows.old) (R.RowStore.times rows.new) }
    ensures since { (R.RowStore.times rows.new).since ≡ (R.RowStore.times rows.old).since }
{
    let decided = decide_delete(rows, control, client, table, row)?;
    let reply = prepare(schema, size, op, decided)?;
    if is_refusal(&reply.answer) {
        end_request(control, client);
        return Ok(reply);
    }
    held_rows_are_untouched_by_others();
    match &reply.answer {
        Answer::Done => {
            delete(rows, control, client, table, row)?;
            Ok(reply)
        }
        _ => Err(RowFault::NoMemory),
    }
}
