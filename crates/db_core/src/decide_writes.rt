//! The answers to an Insert, Put or Delete. Nothing changes here.

ghost use Rattle.std.specs.Prelude.{◌≡◌, ◌<◌, ◌≤◌, ◌↔◌, ℕ, Some, None, false, IfOk, IfSome, IsTrue, MatchOption, OnOk, length};
ghost use Rattle.abl_base.specs.declared.limits.TheConstants.{MAX_ROW_BYTES};
ghost use Rattle.database_meaning.specs.Answers.{FromGone, entered, own_row};
ghost use Rattle.database_meaning.specs.Setting.{FitsTable, HasTable, Setting, row_size};
ghost use Rattle.database_meaning.specs.State.{State};
ghost use Rattle.database_meaning.specs.Steps.{is_success};
ghost use Rattle.database_meaning.specs.Waiting.{row_in};
ghost use Rattle.row_store.specs.Rows.{AfterError, IsFree, IsObservable};
ghost use Rattle.row_store.specs.Questions.{IsLongKey, table_at};
ghost use Rattle.db_core.specs.Crashes.{StaysDurable};
ghost use Rattle.db_core.specs.Represents.{FitsOp, IsSound, Represents};
ghost use Rattle.db_core.specs.Waits.{IsKeyed};
ghost use Rattle.db_core.specs.Writes.{AnswersKeys};

use crate::control::Control;
use crate::decide::decide_keys;
use crate::room::{decide_removal, decide_room, fragments_of};
use abl_base::{Row, RowId};
use database_protocol::{Answer, Op};
use row_store::{RowFault, RowStore};
use std::alloc::Global;

/// The least index in which the key of these values is too long. The store looks at no row for it, so
/// that an error means out of memory.
fn find_long_key<R: RowStore>(rows: &R, table: u16, values: &Row) -> Result<Option<u16>, RowFault>
    requires table { HasTable (R.RowStore.state rows.now).schema table }
    requires fits { FitsTable (R.RowStore.state rows.now).schema table values.now }
    ensures found { IfOk result (λ found. MatchOption found ((index : ℕ) → ¬ IsLongKey (R.RowStore.state rows.now).schema table values.now index)
        (λ index. IsLongKey (R.RowStore.state rows.now).schema table values.now index)) }
    ensures err { AfterError (R.RowStore.state rows.now) (R.RowStore.state rows.now) result }
{
    match rows.long_key(table, values) {
        Ok(found) => Ok(found),
        Err(_) => Err(RowFault::NoMemory),
    }
}

/// Whether there is a row of the table with this identity.
fn is_row_of<R: RowStore>(rows: &mut R, table: u16, row: RowId) -> Result<bool, RowFault>
    ensures found { IfOk result (λ there. IsObservable (R.RowStore.state rows.old) → (IsTrue there ↔ (table_at (R.RowStore.state rows.old).rows row.0 ≡ Some table))) }
    ensures same { OnOk result (R.RowStore.state rows.new ≡ R.RowStore.state rows.old) }
    ensures err { AfterError (R.RowStore.state rows.old) (R.RowStore.state rows.new) result }
    ensures durable { StaysDurable (R.RowStore.state rows.old) (R.RowStore.state rows.new) (R.RowStore.left rows.old) (R.RowStore.left rows.new) (R.RowStore.times rows.old) (R.RowStore.times rows.new) }
    ensures since { (R.RowStore.times rows.new).since ≡ (R.RowStore.times rows.old).since }
{
    match rows.table(row)? {
        None => Ok(false),
        Some(found) => Ok(found == table),
    }
}

/// The answer of the rows KeyTooLong to Duplicate of the table to an operation that enters these
/// values, in place of a row or as a new one; None where none of them applies.
fn decide_entry<R: RowStore>(
    alloc: Global,
    rows: &mut R,
    control: &Control,
    client: u16,
    op: &Op,
    table: u16,
    replaced: Option<RowId>,
    values: &Row,
) -> Result<Option<Answer>, RowFault>
    requires sound { IsSound (R.RowStore.state rows.old) control.now }
    requires few { length control.now.sessions.items ≤ 16 }
    requires keyed { IsKeyed op.now }
    requires entered { entered op.now ≡ row_in table values.now }
    requires own { own_row op.now ≡ replaced }
    requires op_fits { FitsOp (R.RowStore.state rows.old).schema op.now }
    requires table { HasTable (R.RowStore.state rows.old).schema table }
    requires fits { FitsTable (R.RowStore.state rows.old).schema table values.now }
    ensures answer { IfOk result (λ found. (f : Setting) (s : State) →
        Represents f (R.RowStore.state rows.old) control.now s → IsObservable (R.RowStore.state rows.old) →
        AnswersKeys f s client op.now found) }
    ensures refusal { IfOk result (λ found. IfSome found (λ answer. is_success answer ≡ false)) }
    ensures same { OnOk result (R.RowStore.state rows.new ≡ R.RowStore.state rows.old) }
    ensures err { AfterError (R.RowStore.state rows.old) (R.RowStore.state rows.new) result }
    ensures durable { StaysDurable (R.RowStore.state rows.old) (R.RowStore.state rows.new) (R.RowStore.left rows.old) (R.RowStore.left rows.new) (R.RowStore.times rows.old) (R.RowStore.times rows.new) }
    ensures since { (R.RowStore.times rows.new).since ≡ (R.RowStore.times rows.old).since }
{
    if let Some(index) = find_long_key(rows, table, values)? {
        return Ok(Some(Answer::KeyTooLong { index }));
    }
    if let Some(answer) = decide_keys(alloc, rows, control, client, op)? {
        return Ok(Some(answer));
    }
    match rows.duplicate(table, replaced, values)? {
        None => Ok(None),
        Some(duplicate) => Ok(Some(Answer::Duplicate {
            index: duplicate.index,
            row: duplicate.row,
        })),
    }
}

/// The answer to an Insert. Inserted carries a free identity.
pub fn decide_insert<R: RowStore>(
    alloc: Global,
    rows: &mut R,
    control: &Control,
    client: u16,
    op: &Op,
    table: u16,
    values: &Row,
) -> Result<Answer, RowFault>
    requires client { client < 16 }
    requires sound { IsSound (R.RowStore.state rows.old) control.now }
    requires few { length control.now.sessions.items ≤ 16 }
    requires op { op.now ≡ Op.Insert table values.now }
    requires table { HasTable (R.RowStore.state rows.old).schema table }
    requires fits { FitsTable (R.RowStore.state rows.old).schema table values.now }
    requires size { row_size values.now ≤ MAX_ROW_BYTES }
    ensures answer { IfOk result (λ answer. (f : Setting) (s : State) →
        Represents f (R.RowStore.state rows.old) control.now s → IsObservable (R.RowStore.state rows.old) →
        FromGone f s client op.now answer) }
    ensures free { IfOk result (λ answer. (row : RowId) → answer ≡ Answer.Inserted row → IsFree (R.RowStore.state rows.old) row.0) }
    ensures same { OnOk result (R.RowStore.state rows.new ≡ R.RowStore.state rows.old) }
    ensures err { AfterError (R.RowStore.state rows.old) (R.RowStore.state rows.new) result }
    ensures durable { StaysDurable (R.RowStore.state rows.old) (R.RowStore.state rows.new) (R.RowStore.left rows.old) (R.RowStore.left rows.new) (R.RowStore.times rows.old) (R.RowStore.times rows.new) }
    ensures since { (R.RowStore.times rows.new).since ≡ (R.RowStore.times rows.old).since }
{
    if let Some(answer) = decide_entry(alloc, rows, control, client, op, table, None, values)? {
        return Ok(answer);
    }
    if let Some(answer) = decide_room(rows, control, client, fragments_of(values), 0) {
        return Ok(answer);
    }
    let row = rows.fresh()?;
    Ok(Answer::Inserted { row })
}

/// The answer to a Put.
pub fn decide_put<R: RowStore>(
    alloc: Global,
    rows: &mut R,
    control: &Control,
    client: u16,
    op: &Op,
    table: u16,
    row: RowId,
    values: &Row,
) -> Result<Answer, RowFault>
    requires client { client < 16 }
    requires sound { IsSound (R.RowStore.state rows.old) control.now }
    requires few { length control.now.sessions.items ≤ 16 }
    requires op { op.now ≡ Op.Put table row values.now }
    requires table { HasTable (R.RowStore.state rows.old).schema table }
    requires fits { FitsTable (R.RowStore.state rows.old).schema table values.now }
    requires size { row_size values.now ≤ MAX_ROW_BYTES }
    ensures answer { IfOk result (λ answer. (f : Setting) (s : State) →
        Represents f (R.RowStore.state rows.old) control.now s → IsObservable (R.RowStore.state rows.old) →
        FromGone f s client op.now answer) }
    ensures there { IfOk result (λ answer. answer ≡ Answer.Done → IsObservable (R.RowStore.state rows.old) → table_at (R.RowStore.state rows.old).rows row.0 ≡ Some table) }
    ensures same { OnOk result (R.RowStore.state rows.new ≡ R.RowStore.state rows.old) }
    ensures err { AfterError (R.RowStore.state rows.old) (R.RowStore.state rows.new) result }
    ensures durable { StaysDurable (R.RowStore.state rows.old) (R.RowStore.state rows.new) (R.RowStore.left rows.old) (R.RowStore.left rows.new) (R.RowStore.times rows.old) (R.RowStore.times rows.new) }
    ensures since { (R.RowStore.times rows.new).since ≡ (R.RowStore.times rows.old).since }
{
    let there = is_row_of(rows, table, row)?;
    if !there {
        return Ok(Answer::Gone);
    }
    if let Some(answer) = decide_entry(
        alloc,
        rows,
        control,
        client,
        op,
        table,
        Some(row),
        values,
    )? {
        return Ok(answer);
    }
    let old = rows.fragments(row)?;
    match decide_room(rows, control, client, fragments_of(values), u64::from(old)) {
        None => Ok(Answer::Done),
        Some(answer) => Ok(answer),
    }
}

/// The answer to a Delete.
pub fn decide_delete<R: RowStore>(
    rows: &mut R,
    control: &Control,
    client: u16,
    table: u16,
    row: RowId,
) -> Result<Answer, RowFault>
    requires client { client < 16 }
    requires sound { IsSound (R.RowStore.state rows.old) control.now }
    ensures answer { IfOk result (λ answer. (f : Setting) (s : State) →
        Represents f (R.RowStore.state rows.old) control.now s → IsObservable (R.RowStore.state rows.old) →
        FromGone f s client (Op.Delete table row) answer) }
    ensures there { IfOk result (λ answer. answer ≡ Answer.Done → IsObservable (R.RowStore.state rows.old) → table_at (R.RowStore.state rows.old).rows row.0 ≡ Some table) }
    ensures same { OnOk result (R.RowStore.state rows.new ≡ R.RowStore.state rows.old) }
    ensures err { AfterError (R.RowStore.state rows.old) (R.RowStore.state rows.new) result }
    ensures durable { StaysDurable (R.RowStore.state rows.old) (R.RowStore.state rows.new) (R.RowStore.left rows.old) (R.RowStore.left rows.new) (R.RowStore.times rows.old) (R.RowStore.times rows.new) }
    ensures since { (R.RowStore.times rows.new).since ≡ (R.RowStore.times rows.old).since }
{
    let there = is_row_of(rows, table, row)?;
    if !there {
        return Ok(Answer::Gone);
    }
    let old = rows.fragments(row)?;
    match decide_removal(rows, control, client, u64::from(old)) {
        None => Ok(Answer::Done),
        Some(answer) => Ok(answer),
    }
}
