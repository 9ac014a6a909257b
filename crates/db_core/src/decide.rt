//! The answer of an operation that is not refused, where the database is open. Nothing changes here.

ghost use Rattle.std.specs.Prelude.{◌≡◌, ◌≢◌, ◌⊎◌, ◌<◌, ◌≤◌, ℕ, length, Some, None, false, OnOk, IfOk, IfSome, MatchOption};
ghost use Rattle.database_protocol.specs.declared.operation.Op.{Op as Asked};
ghost use Rattle.database_meaning.specs.Setting.{Setting};
ghost use Rattle.database_meaning.specs.Steps.{blocked_after, is_success};
ghost use Rattle.database_meaning.specs.State.{State};
ghost use Rattle.database_meaning.specs.Answers.{FromGone};
ghost use Rattle.database_meaning.specs.Waiting.{HasConflict, ListsAll};
ghost use Rattle.record_locks.specs.Requests.{HasConflict as LockedAgainst};
ghost use Rattle.row_store.specs.Rows.{AfterError, IsObservable};
ghost use Rattle.row_store.specs.Questions.{table_at};
ghost use Rattle.db_core.specs.Crashes.{StaysDurable};
ghost use Rattle.db_core.specs.Represents.{FitsOp, IsSound, Represents, blocked_at};
ghost use Rattle.db_core.specs.Waits.{AnswersConflict, IsKeyed, ListsWaits, MeetsReserved, WaitsByKey};

use crate::control::Control;
use abl_base::{Items, RowId};
use database_protocol::{Answer, ClientIds, Op};
use record_locks::KeyWait;
use row_store::{RowFault, RowStore};
use std::alloc::{AllocError, Global};

/// The other clients that have reserved a unique key which the operation enters; None if it enters
/// no row.
fn key_holders<R: RowStore>(
    rows: &mut R,
    client: u16,
    op: &Op,
) -> Result<Option<ClientIds>, RowFault>
    requires { FitsOp (R.RowStore.state rows.old).schema op.now }
    ensures found { IfOk result (λ found. IsObservable (R.RowStore.state rows.old) →
        MatchOption found ((b : ℕ) → ¬ MeetsReserved (R.RowStore.state rows.old) client op.now b)
        (λ holders. ListsAll holders (MeetsReserved (R.RowStore.state rows.old) client op.now))) }
    ensures same { OnOk result (R.RowStore.state rows.new ≡ R.RowStore.state rows.old) }
    ensures err { AfterError (R.RowStore.state rows.old) (R.RowStore.state rows.new) result }
    ensures durable { StaysDurable (R.RowStore.state rows.old) (R.RowStore.state rows.new) (R.RowStore.left rows.old) (R.RowStore.left rows.new) (R.RowStore.times rows.old) (R.RowStore.times rows.new) }
    ensures since { (R.RowStore.times rows.new).since ≡ (R.RowStore.times rows.old).since }
{
    match op {
        Op::Insert { table, values } => Ok(Some(rows.reserved_by(client, *table, None, values)?)),
        Op::Put { table, row, values } => {
            Ok(Some(rows.reserved_by(client, *table, Some(*row), values)?))
        }
        Op::Enter
        | Op::Leave { .. }
        | Op::Back { .. }
        | Op::Next { .. }
        | Op::Get { .. }
        | Op::Lock { .. }
        | Op::Delete { .. }
        | Op::Drop { .. }
        | Op::NextValue { .. }
        | Op::CurrentValue { .. }
        | Op::End => Ok(None),
    }
}

/// The clients that a client waits for by a key.
fn key_wait<R: RowStore>(
    rows: &mut R,
    control: &Control,
    client: u16,
) -> Result<Option<ClientIds>, RowFault>
    requires { IsSound (R.RowStore.state rows.old) control.now }
    ensures found { IfOk result (λ found. IsObservable (R.RowStore.state rows.old) →
        MatchOption found ((b : ℕ) → ¬ WaitsByKey (R.RowStore.state rows.old) client (blocked_at control.now client) b)
        (λ holders. ListsAll holders (WaitsByKey (R.RowStore.state rows.old) client (blocked_at control.now client)))) }
    ensures same { OnOk result (R.RowStore.state rows.new ≡ R.RowStore.state rows.old) }
    ensures err { AfterError (R.RowStore.state rows.old) (R.RowStore.state rows.new) result }
    ensures durable { StaysDurable (R.RowStore.state rows.old) (R.RowStore.state rows.new) (R.RowStore.left rows.old) (R.RowStore.left rows.new) (R.RowStore.times rows.old) (R.RowStore.times rows.new) }
    ensures since { (R.RowStore.times rows.new).since ≡ (R.RowStore.times rows.old).since }
{
    match control.sessions.get(usize::from(client)) {
        None => Ok(None),
        Some(session) => match &session.blocked {
            None => Ok(None),
            Some(blocked) => key_holders(rows, client, &blocked.op),
        },
    }
}

/// What the first clients but this one wait for by keys.
fn list_key_waits<R: RowStore>(
    alloc: Global,
    rows: &mut R,
    control: &Control,
    client: u16,
    count: u16,
) -> Result<Vec<KeyWait>, RowFault>
    requires { IsSound (R.RowStore.state rows.old) control.now }
    ensures found { IfOk result (λ list. IsObservable (R.RowStore.state rows.old) →
        ListsWaits (R.RowStore.state rows.old) control.now client count list.items) }
    ensures same { OnOk result (R.RowStore.state rows.new ≡ R.RowStore.state rows.old) }
    ensures err { AfterError (R.RowStore.state rows.old) (R.RowStore.state rows.new) result }
    ensures durable { StaysDurable (R.RowStore.state rows.old) (R.RowStore.state rows.new) (R.RowStore.left rows.old) (R.RowStore.left rows.new) (R.RowStore.times rows.old) (R.RowStore.times rows.new) }
    ensures since { (R.RowStore.times rows.new).since ≡ (R.RowStore.times rows.old).since }
{
    if count == 0 {
        return Ok(Vec::new(alloc));
    }
    let number = count - 1;
    let mut list = list_key_waits(alloc, rows, control, client, number)?;
    if number == client {
        return Ok(list);
    }
    match key_wait(rows, control, number)? {
        None => Ok(list),
        Some(holders) => {
            let blocked = KeyWait {
                client: number,
                holders,
            };
            match list.push(blocked) {
                Ok(()) => Ok(list),
                Err(_) => Err(RowFault::NoMemory),
            }
        }
    }
}

/// The answer to a Lock with which no lock of another client conflicts.
fn decide_free<R: RowStore>(rows: &mut R, table: u16, row: RowId) -> Result<Answer, RowFault>
    ensures found { IfOk result (λ answer. IsObservable (R.RowStore.state rows.old) →
        ((answer ≡ Answer.Granted) × (table_at (R.RowStore.state rows.old).rows row.0 ≡ Some table))
        ⊎ ((answer ≡ Answer.Gone) × (table_at (R.RowStore.state rows.old).rows row.0 ≢ Some table))) }
    ensures same { OnOk result (R.RowStore.state rows.new ≡ R.RowStore.state rows.old) }
    ensures err { AfterError (R.RowStore.state rows.old) (R.RowStore.state rows.new) result }
    ensures durable { StaysDurable (R.RowStore.state rows.old) (R.RowStore.state rows.new) (R.RowStore.left rows.old) (R.RowStore.left rows.new) (R.RowStore.times rows.old) (R.RowStore.times rows.new) }
    ensures since { (R.RowStore.times rows.new).since ≡ (R.RowStore.times rows.old).since }
{
    match rows.table(row)? {
        None => Ok(Answer::Gone),
        Some(found) => {
            if found == table {
                Ok(Answer::Granted)
            } else {
                Ok(Answer::Gone)
            }
        }
    }
}

/// The answer to a Lock. It changes nothing; an error NoMemory means out of memory.
pub fn decide_lock<R: RowStore>(
    alloc: Global,
    rows: &mut R,
    control: &Control,
    client: u16,
    table: u16,
    row: RowId,
    exclusive: bool,
    wait: bool,
) -> Result<Answer, RowFault>
    requires sound { IsSound (R.RowStore.state rows.old) control.now }
    requires few { length control.now.sessions.items ≤ 16 }
    ensures answer { IfOk result (λ answer. (f : Setting) (s : State) →
        Represents f (R.RowStore.state rows.old) control.now s → IsObservable (R.RowStore.state rows.old) →
        FromGone f s client (Op.Lock table row exclusive wait) answer) }
    ensures granted { IfOk result (λ answer. answer ≡ Answer.Granted →
        ¬ LockedAgainst control.now.locks client row.0 exclusive × (IsObservable (R.RowStore.state rows.old) → table_at (R.RowStore.state rows.old).rows row.0 ≡ Some table)) }
    ensures same { OnOk result (R.RowStore.state rows.new ≡ R.RowStore.state rows.old) }
    ensures err { AfterError (R.RowStore.state rows.old) (R.RowStore.state rows.new) result }
    ensures durable { StaysDurable (R.RowStore.state rows.old) (R.RowStore.state rows.new) (R.RowStore.left rows.old) (R.RowStore.left rows.new) (R.RowStore.times rows.old) (R.RowStore.times rows.new) }
    ensures since { (R.RowStore.times rows.new).since ≡ (R.RowStore.times rows.old).since }
{
    let against = match control.locks.against(alloc, client, row, exclusive) {
        Ok(against) => against,
        Err(_) => return Err(RowFault::NoMemory),
    };
    if against.len() == 0 {
        return decide_free(rows, table, row);
    }
    if !wait {
        return Ok(Answer::Busy { holders: against });
    }
    let count = control.sessions.len() as u16;
    let waits = Items::from_vec(list_key_waits(alloc, rows, control, client, count)?);
    match control.locks.would_cycle(client, &against, &waits) {
        Err(_) => Err(RowFault::NoMemory),
        Ok(None) => Ok(Answer::Blocked { holders: against }),
        Ok(Some(cycle)) => Ok(Answer::Deadlock { cycle }),
    }
}

/// The answer to an Insert or Put with which a reserved key of another client conflicts; None where
/// none does. It changes nothing.
pub fn decide_keys<R: RowStore>(
    alloc: Global,
    rows: &mut R,
    control: &Control,
    client: u16,
    op: &Op,
) -> Result<Option<Answer>, RowFault>
    requires sound { IsSound (R.RowStore.state rows.old) control.now }
    requires few { length control.now.sessions.items ≤ 16 }
    requires brings { IsKeyed op.now }
    requires fits { FitsOp (R.RowStore.state rows.old).schema op.now }
    ensures answer { IfOk result (λ found. (f : Setting) (s : State) →
        Represents f (R.RowStore.state rows.old) control.now s → IsObservable (R.RowStore.state rows.old) →
        MatchOption found (¬ HasConflict f s client op.now) (AnswersConflict f s client op.now)) }
    ensures refusal { IfOk result (λ found. IfSome found (λ answer. is_success answer ≡ false)) }
    ensures same { OnOk result (R.RowStore.state rows.new ≡ R.RowStore.state rows.old) }
    ensures err { AfterError (R.RowStore.state rows.old) (R.RowStore.state rows.new) result }
    ensures durable { StaysDurable (R.RowStore.state rows.old) (R.RowStore.state rows.new) (R.RowStore.left rows.old) (R.RowStore.left rows.new) (R.RowStore.times rows.old) (R.RowStore.times rows.new) }
    ensures since { (R.RowStore.times rows.new).since ≡ (R.RowStore.times rows.old).since }
{
    let against = match key_holders(rows, client, op)? {
        Some(against) => against,
        None => return Ok(None),
    };
    if against.len() == 0 {
        return Ok(None);
    }
    let count = control.sessions.len() as u16;
    let waits = Items::from_vec(list_key_waits(alloc, rows, control, client, count)?);
    match control.locks.would_cycle(client, &against, &waits) {
        Err(_) => Err(RowFault::NoMemory),
        Ok(None) => Ok(Some(Answer::Blocked { holders: against })),
        Ok(Some(cycle)) => Ok(Some(Answer::Deadlock { cycle })),
    }
}

/// The answer to a Get. It changes nothing.
pub fn decide_get<R: RowStore>(
    rows: &mut R,
    control: &Control,
    table: u16,
    row: RowId,
) -> Result<Answer, RowFault>
    requires sound { IsSound (R.RowStore.state rows.old) control.now }
    ensures answer { IfOk result (λ answer. (f : Setting) (s : State) (c : ℕ) →
        Represents f (R.RowStore.state rows.old) control.now s → IsObservable (R.RowStore.state rows.old) →
        FromGone f s c (Op.Get table row) answer) }
    ensures quiet { IfOk result (λ answer. (s : State) (c : ℕ) (op : Asked) → blocked_after s c op answer ≡ None) }
    ensures same { OnOk result (R.RowStore.state rows.new ≡ R.RowStore.state rows.old) }
    ensures err { AfterError (R.RowStore.state rows.old) (R.RowStore.state rows.new) result }
    ensures durable { StaysDurable (R.RowStore.state rows.old) (R.RowStore.state rows.new) (R.RowStore.left rows.old) (R.RowStore.left rows.new) (R.RowStore.times rows.old) (R.RowStore.times rows.new) }
    ensures since { (R.RowStore.times rows.new).since ≡ (R.RowStore.times rows.old).since }
{
    match rows.get(table, row)? {
        None => Ok(Answer::Gone),
        Some(values) => Ok(Answer::Row(values)),
    }
}
