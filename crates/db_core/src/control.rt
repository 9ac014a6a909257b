//! What the machine keeps beside the rows, and its changes alone.

ghost use Rattle.std.specs.Prelude.{◌≡◌, ◌<◌, ◌+◌, ◌-◌, ◌^◌, ◌||◌, ◌↔◌, ◌++◌, ◌∷◌, [], ℕ, Some, None, true, IsTrue, IsSome, OnOk, OnErr, if◌then◌else◌, is_some, length, slice_set, take};
ghost use Rattle.record_locks.specs.Settled.{IsFreed, has_row};
ghost use Rattle.record_locks.specs.Table.{lock_of};
ghost use Rattle.db_core.specs.Moves.{BacksTo, Drops, Ends, EndsWait, Grants, OnlyMarks, SameControl, Sets, Settles, Waits};
ghost use Rattle.db_core.specs.Represents.{marks_at};

use abl_base::RowId;
use database_meaning::BlockedRequest;
use database_protocol::{Op, RowIds};
use record_locks::{BlockedLock, Locks};
use std::alloc::{AllocError, Global};

/// A client: for each open level the number of its changes at the level's Enter, the outermost level
/// first; and the request that it is blocked at.
#[derive(Drop)]
pub struct Session {
    pub marks: Vec<usize>,
    pub blocked: Option<BlockedRequest>,
}

/// Locks, clients, sequence values, and the number of steps that freed a lock or a reserved key.
#[derive(Drop)]
pub struct Control {
    pub locks: Locks,
    pub sessions: Vec<Session>,
    pub sequences: Vec<i64>,
    pub frees: u64,
}

/// Ends the client's blocked request.
pub fn end_wait(control: &mut Control, client: u16)
    requires { client < length control.old.sessions.items }
    ensures { EndsWait control.old client control.new }
{
    let session = &mut control.sessions[usize::from(client)];
    session.blocked = None;
    control.locks.end_wait(client);
}

/// Grants the client the lock and ends its blocked request. An error means out of memory.
pub(crate) fn grant(
    alloc: Global,
    control: &mut Control,
    client: u16,
    row: RowId,
    exclusive: bool,
) -> Result<(), AllocError>
    requires { client < length control.old.sessions.items }
    ensures ok { OnOk result (Grants control.old client row.0 exclusive control.new) }
    ensures err { OnErr result (SameControl control.old control.new) }
{
    control.locks.grant(alloc, client, row, exclusive)?;
    let session = &mut control.sessions[usize::from(client)];
    session.blocked = None;
    Ok(())
}

/// Blocks the client at a Lock. An error means out of memory.
pub(crate) fn block_at_lock(
    alloc: Global,
    control: &mut Control,
    client: u16,
    table: u16,
    row: RowId,
    exclusive: bool,
    wait: bool,
) -> Result<(), AllocError>
    requires { client < length control.old.sessions.items }
    ensures ok { OnOk result (Waits control.old client (record { op = Op.Lock table row exclusive wait; frees = control.old.frees }) (Some (record { row = row; exclusive = exclusive })) control.new) }
    ensures err { OnErr result (SameControl control.old control.new) }
{
    control
        .locks
        .block(alloc, client, BlockedLock { row, exclusive })?;
    let session = &mut control.sessions[usize::from(client)];
    session.blocked = Some(BlockedRequest {
        op: Op::Lock {
            table,
            row,
            exclusive,
            wait,
        },
        frees: control.frees,
    });
    Ok(())
}

/// Blocks the client at an Insert or Put, for a reserved key.
pub(crate) fn block_at_key(control: &mut Control, client: u16, op: Op)
    requires { client < length control.old.sessions.items }
    ensures { Waits control.old client (record { op = op; frees = control.old.frees }) None control.new }
{
    control.locks.end_wait(client);
    let frees = control.frees;
    let session = &mut control.sessions[usize::from(client)];
    session.blocked = Some(BlockedRequest { op, frees });
}

/// Closes the client's deeper levels, and ends its blocked request.
pub(crate) fn back_to_level(control: &mut Control, client: u16, depth: u32)
    requires { client < length control.old.sessions.items }
    ensures { BacksTo control.old client depth control.new }
{
    let session = &mut control.sessions[usize::from(client)];
    session.marks.truncate(depth as usize);
    session.blocked = None;
    control.locks.end_wait(client);
}

/// Ends the client's transaction: its locks on these rows become share locks, and its other locks
/// go. Returns whether that freed a lock.
pub(crate) fn settle(control: &mut Control, client: u16, staying: &RowIds) -> bool
    requires { client < length control.old.sessions.items }
    ensures settles { Settles control.old client staying.now control.new }
    ensures frees { control.new.frees ≡ control.old.frees }
    ensures freed { IsTrue result ↔ ((row : ℕ) × IsFreed (has_row staying.now row) (lock_of control.old.locks client row)) }
{
    let freed = control.locks.end_transaction(client, staying);
    control.locks.end_wait(client);
    let session = &mut control.sessions[usize::from(client)];
    session.marks.clear();
    session.blocked = None;
    freed
}

/// Adds a mark to those of the client. An error means out of memory.
pub(crate) fn push_mark(control: &mut Control, client: u16, mark: usize) -> Result<(), AllocError>
    requires { client < length control.old.sessions.items }
    ensures ok { OnOk result (OnlyMarks control.old client (marks_at control.old client ++ mark ∷ []) control.new) }
    ensures err { OnErr result (SameControl control.old control.new) }
{
    let session = &mut control.sessions[usize::from(client)];
    match session.marks.push(mark) {
        Ok(()) => Ok(()),
        Err(_) => Err(AllocError),
    }
}

/// Takes the client's last mark away.
pub(crate) fn pop_mark(control: &mut Control, client: u16)
    requires { client < length control.old.sessions.items }
    ensures { OnlyMarks control.old client (take (length (marks_at control.old client) - 1) (marks_at control.old client)) control.new }
{
    let session = &mut control.sessions[usize::from(client)];
    let _last = session.marks.pop();
}

/// Removes the client's lock on the row and ends its blocked request. Returns whether there was one.
pub(crate) fn release(control: &mut Control, client: u16, row: RowId) -> bool
    requires { client < length control.old.sessions.items }
    ensures drops { Drops control.old client row.0 control.new }
    ensures frees { control.new.frees ≡ control.old.frees }
    ensures freed { result ≡ is_some (lock_of control.old.locks client row.0) }
{
    let freed = control.locks.release(client, row);
    end_wait(control, client);
    freed
}

/// Removes all locks, levels and the blocked request of the client. Returns whether that freed a
/// lock.
pub(crate) fn end_client(control: &mut Control, client: u16) -> bool
    requires { client < length control.old.sessions.items }
    ensures ends { Ends control.old client control.new }
    ensures frees { control.new.frees ≡ control.old.frees }
    ensures freed { IsTrue result ↔ ((row : ℕ) × IsSome (lock_of control.old.locks client row)) }
{
    let freed = control.locks.end(client);
    let session = &mut control.sessions[usize::from(client)];
    session.marks.clear();
    session.blocked = None;
    freed
}

/// Counts a step, if it freed a reserved key or a lock.
pub(crate) fn count_frees(control: &mut Control, reserved: bool, freed: bool)
    requires { control.old.frees + 1 < 2 ^ 64 }
    ensures { control.new ≡ record control.old { frees = if reserved || freed then control.old.frees + 1 else control.old.frees } }
{
    if reserved || freed {
        control.frees += 1;
    }
}

/// Sets a sequence to this value, and ends the client's blocked request.
pub(crate) fn set_sequence(control: &mut Control, client: u16, sequence: u16, value: i64)
    requires known { client < length control.old.sessions.items }
    requires sequence { sequence < length control.old.sequences.items }
    ensures { Sets control.old client (slice_set control.old.sequences.items sequence value) control.new }
{
    control.sequences[usize::from(sequence)] = value;
    let session = &mut control.sessions[usize::from(client)];
    session.blocked = None;
    control.locks.end_wait(client);
}

/// The number of levels that the client has open.
pub fn depth(control: &Control, client: u16) -> usize
    ensures { result ≡ length (marks_at control.now client) }
{
    match control.sessions.get(usize::from(client)) {
        None => 0,
        Some(session) => session.marks.len(),
    }
}
