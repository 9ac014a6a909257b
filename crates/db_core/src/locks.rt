//! Locks that are granted, waited for or dropped, and blocked requests.

ghost use Rattle.std.specs.Prelude.{◌≡◌, ◌≢◌, ◌<◌, ◌+◌, ◌^◌, ℕ, Bool, List, None, length, true, OnOk, OnErr};
ghost use Rattle.database_meaning.specs.Setting.{Setting};
ghost use Rattle.database_meaning.specs.State.{State};
ghost use Rattle.database_meaning.specs.Steps.{after};
ghost use Rattle.record_locks.specs.Requests.{HasConflict};
ghost use Rattle.row_store.specs.Rows.{IsConsistent, IsObservable, RowState};
ghost use Rattle.db_core.specs.Keeps.{NextCounts, SameCounts, Stays};
ghost use Rattle.db_core.specs.Moves.{SameControl};
ghost use Rattle.db_core.specs.Represents.{FitsOp, IsSound, Represents, lock_asked};

use crate::control::{
    Control, block_at_key, block_at_lock, count_frees, depth, end_wait, grant, release,
};
use abl_base::RowId;
use database_protocol::{Answer, Op};
use std::alloc::{AllocError, Global};

/// Grants the client a lock with which no lock of another client conflicts, on a row that is there.
/// An error means out of memory.
pub fn grant_lock(
    alloc: Global,
    control: &mut Control,
    client: u16,
    row: RowId,
    exclusive: bool,
) -> Result<(), AllocError>
    requires { client < length control.old.sessions.items }
    ensures represents { OnOk result ((f : Setting) (rows : RowState) (s : State) (table : ℕ) (wait : Bool) → Represents f rows control.old s →
        ¬ HasConflict control.old.locks client row.0 exclusive → (IsObservable rows → rows.rows row.0 ≢ None) →
        Represents f rows control.new (after f s client (Op.Lock table row exclusive wait) Answer.Granted)) }
    ensures sound { OnOk result ((rows : RowState) → IsSound rows control.old → IsSound rows control.new) }
    ensures err { OnErr result (SameControl control.old control.new) }
    ensures stays { OnErr result ((rows : RowState) → Stays rows rows control.old control.new client) }
    ensures counts { OnOk result (SameCounts control.old control.new) }
{
    grant(alloc, control, client, row, exclusive)?;
    Ok(())
}

/// Blocks the client at a Lock. An error means out of memory.
pub fn wait(
    alloc: Global,
    control: &mut Control,
    client: u16,
    table: u16,
    row: RowId,
    exclusive: bool,
    wait: bool,
) -> Result<(), AllocError>
    requires { client < length control.old.sessions.items }
    ensures represents { OnOk result ((f : Setting) (rows : RowState) (s : State) (holders : List ℕ) → Represents f rows control.old s →
        Represents f rows control.new (after f s client (Op.Lock table row exclusive wait) (Answer.Blocked holders))) }
    ensures sound { OnOk result ((rows : RowState) → IsSound rows control.old → IsSound rows control.new) }
    ensures err { OnErr result (SameControl control.old control.new) }
    ensures stays { OnErr result ((rows : RowState) → Stays rows rows control.old control.new client) }
    ensures counts { OnOk result (SameCounts control.old control.new) }
{
    block_at_lock(alloc, control, client, table, row, exclusive, wait)?;
    Ok(())
}

/// Blocks the client at an Insert or Put, for a reserved key.
pub fn wait_for_key(control: &mut Control, client: u16, op: Op)
    requires known { client < length control.old.sessions.items }
    requires keyed { lock_asked op ≡ None }
    ensures represents { (f : Setting) (rows : RowState) (s : State) (holders : List ℕ) → Represents f rows control.old s →
        Represents f rows control.new (after f s client op (Answer.Blocked holders)) }
    ensures sound { (rows : RowState) → FitsOp rows.schema op → IsSound rows control.old → IsSound rows control.new }
    ensures counts { SameCounts control.old control.new }
{
    block_at_key(control, client, op);
}

/// Drops the client's lock on the row, where no transaction of the client is open; otherwise it ends
/// the blocked request alone. It takes no memory.
pub fn drop_lock(control: &mut Control, client: u16, row: RowId)
    requires known { client < length control.old.sessions.items }
    requires frees { control.old.frees + 1 < 2 ^ 64 }
    ensures represents { (f : Setting) (rows : RowState) (s : State) → IsSound rows control.old → IsConsistent rows → Represents f rows control.old s →
        Represents f rows control.new (after f s client (Op.Drop row) Answer.Done) }
    ensures sound { (rows : RowState) → IsSound rows control.old → IsSound rows control.new }
    ensures counts { NextCounts control.old control.new }
{
    if depth(control, client) > 0 {
        end_wait(control, client);
        return;
    }
    let freed = release(control, client, row);
    count_frees(control, false, freed);
}
