//! Inserting, changing and deleting rows.

ghost use Rattle.std.specs.Prelude.{◌≡◌, ◌≢◌, ◌<◌, ◌≤◌, ℕ, Some, IsFalse, length, true, false, OnOk, OnErr};
ghost use Rattle.abl_base.specs.declared.limits.TheConstants.{MAX_ROW_BYTES};
ghost use Rattle.database_meaning.specs.Setting.{FitsTable, HasTable, Setting, row_size};
ghost use Rattle.database_meaning.specs.State.{HoldsExclusively, State};
ghost use Rattle.database_meaning.specs.Answers.{IsFresh};
ghost use Rattle.database_meaning.specs.Steps.{after};
ghost use Rattle.row_store.specs.Rows.{AfterError, IsFree, IsObservable};
ghost use Rattle.row_store.specs.Questions.{table_at};
ghost use Rattle.db_core.specs.Crashes.{StaysDurable};
ghost use Rattle.db_core.specs.Keeps.{Keeps, Stays};
ghost use Rattle.db_core.specs.Represents.{IsSound, Represents};

use crate::control::{Control, end_wait, grant};
use abl_base::{Row, RowId};
use database_protocol::{Answer, Op};
use row_store::{RowFault, RowStore};
use std::alloc::Global;

/// Inserts a row at a free identity and locks it exclusively for the client. Memory for the lock is
/// taken before the rows change. Nobody holds a lock on a free row; where a store that is not
/// observable says otherwise, the error is NoMemory.
pub fn insert<R: RowStore>(
    alloc: Global,
    rows: &mut R,
    control: &mut Control,
    client: u16,
    row: RowId,
    table: u16,
    values: &Row,
) -> Result<(), RowFault>
    requires client { client < 16 }
    requires known { client < length control.old.sessions.items }
    requires sound { IsSound (R.RowStore.state rows.old) control.old }
    requires fine { (R.RowStore.state rows.old).failed ≡ false }
    requires begun { ((R.RowStore.state rows.old).transaction client).begun ≡ true }
    requires free { IsFree (R.RowStore.state rows.old) row.0 }
    requires table { HasTable (R.RowStore.state rows.old).schema table }
    requires fits { FitsTable (R.RowStore.state rows.old).schema table values.now }
    requires size { row_size values.now ≤ MAX_ROW_BYTES }
    ensures represents { OnOk result ((f : Setting) (s : State) → Represents f (R.RowStore.state rows.old) control.old s →
        Represents f (R.RowStore.state rows.new) control.new (after f s client (Op.Insert table values.now) (Answer.Inserted row))) }
    ensures sound { OnOk result (IsSound (R.RowStore.state rows.new) control.new) }
    ensures fresh { OnOk result ((f : Setting) (s : State) → Represents f (R.RowStore.state rows.old) control.old s → IsObservable (R.RowStore.state rows.old) → IsFresh s row.0) }
    ensures err { AfterError (R.RowStore.state rows.old) (R.RowStore.state rows.new) result }
    ensures stays { OnErr result (Stays (R.RowStore.state rows.old) (R.RowStore.state rows.new) control.old control.new client) }
    ensures keeps { OnOk result (Keeps (R.RowStore.state rows.old) (R.RowStore.state rows.new) control.old control.new) }
    ensures durable { StaysDurable (R.RowStore.state rows.old) (R.RowStore.state rows.new) (R.RowStore.left rows.old) (R.RowStore.left rows.new) (R.RowStore.times rows.old) (R.RowStore.times rows.new) }
    ensures since { (R.RowStore.times rows.new).since ≡ (R.RowStore.times rows.old).since }
{
    if control.locks.held(client, row).is_some() {
        return Err(RowFault::NoMemory);
    }
    match grant(alloc, control, client, row, true) {
        Ok(()) => {}
        Err(_) => return Err(RowFault::NoMemory),
    }
    match rows.insert(client, row, table, values) {
        Ok(()) => Ok(()),
        Err(error) => {
            control.locks.release(client, row);
            Err(error)
        }
    }
}

/// Gives a row of the table, which the client holds exclusively, other values.
pub fn put<R: RowStore>(
    rows: &mut R,
    control: &mut Control,
    client: u16,
    table: u16,
    row: RowId,
    values: &Row,
) -> Result<(), RowFault>
    requires client { client < 16 }
    requires known { client < length control.old.sessions.items }
    requires sound { IsSound (R.RowStore.state rows.old) control.old }
    requires fine { (R.RowStore.state rows.old).failed ≡ false }
    requires begun { ((R.RowStore.state rows.old).transaction client).begun ≡ true }
    requires table { HasTable (R.RowStore.state rows.old).schema table }
    requires fits { FitsTable (R.RowStore.state rows.old).schema table values.now }
    requires size { row_size values.now ≤ MAX_ROW_BYTES }
    requires there { IsObservable (R.RowStore.state rows.old) → table_at (R.RowStore.state rows.old).rows row.0 ≡ Some table }
    requires alone { IsObservable (R.RowStore.state rows.old) → (c : ℕ) → c ≢ client → IsFalse (((R.RowStore.state rows.old).transaction c).touched row.0) }
    ensures represents { OnOk result ((f : Setting) (s : State) → Represents f (R.RowStore.state rows.old) control.old s → HoldsExclusively s client row.0 →
        Represents f (R.RowStore.state rows.new) control.new (after f s client (Op.Put table row values.now) Answer.Done)) }
    ensures sound { OnOk result (IsSound (R.RowStore.state rows.new) control.new) }
    ensures control { OnErr result (control.new ≡ control.old) }
    ensures err { AfterError (R.RowStore.state rows.old) (R.RowStore.state rows.new) result }
    ensures stays { OnErr result (Stays (R.RowStore.state rows.old) (R.RowStore.state rows.new) control.old control.new client) }
    ensures keeps { OnOk result (Keeps (R.RowStore.state rows.old) (R.RowStore.state rows.new) control.old control.new) }
    ensures durable { StaysDurable (R.RowStore.state rows.old) (R.RowStore.state rows.new) (R.RowStore.left rows.old) (R.RowStore.left rows.new) (R.RowStore.times rows.old) (R.RowStore.times rows.new) }
    ensures since { (R.RowStore.times rows.new).since ≡ (R.RowStore.times rows.old).since }
{
    rows.put(client, table, row, values)?;
    end_wait(control, client);
    Ok(())
}

/// Deletes a row of the table, which the client holds exclusively.
pub fn delete<R: RowStore>(
    rows: &mut R,
    control: &mut Control,
    client: u16,
    table: u16,
    row: RowId,
) -> Result<(), RowFault>
    requires client { client < 16 }
    requires known { client < length control.old.sessions.items }
    requires sound { IsSound (R.RowStore.state rows.old) control.old }
    requires fine { (R.RowStore.state rows.old).failed ≡ false }
    requires begun { ((R.RowStore.state rows.old).transaction client).begun ≡ true }
    requires there { IsObservable (R.RowStore.state rows.old) → table_at (R.RowStore.state rows.old).rows row.0 ≡ Some table }
    requires alone { IsObservable (R.RowStore.state rows.old) → (c : ℕ) → c ≢ client → IsFalse (((R.RowStore.state rows.old).transaction c).touched row.0) }
    ensures represents { OnOk result ((f : Setting) (s : State) → Represents f (R.RowStore.state rows.old) control.old s → HoldsExclusively s client row.0 →
        Represents f (R.RowStore.state rows.new) control.new (after f s client (Op.Delete table row) Answer.Done)) }
    ensures sound { OnOk result (IsSound (R.RowStore.state rows.new) control.new) }
    ensures control { OnErr result (control.new ≡ control.old) }
    ensures err { AfterError (R.RowStore.state rows.old) (R.RowStore.state rows.new) result }
    ensures stays { OnErr result (Stays (R.RowStore.state rows.old) (R.RowStore.state rows.new) control.old control.new client) }
    ensures keeps { OnOk result (Keeps (R.RowStore.state rows.old) (R.RowStore.state rows.new) control.old control.new) }
    ensures durable { StaysDurable (R.RowStore.state rows.old) (R.RowStore.state rows.new) (R.RowStore.left rows.old) (R.RowStore.left rows.new) (R.RowStore.times rows.old) (R.RowStore.times rows.new) }
    ensures since { (R.RowStore.times rows.new).since ≡ (R.RowStore.times rows.old).since }
{
    rows.delete(client, table, row)?;
    end_wait(control, client);
    Ok(())
}
