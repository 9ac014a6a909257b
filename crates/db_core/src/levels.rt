//! Opening a level, going back to one, leaving one, the commit, and the end of a client.

ghost use Rattle.std.specs.Prelude.{◌≡◌, ◌<◌, ◌≤◌, ◌+◌, ◌^◌, ℕ, List, [], length, true, false, IfOk, OnOk, OnErr};
ghost use Rattle.abl_base.specs.declared.row.RowId.{RowId as Kept};
ghost use Rattle.database_meaning.specs.Setting.{Setting};
ghost use Rattle.database_meaning.specs.State.{State};
ghost use Rattle.database_meaning.specs.Steps.{after, is_outermost};
ghost use Rattle.row_store.specs.Rows.{Abandons, AfterError, OnlyDisk, RowState};
ghost use Rattle.db_core.specs.Crashes.{Continues, StaysDurable};
ghost use Rattle.db_core.specs.Keeps.{Keeps, SameCounts, Stays};
ghost use Rattle.db_core.specs.Known.{known};
ghost use Rattle.db_core.specs.Levels.{SameLevels};
ghost use Rattle.db_core.specs.Moves.{AreStaying, SameControl};
ghost use Rattle.db_core.specs.Represents.{IsSound, Represents, marks_at};

use crate::control::{
    Control, back_to_level, count_frees, depth, end_client, end_wait, pop_mark, push_mark, settle,
};
use database_protocol::{Answer, Op, RowIds};
use row_store::{RowFault, RowStore};

/// Opens a level of the client: the transaction, or a subtransaction inside it. After an error the
/// client has the levels that it had.
pub fn enter<R: RowStore>(rows: &mut R, control: &mut Control, client: u16) -> Result<(), RowFault>
    requires client { client < 16 }
    requires known { client < length control.old.sessions.items }
    requires sound { IsSound (R.RowStore.state rows.old) control.old }
    requires fine { (R.RowStore.state rows.old).failed ≡ false }
    ensures represents { OnOk result ((f : Setting) (s : State) → Represents f (R.RowStore.state rows.old) control.old s →
        Represents f (R.RowStore.state rows.new) control.new (after f s client Op.Enter Answer.Done)) }
    ensures sound { OnOk result (IsSound (R.RowStore.state rows.new) control.new) }
    ensures control { OnErr result (SameControl control.old control.new) }
    ensures stays { OnErr result (Stays (R.RowStore.state rows.old) (R.RowStore.state rows.new) control.old control.new client) }
    ensures keeps { OnOk result (Keeps (R.RowStore.state rows.old) (R.RowStore.state rows.new) control.old control.new) }
    ensures err { AfterError (R.RowStore.state rows.old) (R.RowStore.state rows.new) result }
    ensures durable { StaysDurable (R.RowStore.state rows.old) (R.RowStore.state rows.new) (R.RowStore.left rows.old) (R.RowStore.left rows.new) (R.RowStore.times rows.old) (R.RowStore.times rows.new) }
    ensures since { (R.RowStore.times rows.new).since ≡ (R.RowStore.times rows.old).since }
{
    if depth(control, client) == 0 {
        enter_outermost(rows, control, client)?;
        return Ok(());
    }
    enter_inner(rows, control, client)?;
    Ok(())
}

/// Begins the client's transaction.
fn enter_outermost<R: RowStore>(
    rows: &mut R,
    control: &mut Control,
    client: u16,
) -> Result<(), RowFault>
    requires client { client < 16 }
    requires known { client < length control.old.sessions.items }
    requires sound { IsSound (R.RowStore.state rows.old) control.old }
    requires fine { (R.RowStore.state rows.old).failed ≡ false }
    requires closed { marks_at control.old client ≡ [] }
    ensures represents { OnOk result ((f : Setting) (s : State) → Represents f (R.RowStore.state rows.old) control.old s →
        Represents f (R.RowStore.state rows.new) control.new (after f s client Op.Enter Answer.Done)) }
    ensures sound { OnOk result (IsSound (R.RowStore.state rows.new) control.new) }
    ensures control { OnErr result (SameControl control.old control.new) }
    ensures stays { OnErr result (Stays (R.RowStore.state rows.old) (R.RowStore.state rows.new) control.old control.new client) }
    ensures keeps { OnOk result (Keeps (R.RowStore.state rows.old) (R.RowStore.state rows.new) control.old control.new) }
    ensures err { AfterError (R.RowStore.state rows.old) (R.RowStore.state rows.new) result }
    ensures durable { StaysDurable (R.RowStore.state rows.old) (R.RowStore.state rows.new) (R.RowStore.left rows.old) (R.RowStore.left rows.new) (R.RowStore.times rows.old) (R.RowStore.times rows.new) }
    ensures since { (R.RowStore.times rows.new).since ≡ (R.RowStore.times rows.old).since }
{
    match push_mark(control, client, 0) {
        Ok(()) => {}
        Err(_) => return Err(RowFault::NoMemory),
    }
    match rows.begin(client) {
        Ok(()) => {
            end_wait(control, client);
            Ok(())
        }
        Err(error) => {
            pop_mark(control, client);
            Err(error)
        }
    }
}

/// Opens a level inside the client's transaction.
fn enter_inner<R: RowStore>(
    rows: &mut R,
    control: &mut Control,
    client: u16,
) -> Result<(), RowFault>
    requires client { client < 16 }
    requires known { client < length control.old.sessions.items }
    requires sound { IsSound (R.RowStore.state rows.old) control.old }
    requires begun { ((R.RowStore.state rows.old).transaction client).begun ≡ true }
    ensures represents { OnOk result ((f : Setting) (s : State) → Represents f (R.RowStore.state rows.old) control.old s →
        Represents f (R.RowStore.state rows.new) control.new (after f s client Op.Enter Answer.Done)) }
    ensures sound { OnOk result (IsSound (R.RowStore.state rows.new) control.new) }
    ensures control { OnErr result (SameControl control.old control.new) }
    ensures stays { OnErr result (Stays (R.RowStore.state rows.old) (R.RowStore.state rows.new) control.old control.new client) }
    ensures keeps { OnOk result (Keeps (R.RowStore.state rows.old) (R.RowStore.state rows.new) control.old control.new) }
    ensures err { AfterError (R.RowStore.state rows.old) (R.RowStore.state rows.new) result }
    ensures durable { StaysDurable (R.RowStore.state rows.old) (R.RowStore.state rows.new) (R.RowStore.left rows.old) (R.RowStore.left rows.new) (R.RowStore.times rows.old) (R.RowStore.times rows.new) }
    ensures since { (R.RowStore.times rows.new).since ≡ (R.RowStore.times rows.old).since }
{
    let mark = rows.mark(client);
    match push_mark(control, client, mark) {
        Ok(()) => {}
        Err(_) => return Err(RowFault::NoMemory),
    }
    end_wait(control, client);
    Ok(())
}

/// Goes back to a level that the client has open: its changes after the level's mark are undone. It
/// takes no memory.
pub fn back<R: RowStore>(
    rows: &mut R,
    control: &mut Control,
    client: u16,
    depth: u32,
) -> Result<(), RowFault>
    requires client { client < 16 }
    requires known { client < length control.old.sessions.items }
    requires level { 0 < depth }
    requires open { depth ≤ length (marks_at control.old client) }
    requires sound { IsSound (R.RowStore.state rows.old) control.old }
    requires fine { (R.RowStore.state rows.old).failed ≡ false }
    ensures represents { OnOk result ((f : Setting) (s : State) → Represents f (R.RowStore.state rows.old) control.old s →
        Represents f (R.RowStore.state rows.new) control.new (after f s client (Op.Back depth) Answer.Done)) }
    ensures sound { OnOk result (IsSound (R.RowStore.state rows.new) control.new) }
    ensures control { OnErr result (control.new ≡ control.old) }
    ensures err { AfterError (R.RowStore.state rows.old) (R.RowStore.state rows.new) result }
    ensures only { OnlyDisk result }
    ensures stays { OnErr result (Stays (R.RowStore.state rows.old) (R.RowStore.state rows.new) control.old control.new client) }
    ensures keeps { OnOk result (Keeps (R.RowStore.state rows.old) (R.RowStore.state rows.new) control.old control.new) }
    ensures durable { StaysDurable (R.RowStore.state rows.old) (R.RowStore.state rows.new) (R.RowStore.left rows.old) (R.RowStore.left rows.new) (R.RowStore.times rows.old) (R.RowStore.times rows.new) }
    ensures since { (R.RowStore.times rows.new).since ≡ (R.RowStore.times rows.old).since }
{
    let mark = control.sessions[usize::from(client)].marks[depth as usize - 1];
    rows.back(client, mark)?;
    back_to_level(control, client, depth);
    Ok(())
}

/// Leaves an inner level of the client: its changes become those of the level around it. It takes no
/// memory.
pub fn leave(control: &mut Control, client: u16)
    requires known { client < length control.old.sessions.items }
    requires inner { 1 < length (marks_at control.old client) }
    ensures represents { (f : Setting) (rows : RowState) (s : State) (keep : List Kept) → IsSound rows control.old → Represents f rows control.old s →
        Represents f rows control.new (after f s client (Op.Leave keep) Answer.Done) }
    ensures sound { (rows : RowState) → IsSound rows control.old → IsSound rows control.new }
    ensures counts { SameCounts control.old control.new }
{
    pop_mark(control, client);
    end_wait(control, client);
}

/// Commits the client's transaction. `staying` are the rows of its Leave on which its locks stay: the
/// caller asked for them before. It takes no memory.
pub fn commit<R: RowStore>(
    rows: &mut R,
    control: &mut Control,
    client: u16,
    staying: &RowIds,
) -> Result<u64, RowFault>
    requires client { client < 16 }
    requires known { client < length control.old.sessions.items }
    requires fine { (R.RowStore.state rows.old).failed ≡ false }
    requires sound { IsSound (R.RowStore.state rows.old) control.old }
    requires begun { ((R.RowStore.state rows.old).transaction client).begun ≡ true }
    requires sequences { length control.old.sequences.items ≡ length (R.RowStore.state rows.old).schema.sequences }
    requires frees { control.old.frees + 1 < 2 ^ 64 }
    ensures represents { OnOk result ((f : Setting) (s : State) (keep : List Kept) (moment : ℕ) → Represents f (R.RowStore.state rows.old) control.old s →
        is_outermost s client ≡ true → AreStaying s client keep staying.now →
        Represents f (R.RowStore.state rows.new) control.new (after f s client (Op.Leave keep) (Answer.Committed moment))) }
    ensures levels { OnOk result ((f : Setting) (s : State) (keep : List Kept) (moment : ℕ) → SameLevels (known control.old) s → is_outermost s client ≡ true →
        SameLevels (known control.new) (after f s client (Op.Leave keep) (Answer.Committed moment))) }
    ensures sound { OnOk result (IsSound (R.RowStore.state rows.new) control.new) }
    ensures control { OnErr result (control.new ≡ control.old) }
    ensures only { OnlyDisk result }
    ensures err { AfterError (R.RowStore.state rows.old) (R.RowStore.state rows.new) result }
    ensures stays { OnErr result (Stays (R.RowStore.state rows.old) (R.RowStore.state rows.new) control.old control.new client) }
    ensures keeps { OnOk result (Keeps (R.RowStore.state rows.old) (R.RowStore.state rows.new) control.old control.new) }
    ensures durable { IfOk result (λ moment. (keep : List Kept) → length (marks_at control.old client) ≡ 1 →
        Continues (R.RowStore.state rows.old) (R.RowStore.state rows.new) (R.RowStore.left rows.old) (R.RowStore.left rows.new) (R.RowStore.times rows.old) (R.RowStore.times rows.new) control.old client (Op.Leave keep) (Answer.Committed moment)) }
    ensures unanswered { OnErr result ((keep : List Kept) → length (marks_at control.old client) ≡ 1 →
        Continues (R.RowStore.state rows.old) (R.RowStore.state rows.new) (R.RowStore.left rows.old) (R.RowStore.left rows.new) (R.RowStore.times rows.old) (R.RowStore.times rows.new) control.old client (Op.Leave keep) Answer.Closed) }
    ensures since { (R.RowStore.times rows.new).since ≡ (R.RowStore.times rows.old).since }
{
    let reserved = rows.has_reserved(client);
    let moment = rows.commit(client, control.sequences.as_slice())?;
    let freed = settle(control, client, staying);
    count_frees(control, reserved, freed);
    Ok(moment)
}

/// Abandons the client's transaction, if it has one.
fn abandon_open<R: RowStore>(rows: &mut R, control: &Control, client: u16)
    requires client { client < 16 }
    requires sound { IsSound (R.RowStore.state rows.old) control.now }
    ensures abandoned { Abandons (R.RowStore.state rows.old) (R.RowStore.state rows.new) client }
    ensures durable { StaysDurable (R.RowStore.state rows.old) (R.RowStore.state rows.new) (R.RowStore.left rows.old) (R.RowStore.left rows.new) (R.RowStore.times rows.old) (R.RowStore.times rows.new) }
    ensures since { (R.RowStore.times rows.new).since ≡ (R.RowStore.times rows.old).since }
{
    if depth(control, client) == 0 {
        return;
    }
    rows.abandon(client);
}

/// Ends the client: its transaction is undone, and its locks are freed. It takes no memory and has no
/// error.
pub fn end<R: RowStore>(rows: &mut R, control: &mut Control, client: u16)
    requires client { client < 16 }
    requires known { client < length control.old.sessions.items }
    requires sound { IsSound (R.RowStore.state rows.old) control.old }
    requires frees { control.old.frees + 1 < 2 ^ 64 }
    ensures represents { (f : Setting) (s : State) → Represents f (R.RowStore.state rows.old) control.old s →
        Represents f (R.RowStore.state rows.new) control.new (after f s client Op.End Answer.Done) }
    ensures sound { IsSound (R.RowStore.state rows.new) control.new }
    ensures keeps { Keeps (R.RowStore.state rows.old) (R.RowStore.state rows.new) control.old control.new }
    ensures durable { StaysDurable (R.RowStore.state rows.old) (R.RowStore.state rows.new) (R.RowStore.left rows.old) (R.RowStore.left rows.new) (R.RowStore.times rows.old) (R.RowStore.times rows.new) }
    ensures since { (R.RowStore.times rows.new).since ≡ (R.RowStore.times rows.old).since }
{
    let reserved = rows.has_reserved(client);
    abandon_open(rows, control, client);
    let freed = end_client(control, client);
    count_frees(control, reserved, freed);
}
