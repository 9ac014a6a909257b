//! Whether a change has room: fragments of the database, and slot writes of the transaction.

ghost use Rattle.std.specs.Prelude.{◌≡◌, ◌<◌, ◌≤◌, ◌↔◌, ◌+◌, ◌-◌, ℕ, false, IfSome, IsTrue, length, max};
ghost use Rattle.abl_base.specs.declared.limits.TheConstants.{MAX_ROW_BYTES as MOST};
ghost use Rattle.database_protocol.specs.declared.operation.Op.{Op as Asked};
ghost use Rattle.database_meaning.specs.Answers.{IsDrawing, IsWrite};
ghost use Rattle.database_meaning.specs.Counts.{draws, writes};
ghost use Rattle.database_meaning.specs.Setting.{Setting, fragments, row_size};
ghost use Rattle.database_meaning.specs.State.{State};
ghost use Rattle.database_meaning.specs.Steps.{is_success};
ghost use Rattle.database_meaning.specs.Waiting.{row_in};
ghost use Rattle.row_store.specs.Rows.{IsObservable};
ghost use Rattle.db_core.specs.Represents.{IsSound, Represents};
ghost use Rattle.db_core.specs.Writes.{AnswersRoom};

use crate::control::Control;
use abl_base::Row;
use abl_base::limits::{MAX_FRAGMENTS, MAX_ROW_BYTES, MAX_SLOT_WRITES};
use database_protocol::Answer;
use row_store::RowStore;
use row_store::answers::rows::{fragments_for, size_within};

/// How many fragments hold these values as a row.
pub(crate) fn fragments_of(values: &Row) -> u64
    requires { row_size values.now ≤ MOST }
    ensures { (table : ℕ) → result ≡ fragments (row_in table values.now) }
{
    match size_within(values.as_slice(), MAX_ROW_BYTES as u64) {
        None => 0,
        Some(bytes) => fragments_for(bytes),
    }
}

/// Whether `number + more` exceeds the limit.
fn passes(number: u64, more: u64, limit: u64) -> bool
    ensures { IsTrue result ↔ (limit < number + more) }
{
    number > limit || more > limit - number
}

/// The answer Full or TxFull to a change of a row of `old` fragments into one of `new`; None where
/// there is room for it.
pub(crate) fn decide_room<R: RowStore>(
    rows: &R,
    control: &Control,
    client: u16,
    new: u64,
    old: u64,
) -> Option<Answer>
    requires client { client < 16 }
    requires few { length control.now.sessions.items ≤ 16 }
    requires sound { IsSound (R.RowStore.state rows.now) control.now }
    ensures refusal { IfSome result (λ answer. is_success answer ≡ false) }
    ensures answer { (f : Setting) (s : State) (op : Asked) → Represents f (R.RowStore.state rows.now) control.now s → IsObservable (R.RowStore.state rows.now) →
        IsDrawing op → draws f s op ≡ new - old → writes f s op ≡ max new old → AnswersRoom f s client op result }
{
    let drawn = new.saturating_sub(old);
    if passes(rows.used(), drawn, MAX_FRAGMENTS as u64) {
        return Some(Answer::Full);
    }
    if passes(rows.written(client), new.max(old), MAX_SLOT_WRITES as u64) {
        return Some(Answer::TxFull);
    }
    None
}

/// The answer TxFull to the removal of a row of `old` fragments; None where there is room for it.
pub(crate) fn decide_removal<R: RowStore>(
    rows: &R,
    control: &Control,
    client: u16,
    old: u64,
) -> Option<Answer>
    requires client { client < 16 }
    ensures { (f : Setting) (s : State) (op : Asked) → Represents f (R.RowStore.state rows.now) control.now s → IsObservable (R.RowStore.state rows.now) →
        ¬ IsDrawing op → IsWrite op → writes f s op ≡ old → AnswersRoom f s client op result }
{
    if passes(rows.written(client), old, MAX_SLOT_WRITES as u64) {
        return Some(Answer::TxFull);
    }
    None
}
