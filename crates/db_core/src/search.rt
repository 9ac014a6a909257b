//! The answer to a Next. Nothing changes here.

ghost use Rattle.std.specs.Prelude.{◌≡◌, ℕ, IfOk, None, OnOk, MatchOption, ⊤};
ghost use Rattle.std.specs.Option.{option_copied};
ghost use Rattle.database_protocol.specs.declared.operation.Op.{Op as Asked};
ghost use Rattle.database_meaning.specs.Answers.{FromGone};
ghost use Rattle.database_meaning.specs.Steps.{blocked_after};
ghost use Rattle.database_meaning.specs.Setting.{HasIndex, HasTable, Setting};
ghost use Rattle.database_meaning.specs.State.{State};
ghost use Rattle.row_store.specs.Rows.{AfterError, IsObservable};
ghost use Rattle.db_core.specs.Crashes.{StaysDurable};
ghost use Rattle.db_core.specs.Represents.{IsSound, Represents};

use crate::control::Control;
use abl_base::Row;
use database_protocol::{Answer, Cursor, Op};
use row_store::{RowFault, RowStore};

/// The answer to a Next.
pub fn decide_next<R: RowStore>(
    rows: &mut R,
    control: &Control,
    table: u16,
    index: Option<u16>,
    prefix: &Row,
    cursor: Option<&Cursor>,
    forward: bool,
) -> Result<Answer, RowFault>
    requires sound { IsSound (R.RowStore.state rows.old) control.now }
    requires table { HasTable (R.RowStore.state rows.old).schema table }
    requires order { MatchOption index ⊤ (λ i. HasIndex (R.RowStore.state rows.old).schema table i) }
    ensures answer { IfOk result (λ answer. (f : Setting) (s : State) (c : ℕ) →
        Represents f (R.RowStore.state rows.old) control.now s → IsObservable (R.RowStore.state rows.old) →
        FromGone f s c (Op.Next table index prefix.now (option_copied cursor.entry) forward) answer) }
    ensures quiet { IfOk result (λ answer. (s : State) (c : ℕ) (op : Asked) → blocked_after s c op answer ≡ None) }
    ensures same { OnOk result (R.RowStore.state rows.new ≡ R.RowStore.state rows.old) }
    ensures err { AfterError (R.RowStore.state rows.old) (R.RowStore.state rows.new) result }
    ensures durable { StaysDurable (R.RowStore.state rows.old) (R.RowStore.state rows.new) (R.RowStore.left rows.old) (R.RowStore.left rows.new) (R.RowStore.times rows.old) (R.RowStore.times rows.new) }
    ensures since { (R.RowStore.times rows.new).since ≡ (R.RowStore.times rows.old).since }
{
    match rows.next(table, index, prefix, cursor, forward)? {
        None => Ok(Answer::AtEnd),
        Some(found) => Ok(Answer::Found {
            row: found.row,
            key: found.key,
            values: found.values,
        }),
    }
}
