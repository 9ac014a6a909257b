//! The rows on which locks stay at a commit.

ghost use Rattle.std.specs.Prelude.{◌≡◌, ℕ, true, IfOk, OnOk};
ghost use Rattle.database_meaning.specs.Setting.{Setting};
ghost use Rattle.database_meaning.specs.State.{State};
ghost use Rattle.database_meaning.specs.Steps.{is_outermost};
ghost use Rattle.row_store.specs.Rows.{AfterError, IsObservable};
ghost use Rattle.db_core.specs.Crashes.{StaysDurable};
ghost use Rattle.db_core.specs.Moves.{AreStaying, ListsPresent};
ghost use Rattle.db_core.specs.Represents.{Represents};

use crate::control::Control;
use abl_base::{Items, RowId};
use database_protocol::RowIds;
use row_store::{RowFault, RowStore};
use std::alloc::Global;

/// Those of these rows that are there.
fn list_present<R: RowStore>(
    alloc: Global,
    rows: &mut R,
    keep: &[RowId],
) -> Result<Vec<RowId>, RowFault>
    ensures found { IfOk result (λ list. IsObservable (R.RowStore.state rows.old) → ListsPresent (R.RowStore.state rows.old).rows keep.now list.items) }
    ensures same { OnOk result (R.RowStore.state rows.new ≡ R.RowStore.state rows.old) }
    ensures err { AfterError (R.RowStore.state rows.old) (R.RowStore.state rows.new) result }
    ensures durable { StaysDurable (R.RowStore.state rows.old) (R.RowStore.state rows.new) (R.RowStore.left rows.old) (R.RowStore.left rows.new) (R.RowStore.times rows.old) (R.RowStore.times rows.new) }
    ensures since { (R.RowStore.times rows.new).since ≡ (R.RowStore.times rows.old).since }
{
    match keep.split_last() {
        None => Ok(Vec::new(alloc)),
        Some((last, earlier)) => {
            let mut list = list_present(alloc, rows, earlier)?;
            match rows.table(*last)? {
                None => Ok(list),
                Some(_) => match list.push(*last) {
                    Ok(()) => Ok(list),
                    Err(_) => Err(RowFault::NoMemory),
                },
            }
        }
    }
}

/// Those rows of a Leave's `keep` on which the client's locks stay when it commits. An error NoMemory
/// means out of memory.
pub fn staying_rows<R: RowStore>(
    alloc: Global,
    rows: &mut R,
    control: &Control,
    keep: &RowIds,
) -> Result<RowIds, RowFault>
    ensures staying { IfOk result (λ staying. (f : Setting) (s : State) (c : ℕ) → Represents f (R.RowStore.state rows.old) control.now s → IsObservable (R.RowStore.state rows.old) →
        is_outermost s c ≡ true → AreStaying s c keep.now staying) }
    ensures same { OnOk result (R.RowStore.state rows.new ≡ R.RowStore.state rows.old) }
    ensures err { AfterError (R.RowStore.state rows.old) (R.RowStore.state rows.new) result }
    ensures durable { StaysDurable (R.RowStore.state rows.old) (R.RowStore.state rows.new) (R.RowStore.left rows.old) (R.RowStore.left rows.new) (R.RowStore.times rows.old) (R.RowStore.times rows.new) }
    ensures since { (R.RowStore.times rows.new).since ≡ (R.RowStore.times rows.old).since }
{
    let list = list_present(alloc, rows, keep.as_slice())?;
    Ok(Items::from_vec(list))
}
