//! The rows of a disk, judged before the first write: the slots to which the disk recovers are read into
//! memory, and the rows are opened there.

ghost use Rattle.std.specs.Prelude.{◌≡◌, ◌⊎◌, ◌≤◌, IfErr, IfOk, IsErrOf, IsTrue};
ghost use Rattle.storage.specs.faults.Faults.{Rose};
ghost use Rattle.storage.specs.Disk.{Stays};
ghost use Rattle.recovered_view.specs.View.{IsAtRest};
ghost use Rattle.disk_database.specs.Answers.{IsRefused};
ghost use Rattle.log_meaning.specs.Images.{Recovers};
ghost use Rattle.bi_recovery.specs.Reopening.{IsReadAs};
ghost use Rattle.disk_database.specs.Inside.{AreJudged, IsSlotRefusal, of_error, of_fault};

use crate::refusals::OpenRefusal;
use crate::text::test_slots;
use abl_values::Schema;
use indexed_store::{OpenError, RecordStore};
use recovered_view::{OpenFault, ReadLog, RecoveredView};
use row_store::RowStore;
use std::alloc::Global;
use storage::{Disk, Slots};

/// Rows in slots in memory.
pub(crate) type ViewStore = RecordStore<RecoveredView>;

/// What a fault of the view means.
fn of_fault(fault: OpenFault) -> OpenRefusal
    ensures { result ≡ of_fault fault }
{
    match fault {
        OpenFault::NotCreated => OpenRefusal::NotCreated,
        OpenFault::Disk => OpenRefusal::Disk,
        OpenFault::NoMemory => OpenRefusal::NoMemory,
    }
}

/// What an error of the store means: slots without the rows of a database are none.
fn of_error(error: OpenError) -> OpenRefusal
    ensures { result ≡ of_error error }
{
    match error {
        OpenError::Disk => OpenRefusal::Disk,
        OpenError::NoMemory => OpenRefusal::NoMemory,
        OpenError::Unsound => OpenRefusal::NotCreated,
    }
}

/// What a refusal of slots in memory means. No call on them answers Disk, so that Disk would be out of
/// memory.
fn in_memory(refusal: OpenRefusal) -> OpenRefusal
    ensures same { (result ≡ refusal) ⊎ (result ≡ OpenRefusal.NoMemory) }
    ensures never { result ≡ OpenRefusal.Disk → ⊥ }
{
    match refusal {
        OpenRefusal::Disk => OpenRefusal::NoMemory,
        other => other,
    }
}

/// The rows of these slots, where they hold a database of this schema.
fn rows_of_view(
    alloc: Global,
    view: RecoveredView,
    schema: Schema,
) -> Result<ViewStore, OpenRefusal>
    requires { IsAtRest (⟦<RecoveredView as Slots>⟧.state view) (⟦<RecoveredView as Slots>⟧.stop view) }
    ensures judged { IfOk result (λ r. AreJudged (⟦<ViewStore as RowStore>⟧.state r) schema (⟦<RecoveredView as Slots>⟧.state r.rows.chains.slots)) }
    ensures reads { IfOk result (λ r. (⟦<RecoveredView as Slots>⟧.state r.rows.chains.slots).reads ≡ (⟦<RecoveredView as Slots>⟧.state view).reads) }
    ensures refused { IfErr result (IsSlotRefusal schema (⟦<RecoveredView as Slots>⟧.state view)) }
    ensures never { IsErrOf result OpenRefusal.Disk → ⊥ }
{
    schema.soundness();
    let view = match test_slots(alloc, view, &schema) {
        Ok(view) => view,
        Err(refusal) => return Err(in_memory(refusal)),
    };
    match RecordStore::open(alloc, view, schema) {
        Ok(rows) => Ok(rows),
        Err((error, _)) => Err(in_memory(of_error(error))),
    }
}

/// The rows of the slots to which the disk recovers, where these hold a database of this schema, and
/// the log of the disk as it was read for that. Nothing is written, and the disk is as before. The slots
/// stay in memory, 256 bytes each.
pub(crate) fn judged_rows<D: Disk>(
    alloc: Global,
    disk: &mut D,
    schema: Schema,
) -> Result<(ViewStore, ReadLog), OpenRefusal>
    ensures judged { IfOk result (λ r. AreJudged (⟦<ViewStore as RowStore>⟧.state r.0) schema (⟦<RecoveredView as Slots>⟧.state r.0.rows.chains.slots)) }
    ensures recovers { IfOk result (λ r. IsTrue (D.observable disk.old) → Recovers (D.seen disk.old) (⟦<RecoveredView as Slots>⟧.state r.0.rows.chains.slots).reads) }
    ensures log { IfOk result (λ r. IsTrue (D.observable disk.old) → IsReadAs (D.seen disk.old) r.1.area r.1.generation r.1.slots.items) }
    ensures refused { IfErr result (IsRefused schema (D.observable disk.old) (D.seen disk.old)) }
    ensures rest { Stays (D.observable disk.old) (D.observable disk.new) (D.seen disk.old) (D.seen disk.new) (D.time disk.old) (D.time disk.new) (D.left disk.old) (D.left disk.new) }
    ensures later { D.failures disk.old ≤ D.failures disk.new }
    ensures cause { IsErrOf result OpenRefusal.Disk → Rose (D.failures disk.old) (D.failures disk.new) }
{
    match RecoveredView::open(alloc, disk) {
        Ok((view, log)) => match rows_of_view(alloc, view, schema) {
            Ok(rows) => Ok((rows, log)),
            Err(refusal) => Err(refusal),
        },
        Err(fault) => Err(of_fault(fault)),
    }
}
