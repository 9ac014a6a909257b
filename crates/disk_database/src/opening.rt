//! The rows of a disk: judged first, then the disk recovered, and the rows put over its slots.

ghost use Rattle.std.specs.Prelude.{◌≡◌, ◌≤◌, ℕ, List, true, IfErr, IfOk, IsTrue};
ghost use Rattle.storage.specs.faults.Faults.{Rose};
ghost use Rattle.storage.specs.Disk.{Stays};
ghost use Rattle.abl_values.specs.Schema.{canonical_text};
ghost use Rattle.log_meaning.specs.steps.Steps.{Image};
ghost use Rattle.log_meaning.specs.Images.{Recovers};
ghost use Rattle.bi_log.specs.Lengths.{StayShort};
ghost use Rattle.bi_recovery.specs.Reopening.{IsReadAs};
ghost use Rattle.slot_txn.specs.logged.Stops.{StayRecoverable};
ghost use Rattle.database_layout.specs.stored_text.Held.{HoldText};
ghost use Rattle.disk_database.specs.Answers.{IsRefused, is_judgement};
ghost use Rattle.disk_database.specs.Images.{IsGivenBack, RecoversToChains};
ghost use Rattle.disk_database.specs.Inside.{AreOpened, AreJudged, IsStoreOver, of_late_fault};
ghost use Rattle.disk_database.specs.Parts.{AllHoldParts, HoldParts, LeaveUnused};

use crate::guard::{Opening, SlotGuard};
use crate::judging::{ViewStore, judged_rows};
use crate::refusals::OpenRefusal;
use abl_values::Schema;
use bi_recovery::OpenFault;
use guarded_slots::Guarded;
use indexed_store::RecordStore;
use recovered_view::{ReadLog, RecoveredView};
use row_store::RowStore;
use slot_txn::SlotTxn;
use std::alloc::Global;
use storage::{Disk, Slots};

/// Slots with transactions over a disk, guarded since the opening.
pub(crate) type DiskSlots<D, K> = Guarded<SlotTxn<D>, SlotGuard<K>>;

/// Rows in slots with transactions over a disk.
pub type DiskStore<D, K> = RecordStore<DiskSlots<D, K>>;

/// Whether a count of faults rose, or stands at its last value.
pub(crate) fn rose(before: u64, now: u64) -> bool
    ensures { IsTrue result → Rose before now }
{
    now > before || before == u64::MAX
}

/// What a fault of the recovery means, after the disk was judged. It recovers then, so that NotCreated,
/// which never comes where the disk is observable, would be out of memory.
fn of_late_fault(fault: OpenFault) -> OpenRefusal
    ensures { result ≡ of_late_fault fault }
{
    match fault {
        OpenFault::Disk => OpenRefusal::Disk,
        OpenFault::NotCreated | OpenFault::NoMemory => OpenRefusal::NoMemory,
    }
}

/// Recovers the disk by its log as it was read for the judgement, and puts these rows, which were
/// judged, over its slots. The slots in memory are given up.
fn recovered_rows<D: Disk + Drop, K: Opening>(
    alloc: Global,
    disk: D,
    guard: SlotGuard<K>,
    rows: ViewStore,
    log: ReadLog,
) -> Result<DiskStore<D, K>, (OpenRefusal, D)>
    requires images { (image : Image) → D.left disk (D.time disk) image → K.images image }
    requires judged { AreJudged (⟦<ViewStore as RowStore>⟧.state rows) K.schema (⟦<RecoveredView as Slots>⟧.state rows.rows.chains.slots) }
    requires recovers { IsTrue (D.observable disk) → Recovers (D.seen disk) (⟦<RecoveredView as Slots>⟧.state rows.rows.chains.slots).reads }
    requires log { IsTrue (D.observable disk) → IsReadAs (D.seen disk) log.area log.generation log.slots.items }
    ensures opened { IfOk result (λ r. AreOpened (⟦<DiskSlots<D, K> as Slots>⟧.state r.rows.chains.slots) (⟦<DiskSlots<D, K> as Slots>⟧.stop r.rows.chains.slots) (D.observable disk) (D.seen disk) (D.time disk) (D.left disk)) }
    ensures store { IfOk result (λ r. IsStoreOver (⟦<DiskStore<D, K> as RowStore>⟧.state r) K.schema (⟦<DiskSlots<D, K> as Slots>⟧.state r.rows.chains.slots)) }
    ensures same { IfOk result (λ r. IsTrue (D.observable disk) → (⟦<DiskSlots<D, K> as Slots>⟧.state r.rows.chains.slots).committed ≡ (⟦<RecoveredView as Slots>⟧.state rows.rows.chains.slots).reads) }
    ensures late { IfErr result (λ e. is_judgement e.0 ≡ true → ⊥) }
    ensures back { IfErr result (λ e. IsGivenBack (D.observable disk) (D.observable e.1) (D.time disk) (D.time e.1) (D.left disk) (D.left e.1)) }
    ensures later { IfErr result (λ e. D.failures disk ≤ D.failures e.1) }
    ensures cause { IfErr result (λ e. e.0 ≡ OpenRefusal.Disk → Rose (D.failures disk) (D.failures e.1)) }
{
    match SlotTxn::open_read(alloc, disk, log) {
        Ok(slots) => Ok(rows.with_slots(Guarded::new(slots, guard))),
        Err((fault, disk)) => Err((of_late_fault(fault), disk)),
    }
}

/// Opens the rows of the disk where it holds a database of this schema. The disk is judged before its
/// first write, and its log is read once: where it holds no database, or one of another schema, it is
/// as it was. Out of memory comes too where no database can have the schema.
pub(crate) fn open_rows<D: Disk + Drop, K: Opening>(
    alloc: Global,
    disk: D,
    schema: Schema,
) -> Result<DiskStore<D, K>, (OpenRefusal, D)>
    requires of { K.schema ≡ schema }
    requires images { (image : Image) → D.left disk (D.time disk) image → K.images image }
    ensures opened { IfOk result (λ r. AreOpened (⟦<DiskSlots<D, K> as Slots>⟧.state r.rows.chains.slots) (⟦<DiskSlots<D, K> as Slots>⟧.stop r.rows.chains.slots) (D.observable disk) (D.seen disk) (D.time disk) (D.left disk)) }
    ensures store { IfOk result (λ r. IsStoreOver (⟦<DiskStore<D, K> as RowStore>⟧.state r) schema (⟦<DiskSlots<D, K> as Slots>⟧.state r.rows.chains.slots)) }
    ensures text { IfOk result (λ r. IsTrue (D.observable disk) → HoldText (⟦<DiskSlots<D, K> as Slots>⟧.state r.rows.chains.slots).committed (canonical_text schema)) }
    ensures unused { IfOk result (λ r. IsTrue (D.observable disk) → LeaveUnused schema (⟦<DiskSlots<D, K> as Slots>⟧.state r.rows.chains.slots).committed) }
    ensures refused { IfErr result (λ e. IsRefused schema (D.observable disk) (D.seen disk) e.0) }
    ensures untouched { IfErr result (λ e. is_judgement e.0 ≡ true → Stays (D.observable disk) (D.observable e.1) (D.seen disk) (D.seen e.1) (D.time disk) (D.time e.1) (D.left disk) (D.left e.1)) }
    ensures back { IfErr result (λ e. IsGivenBack (D.observable disk) (D.observable e.1) (D.time disk) (D.time e.1) (D.left disk) (D.left e.1)) }
    ensures cause { IfErr result (λ e. e.0 ≡ OpenRefusal.Disk → Rose (D.failures disk) (D.failures e.1)) }
{
    let Some(guard) = SlotGuard::<K>::new(&schema) else {
        return Err((OpenRefusal::NoMemory, disk));
    };
    let mut disk = disk;
    match judged_rows(alloc, &mut disk, schema) {
        Ok((rows, log)) => recovered_rows(alloc, disk, guard, rows, log),
        Err(refusal) => Err((refusal, disk)),
    }
}

/// The disk of these rows. What the images of the opening hold of the text and of sequence values in
/// their form, if all of them do, each image since then holds. Each recovers to chains of rows, or to
/// what an image of the opening recovers to.
pub(crate) fn disk_of<D: Disk + Drop, K: Opening>(rows: DiskStore<D, K>) -> D
    ensures disk { result ≡ rows.rows.chains.slots.slots.slots.disk }
    ensures stops { (m : ℕ) (image : Image) (left : ℕ → List ℕ) → rows.rows.chains.slots.slots.slots.since ≤ m → D.left result m image → Recovers image left → ⟦<DiskSlots<D, K> as Slots>⟧.stop rows.rows.chains.slots m left }
    ensures recoverable { StayRecoverable (D.left result) rows.rows.chains.slots.slots.slots.since }
    ensures short { StayShort (D.left result) rows.rows.chains.slots.slots.slots.since }
    ensures chains { RecoversToChains rows.rows.chains.slots.slots.slots.since (D.left result) }
    ensures parts { AllHoldParts K.schema K.images → (m : ℕ) (image : Image) (left : ℕ → List ℕ) → rows.rows.chains.slots.slots.slots.since ≤ m → D.left result m image → Recovers image left → HoldParts K.schema left }
{
    let slots = rows.close();
    slots.guard.bounds();
    slots.close().close()
}
