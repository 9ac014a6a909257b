//! Opening and closing a database.

ghost use Rattle.std.specs.Prelude.{◌≡◌, ◌<◌, ◌≤◌, ℕ, List, [], map, true, IfErr, IfOk, IsTrue};
ghost use Rattle.storage.specs.faults.Faults.{Rose};
ghost use Rattle.storage.specs.Disk.{Stays};
ghost use Rattle.database_meaning.specs.declared.contents.Contents.{Contents};
ghost use Rattle.database_meaning.specs.Setting.{Setting};
ghost use Rattle.database_meaning.specs.Traces.{identity_of};
ghost use Rattle.database_meaning.specs.Waiting.{IsAscending};
ghost use Rattle.db_core.specs.Crashes.{StartsFrom};
ghost use Rattle.log_meaning.specs.steps.Steps.{Image};
ghost use Rattle.log_meaning.specs.Images.{Recovers};
ghost use Rattle.bi_log.specs.Lengths.{StayShort};
ghost use Rattle.slot_txn.specs.logged.Stops.{StayRecoverable};
ghost use Rattle.db_machine.specs.Database.{HasSetting, IsActive, IsOpened};
ghost use Rattle.disk_database.specs.Answers.{HasText, IsBornOf, IsRefused, is_judgement};
ghost use Rattle.disk_database.specs.Inside.{IsStoreOver};
ghost use Rattle.disk_database.specs.Images.{AllAreOf, AreImagesOf, RecoversAsBefore, SurvivesCrashes};

use crate::guard::Opening;
use crate::opening::{DiskSlots, DiskStore, disk_of, open_rows};
use crate::refusals::OpenRefusal;
use abl_values::Schema;
use database_protocol::Trace;
use db_machine::Db;
use row_store::RowStore;
use std::alloc::{AllocError, Global};
use storage::{Disk, Slots};

/// A database over a disk.
pub type DiskDatabase<D, K> = Db<DiskStore<D, K>>;

/// Opens the database of this schema that the disk holds, for 1 to 16 clients: no client has requested
/// anything. The store and the machine each have a schema of their own, which is one schema. Where each
/// image that a crash may leave at the call holds the same contents, the database is opened with them,
/// and they survive each crash from then on. What the disk's reads give is then an image that is born of
/// the schema. The disk is judged before it is recovered, so where it holds no database, or one of
/// another schema, nothing is written. The slots that were judged are those of the database, read once:
/// they take 256 bytes each, until the disk is recovered. A refusal hands the disk back: each image from
/// the call on recovers only to what an image at the call recovered to.
pub fn open<D: Disk + Drop, K: Opening>(
    alloc: Global,
    disk: D,
    schema: Schema,
    schema_of_rows: Schema,
    clients: u16,
) -> Result<DiskDatabase<D, K>, (OpenRefusal, D)>
    requires few { clients ≤ 16 }
    requires same { schema_of_rows ≡ schema }
    requires of { K.schema ≡ schema }
    requires images { (image : Image) → D.left disk (D.time disk) image → K.images image }
    ensures setting { IfOk result (λ db. HasSetting db (record { schema = schema; clients = clients })) }
    ensures active { IfOk result (λ db. (client : ℕ) → client < clients → IsActive db client) }
    ensures trace { IfOk result (λ db. db.trace ≡ []) }
    ensures since { IfOk result (λ db. (⟦<DiskStore<D, K> as RowStore>⟧.times db.rows).since ≡ D.time disk) }
    ensures opened { IfOk result (λ db. (contents : Contents) → AreImagesOf (D.observable disk) (D.time disk) (D.left disk) schema contents → IsOpened (⟦<DiskStore<D, K> as RowStore>⟧.state db.rows) (⟦<DiskStore<D, K> as RowStore>⟧.left db.rows) (⟦<DiskStore<D, K> as RowStore>⟧.times db.rows) db (record { schema = schema; clients = clients }) contents) }
    ensures text { IfOk result (λ db. IsTrue (D.observable disk) → HasText (D.seen disk) schema) }
    ensures born { IfOk result (λ db. IsTrue (D.observable disk) → IsBornOf (D.seen disk) schema) }
    ensures refused { IfErr result (λ e. IsRefused schema (D.observable disk) (D.seen disk) e.0) }
    ensures untouched { IfErr result (λ e. is_judgement e.0 ≡ true → Stays (D.observable disk) (D.observable e.1) (D.seen disk) (D.seen e.1) (D.time disk) (D.time e.1) (D.left disk) (D.left e.1)) }
    ensures observable { IfErr result (λ e. D.observable e.1 ≡ D.observable disk) }
    ensures time { IfErr result (λ e. D.time disk ≤ D.time e.1) }
    ensures images { IfErr result (λ e. RecoversAsBefore (D.time disk) (D.left disk) (D.left e.1)) }
    ensures recoverable { IfErr result (λ e. StayRecoverable (D.left e.1) (D.time disk)) }
    ensures short { IfErr result (λ e. StayShort (D.left e.1) (D.time disk)) }
    ensures cause { IfErr result (λ e. e.0 ≡ OpenRefusal.Disk → Rose (D.failures disk) (D.failures e.1)) }
{
    schema.soundness();
    let rows = match open_rows(alloc, disk, schema_of_rows) {
        Ok(rows) => rows,
        Err(refusal) => return Err(refusal),
    };
    match start(alloc, rows, schema, clients) {
        Ok(database) => Ok(database),
        Err(rows) => Err((OpenRefusal::NoMemory, disk_of(rows))),
    }
}

/// The values, once more.
fn copied(alloc: Global, values: &[i64]) -> Result<Vec<i64>, AllocError>
    ensures { IfOk result (λ copy. copy.items ≡ values.now) }
{
    let mut copy = Vec::new(alloc);
    copy.extend_from_slice(values)?;
    Ok(copy)
}

/// The database of these rows, which were just opened. An error means out of memory, and gives the
/// rows back.
fn start<D: Disk + Drop, K: Opening>(
    alloc: Global,
    rows: DiskStore<D, K>,
    schema: Schema,
    clients: u16,
) -> Result<DiskDatabase<D, K>, DiskStore<D, K>>
    requires few { clients ≤ 16 }
    requires opened { IsStoreOver (⟦<DiskStore<D, K> as RowStore>⟧.state rows) schema (⟦<DiskSlots<D, K> as Slots>⟧.state rows.rows.chains.slots) }
    ensures rows { IfOk result (λ db. db.rows ≡ rows) }
    ensures setting { IfOk result (λ db. HasSetting db (record { schema = schema; clients = clients })) }
    ensures active { IfOk result (λ db. (client : ℕ) → client < clients → IsActive db client) }
    ensures trace { IfOk result (λ db. db.trace ≡ []) }
    ensures opened { IfOk result (λ db. (contents : Contents) → IsTrue (⟦<DiskStore<D, K> as RowStore>⟧.state rows).observable → IsAscending (map identity_of contents.rows)
        → StartsFrom (⟦<DiskStore<D, K> as RowStore>⟧.state rows) (⟦<DiskStore<D, K> as RowStore>⟧.left rows) (⟦<DiskStore<D, K> as RowStore>⟧.times rows) contents
        → IsOpened (⟦<DiskStore<D, K> as RowStore>⟧.state db.rows) (⟦<DiskStore<D, K> as RowStore>⟧.left db.rows) (⟦<DiskStore<D, K> as RowStore>⟧.times db.rows) db (record { schema = schema; clients = clients }) contents) }
    ensures refused { IfErr result (λ r. r ≡ rows) }
{
    let Ok(sequences) = copied(alloc, rows.sequences()) else {
        return Err(rows);
    };
    match Db::new(alloc, rows, schema, sequences, clients) {
        Ok(database) => Ok(database),
        Err((_, rows)) => Err(rows),
    }
}

/// The disk of the database, and its trace. From the moment of its opening on, each image that a crash
/// may leave holds the contents after the commits that were acknowledged by then, or after one more,
/// where the images of the opening held the contents of that time; and no image has an area of the log
/// longer than 167,772,160 bytes, if none of the opening had one.
pub fn close<D: Disk + Drop, K: Opening>(database: DiskDatabase<D, K>) -> (D, Trace)
    ensures trace { result.1 ≡ database.trace }
    ensures short { StayShort (D.left result.0) (⟦<DiskStore<D, K> as RowStore>⟧.times database.rows).since }
    ensures observable { (f : Setting) (contents : Contents) → IsOpened (⟦<DiskStore<D, K> as RowStore>⟧.state database.rows) (⟦<DiskStore<D, K> as RowStore>⟧.left database.rows) (⟦<DiskStore<D, K> as RowStore>⟧.times database.rows) database f contents → IsTrue (D.observable result.0) }
    ensures survives { (f : Setting) (contents : Contents) → IsOpened (⟦<DiskStore<D, K> as RowStore>⟧.state database.rows) (⟦<DiskStore<D, K> as RowStore>⟧.left database.rows) (⟦<DiskStore<D, K> as RowStore>⟧.times database.rows) database f contents
        → ∥ ((image : Image) × D.left result.0 (⟦<DiskStore<D, K> as RowStore>⟧.times database.rows).since image) ∥₁
        → AllAreOf f.schema contents (D.left result.0 (⟦<DiskStore<D, K> as RowStore>⟧.times database.rows).since)
        → K.schema ≡ f.schema
        → AllAreOf f.schema contents K.images
        → SurvivesCrashes (⟦<DiskStore<D, K> as RowStore>⟧.times database.rows).since (D.time result.0) (D.left result.0) f contents result.1 }
{
    let (rows, trace) = database.close();
    (disk_of(rows), trace)
}
