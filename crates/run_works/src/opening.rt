//! Opening the database of a run.

ghost use Rattle.std.specs.Prelude.{◌≡◌, ◌<◌, ◌≤◌, [], ℕ, IfErr, IfOk};
ghost use Rattle.database_meaning.specs.declared.contents.Contents.{Contents};
ghost use Rattle.source_files.specs.Compiled.{schema_in};
ghost use Rattle.log_meaning.specs.steps.Steps.{Image};
ghost use Rattle.disk_database.specs.Images.{RecoversAsBefore};
ghost use Rattle.bi_log.specs.Lengths.{StayShort};
ghost use Rattle.slot_txn.specs.logged.Stops.{StayRecoverable};
ghost use Rattle.run_works.specs.Disks.{HoldsContents, IsNotOpened, ReadsAsDatabase, opening_refusal, state_of};

use database_interface::Database;
use disk_database::{DiskDatabase, DiskStore, OpenRefusal, Opening, open};
use row_store::RowStore;
use run_report::Refusal;
use source_files::schema_of;
use std::alloc::Global;
use storage::Disk;

/// A run that did not begin: the disk, and why.
#[derive(Drop)]
pub struct NotRun<D> {
    pub disk: D,
    pub refusal: Refusal,
}

/// Opens the database on the disk for the given number of clients, over the schema of this text. The
/// text is that of a schema file which breaks no rule, so that an error in it means out of memory.
pub(crate) fn open_database<D: Disk + Drop, K: Opening>(
    alloc: Global,
    disk: D,
    df: &[u8],
    clients: u16,
) -> Result<DiskDatabase<D, K>, NotRun<D>>
    requires few { clients ≤ 16 }
    requires of { K.schema ≡ schema_in df.now }
    requires images { (image : Image) → D.left disk (D.time disk) image → K.images image }
    ensures empty { IfOk result (λ database. database.trace ≡ []) }
    ensures active { IfOk result (λ database. (client : ℕ) → client < clients → ⟦<DiskDatabase<D, K> as Database>⟧.active database client) }
    ensures setting { IfOk result (λ database. ⟦<DiskDatabase<D, K> as Database>⟧.has_setting database (record { schema = schema_in df.now; clients = clients })) }
    ensures since { IfOk result (λ database. (⟦<DiskStore<D, K> as RowStore>⟧.times database.rows).since ≡ D.time disk) }
    ensures opened { IfOk result (λ database. (contents : Contents) → HoldsContents (state_of D.Disk disk) (schema_in df.now) contents → ⟦<DiskDatabase<D, K> as Database>⟧.opened database (record { schema = schema_in df.now; clients = clients }) contents) }
    ensures born { IfOk result (λ database. ReadsAsDatabase (state_of D.Disk disk) (schema_in df.now)) }
    ensures refused { IfErr result (λ not_run. IsNotOpened (schema_in df.now) (state_of D.Disk disk) (state_of D.Disk not_run.disk) not_run.refusal) }
    ensures images { IfErr result (λ not_run. RecoversAsBefore (D.time disk) (D.left disk) (D.left not_run.disk)) }
    ensures recoverable { IfErr result (λ not_run. StayRecoverable (D.left not_run.disk) (D.time disk)) }
    ensures short { IfErr result (λ not_run. StayShort (D.left not_run.disk) (D.time disk)) }
{
    let Ok(schema) = schema_of(alloc, df) else {
        return Err(NotRun {
            disk,
            refusal: Refusal::NoMemory,
        });
    };
    let Ok(schema_of_rows) = schema_of(alloc, df) else {
        return Err(NotRun {
            disk,
            refusal: Refusal::NoMemory,
        });
    };
    match open(alloc, disk, schema, schema_of_rows, clients) {
        Ok(database) => Ok(database),
        Err((why, disk)) => Err(NotRun {
            disk,
            refusal: opening_refusal(why),
        }),
    }
}

/// The refusal of an opening, as a command reports it.
pub fn opening_refusal(why: OpenRefusal) -> Refusal
    ensures { result ≡ opening_refusal why }
{
    match why {
        OpenRefusal::NotCreated => Refusal::NotCreated,
        OpenRefusal::SchemaDiffers { stored, given } => Refusal::SchemaDiffers { stored, given },
        OpenRefusal::Disk => Refusal::Disk,
        OpenRefusal::NoMemory => Refusal::NoMemory,
    }
}
