//! Closing the database of a run.

ghost use Rattle.std.specs.Prelude.{◌≡◌, ◌≤◌, [], ℕ};
ghost use Rattle.database_meaning.specs.declared.contents.Contents.{Contents};
ghost use Rattle.database_meaning.specs.Setting.{Setting};
ghost use Rattle.database_meaning.specs.Traces.{IsLegal};
ghost use Rattle.log_meaning.specs.steps.Steps.{Image};
ghost use Rattle.disk_database.specs.Images.{AllAreOf, IsImageOf, SurvivesCrashes};
ghost use Rattle.run_report.specs.declared.refusal.Refusal.TheVariants.{NoMemory};
ghost use Rattle.run_works.specs.Disks.{LogStaysShort};

use crate::opening::NotRun;
use crate::timed::Timed;
use crate::watched::{Start, Watched};
use client_threads::served::{EndedClient, Served};
use database_interface::Database;
use database_protocol::Trace;
use disk_database::{DiskDatabase, DiskStore, Opening, close};
use row_store::RowStore;
use run_report::Refusal;
use storage::Disk;

/// The disk of a run.
pub type RunDisk<D, K> = Watched<D, K>;

/// The database of a run.
pub type RunDatabase<D, K> = Timed<DiskStore<RunDisk<D, K>, K>, K>;

/// What is left of a run: the disk, the trace, and the clients.
#[derive(Drop)]
pub struct Ran<D> {
    pub disk: D,
    pub trace: Trace,
    pub clients: Vec<EndedClient>,
}

/// A database that was closed: its disk, and its trace.
struct Closed<D> {
    disk: D,
    trace: Trace,
}

/// Closes the database after a run.
pub(crate) fn close_after_run<D: Disk + Drop, K: Start + Opening>(
    served: Served<RunDatabase<D, K>>,
) -> Ran<D>
    ensures trace { result.trace ≡ served.database.database.trace }
    ensures clients { result.clients.items ≡ served.clients.items }
    ensures log { LogStaysShort K.Start.images K.moment (D.left result.disk) }
    ensures legal { (f : Setting) (contents : Contents) → ⟦<DiskDatabase<RunDisk<D, K>, K> as Database>⟧.opened served.database.database f contents → IsLegal f contents result.trace }
    ensures survives { (f : Setting) (contents : Contents) → ⟦<DiskDatabase<RunDisk<D, K>, K> as Database>⟧.opened served.database.database f contents → AllAreOf f.schema contents K.Start.images → K.schema ≡ f.schema → AllAreOf f.schema contents K.Opening.images →
        SurvivesCrashes K.moment (D.time result.disk) (D.left result.disk) f contents result.trace }
{
    let Served { database, clients } = served;
    let Closed { disk, trace } = close_timed(database);
    Ran {
        disk,
        trace,
        clients,
    }
}

/// Closes the database, since there is no memory for the clients' threads.
pub(crate) fn close_unused<D: Disk + Drop, K: Start + Opening>(
    database: RunDatabase<D, K>,
) -> NotRun<D>
    requires empty { database.database.trace ≡ [] }
    ensures refusal { result.refusal ≡ NoMemory }
    ensures log { LogStaysShort K.Start.images K.moment (D.left result.disk) }
    ensures kept { (f : Setting) (contents : Contents) → ⟦<DiskDatabase<RunDisk<D, K>, K> as Database>⟧.opened database.database f contents → AllAreOf f.schema contents K.Start.images → K.schema ≡ f.schema → AllAreOf f.schema contents K.Opening.images →
        (m : ℕ) (image : Image) → K.moment ≤ m → D.left result.disk m image → ∥ IsImageOf f.schema contents image ∥₁ }
{
    let Closed { disk, trace } = close_timed(database);
    drop(trace);
    NotRun {
        disk,
        refusal: Refusal::NoMemory,
    }
}

/// Closes the database of a run: what survives since its beginning.
fn close_timed<D: Disk + Drop, K: Start + Opening>(timed: RunDatabase<D, K>) -> Closed<D>
    ensures trace { result.trace ≡ timed.database.trace }
    ensures log { LogStaysShort K.Start.images K.moment (D.left result.disk) }
    ensures legal { (f : Setting) (contents : Contents) → ⟦<DiskDatabase<RunDisk<D, K>, K> as Database>⟧.opened timed.database f contents → IsLegal f contents result.trace }
    ensures survives { (f : Setting) (contents : Contents) → ⟦<DiskDatabase<RunDisk<D, K>, K> as Database>⟧.opened timed.database f contents → AllAreOf f.schema contents K.Start.images → K.schema ≡ f.schema → AllAreOf f.schema contents K.Opening.images →
        SurvivesCrashes K.moment (D.time result.disk) (D.left result.disk) f contents result.trace }
{
    let Timed { database, of: _ } = timed;
    let (watched, trace) = close(database);
    let Watched { disk, of: _ } = watched;
    Closed { disk, trace }
}

/// The disk of a run that did not begin.
pub(crate) fn unwatched<D: Disk + Drop, K: Start>(not_run: NotRun<RunDisk<D, K>>) -> NotRun<D>
    ensures disk { result.disk ≡ not_run.disk.disk }
    ensures refusal { result.refusal ≡ not_run.refusal }
    ensures images { (image : Image) → D.left result.disk K.moment image → ∥ K.images image ∥₁ }
{
    let NotRun { disk, refusal } = not_run;
    let Watched { disk, of: _ } = disk;
    NotRun { disk, refusal }
}
