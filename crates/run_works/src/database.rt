//! The database of a run: opened on the disk, served to the clients, and closed. No other crate names
//! its type.

ghost use Rattle.std.specs.Prelude.{◌≡◌, ◌+◌, ◌<◌, ◌≤◌, ℕ, All, IfErr, IfOk, length};
ghost use Rattle.abl_values.specs.Schema.{SchemaData};
ghost use Rattle.database_protocol.specs.declared.event.Event.{Event};
ghost use Rattle.client_threads.specs.clients.Phases.{AreThreePhases};
ghost use Rattle.log_meaning.specs.steps.Steps.{Image};
ghost use Rattle.source_files.specs.Compiled.{schema_in};
ghost use Rattle.run_report.specs.declared.refusal.Refusal.TheVariants.{NoMemory};
ghost use Rattle.run_works.specs.Disks.{IsDurable, IsNotOpened, KeepsContents, KeepsLogShort, ReadsAsDatabase, state_of};
ghost use Rattle.client_threads.specs.served.Served.{HaveEnded, HaveEndedOrNot};

use crate::closing::{Ran, RunDatabase, RunDisk, close_after_run, close_unused, unwatched};
use crate::opening::{NotRun, open_database};
use crate::serving::{serve, serve_phases};
use crate::timed::Timed;
use crate::watched::{Start, Watched};
use client_core::Client;
use disk_database::Opening;
use host_io::Gate;
use std::alloc::Global;
use std::marker::{Brand, PhantomData};
use std::sync::Wait;
use std::thread::Threads;
use storage::Disk;

/// Opens the database of the schema of this text on the disk, runs each client on a thread of its own
/// to its end, and closes the database. The client at place k has the number k in the trace. The text
/// is that of a schema file which breaks no rule, so that an error in it means out of memory.
pub fn run_together<R: Threads + Wait + Sync, D: Disk + Send + Drop, G: Gate + Sync>(
    rt: &R,
    alloc: Global,
    disk: D,
    df: &[u8],
    clients: Vec<Client>,
    gate: &G,
) -> Result<Ran<D>, NotRun<D>>
    requires some { 0 < length clients.items }
    requires few { length clients.items ≤ 16 }
    ensures events { IfOk result (λ ran. All (λ (e : Event). e.client < length clients.items) ran.trace) }
    ensures ended { IfOk result (λ ran. HaveEnded (record { schema = schema_in df.now; clients = length clients.items }) ran.trace 0 clients.items ran.clients.items) }
    ensures durable { IfOk result (λ ran. IsDurable (record { schema = schema_in df.now; clients = length clients.items }) ran.trace (state_of D.Disk disk) (state_of D.Disk ran.disk)) }
    ensures born { IfOk result (λ ran. ReadsAsDatabase (state_of D.Disk disk) (schema_in df.now)) }
    ensures log { IfOk result (λ ran. KeepsLogShort (state_of D.Disk disk) (state_of D.Disk ran.disk)) }
    ensures refused { IfErr result (λ not_run. IsNotOpened (schema_in df.now) (state_of D.Disk disk) (state_of D.Disk not_run.disk) not_run.refusal) }
    ensures kept { IfErr result (λ not_run. KeepsContents (schema_in df.now) (state_of D.Disk disk) (state_of D.Disk not_run.disk)) }
    ensures others { IfErr result (λ not_run. (not_run.refusal ≡ NoMemory → ⊥) → (schema : SchemaData) → KeepsContents schema (state_of D.Disk disk) (state_of D.Disk not_run.disk)) }
    ensures short { IfErr result (λ not_run. KeepsLogShort (state_of D.Disk disk) (state_of D.Disk not_run.disk)) }
{
    together_since::<R, D, Brand, G>(rt, alloc, disk, df, clients, gate)
}

/// The same for a run that begins so.
fn together_since<
    R: Threads + Wait + Sync,
    D: Disk + Send + Drop,
    K: Start + Opening + Send,
    G: Gate + Sync,
>(
    rt: &R,
    alloc: Global,
    disk: D,
    df: &[u8],
    clients: Vec<Client>,
    gate: &G,
) -> Result<Ran<D>, NotRun<D>>
    requires some { 0 < length clients.items }
    requires few { length clients.items ≤ 16 }
    requires moment { K.moment ≡ D.time disk }
    requires images { (image : Image) → D.left disk K.moment image → K.Start.images image }
    requires began { (image : Image) → K.Start.images image → D.left disk (D.time disk) image }
    requires schema { K.schema ≡ schema_in df.now }
    requires opening { (image : Image) → D.left disk (D.time disk) image → K.Opening.images image }
    requires opened { (image : Image) → K.Opening.images image → D.left disk (D.time disk) image }
    ensures events { IfOk result (λ ran. All (λ (e : Event). e.client < length clients.items) ran.trace) }
    ensures ended { IfOk result (λ ran. HaveEnded (record { schema = schema_in df.now; clients = length clients.items }) ran.trace 0 clients.items ran.clients.items) }
    ensures durable { IfOk result (λ ran. IsDurable (record { schema = schema_in df.now; clients = length clients.items }) ran.trace (state_of D.Disk disk) (state_of D.Disk ran.disk)) }
    ensures born { IfOk result (λ ran. ReadsAsDatabase (state_of D.Disk disk) (schema_in df.now)) }
    ensures log { IfOk result (λ ran. KeepsLogShort (state_of D.Disk disk) (state_of D.Disk ran.disk)) }
    ensures refused { IfErr result (λ not_run. IsNotOpened (schema_in df.now) (state_of D.Disk disk) (state_of D.Disk not_run.disk) not_run.refusal) }
    ensures kept { IfErr result (λ not_run. KeepsContents (schema_in df.now) (state_of D.Disk disk) (state_of D.Disk not_run.disk)) }
    ensures others { IfErr result (λ not_run. (not_run.refusal ≡ NoMemory → ⊥) → (schema : SchemaData) → KeepsContents schema (state_of D.Disk disk) (state_of D.Disk not_run.disk)) }
    ensures short { IfErr result (λ not_run. KeepsLogShort (state_of D.Disk disk) (state_of D.Disk not_run.disk)) }
{
    let watched: RunDisk<D, K> = Watched {
        disk,
        of: PhantomData,
    };
    match open_database(alloc, watched, df, clients.len() as u16) {
        Ok(database) => {
            let timed: RunDatabase<D, K> = Timed {
                database,
                of: PhantomData,
            };
            match serve(rt, alloc, timed, clients, gate) {
                Ok(served) => Ok(close_after_run(served)),
                Err(timed) => Err(close_unused(timed)),
            }
        }
        Err(not_run) => Err(unwatched(not_run)),
    }
}

/// The same as `run_together`, in three phases: the first client alone, then all others but the last
/// side by side, then the last one alone. The clients of a phase for which there is no memory do not
/// begin.
pub fn run_in_phases<R: Threads + Wait + Sync, D: Disk + Send + Drop, G: Gate + Sync>(
    rt: &R,
    alloc: Global,
    disk: D,
    df: &[u8],
    clients: Vec<Client>,
    gate: &G,
) -> Result<Ran<D>, NotRun<D>>
    requires some { 3 ≤ length clients.items }
    requires few { length clients.items ≤ 16 }
    ensures phases { IfOk result (λ ran. (between : ℕ) → length clients.items ≡ between + 2 → AreThreePhases between ran.trace) }
    ensures ended { IfOk result (λ ran. HaveEndedOrNot (record { schema = schema_in df.now; clients = length clients.items }) ran.trace 0 clients.items ran.clients.items) }
    ensures durable { IfOk result (λ ran. IsDurable (record { schema = schema_in df.now; clients = length clients.items }) ran.trace (state_of D.Disk disk) (state_of D.Disk ran.disk)) }
    ensures born { IfOk result (λ ran. ReadsAsDatabase (state_of D.Disk disk) (schema_in df.now)) }
    ensures log { IfOk result (λ ran. KeepsLogShort (state_of D.Disk disk) (state_of D.Disk ran.disk)) }
    ensures refused { IfErr result (λ not_run. IsNotOpened (schema_in df.now) (state_of D.Disk disk) (state_of D.Disk not_run.disk) not_run.refusal) }
    ensures kept { IfErr result (λ not_run. KeepsContents (schema_in df.now) (state_of D.Disk disk) (state_of D.Disk not_run.disk)) }
    ensures others { IfErr result (λ not_run. (not_run.refusal ≡ NoMemory → ⊥) → (schema : SchemaData) → KeepsContents schema (state_of D.Disk disk) (state_of D.Disk not_run.disk)) }
    ensures short { IfErr result (λ not_run. KeepsLogShort (state_of D.Disk disk) (state_of D.Disk not_run.disk)) }
{
    phases_since::<R, D, Brand, G>(rt, alloc, disk, df, clients, gate)
}

/// The same for a run that begins so.
fn phases_since<
    R: Threads + Wait + Sync,
    D: Disk + Send + Drop,
    K: Start + Opening + Send,
    G: Gate + Sync,
>(
    rt: &R,
    alloc: Global,
    disk: D,
    df: &[u8],
    clients: Vec<Client>,
    gate: &G,
) -> Result<Ran<D>, NotRun<D>>
    requires some { 3 ≤ length clients.items }
    requires few { length clients.items ≤ 16 }
    requires moment { K.moment ≡ D.time disk }
    requires images { (image : Image) → D.left disk K.moment image → K.Start.images image }
    requires began { (image : Image) → K.Start.images image → D.left disk (D.time disk) image }
    requires schema { K.schema ≡ schema_in df.now }
    requires opening { (image : Image) → D.left disk (D.time disk) image → K.Opening.images image }
    requires opened { (image : Image) → K.Opening.images image → D.left disk (D.time disk) image }
    ensures phases { IfOk result (λ ran. (between : ℕ) → length clients.items ≡ between + 2 → AreThreePhases between ran.trace) }
    ensures ended { IfOk result (λ ran. HaveEndedOrNot (record { schema = schema_in df.now; clients = length clients.items }) ran.trace 0 clients.items ran.clients.items) }
    ensures durable { IfOk result (λ ran. IsDurable (record { schema = schema_in df.now; clients = length clients.items }) ran.trace (state_of D.Disk disk) (state_of D.Disk ran.disk)) }
    ensures born { IfOk result (λ ran. ReadsAsDatabase (state_of D.Disk disk) (schema_in df.now)) }
    ensures log { IfOk result (λ ran. KeepsLogShort (state_of D.Disk disk) (state_of D.Disk ran.disk)) }
    ensures refused { IfErr result (λ not_run. IsNotOpened (schema_in df.now) (state_of D.Disk disk) (state_of D.Disk not_run.disk) not_run.refusal) }
    ensures kept { IfErr result (λ not_run. KeepsContents (schema_in df.now) (state_of D.Disk disk) (state_of D.Disk not_run.disk)) }
    ensures others { IfErr result (λ not_run. (not_run.refusal ≡ NoMemory → ⊥) → (schema : SchemaData) → KeepsContents schema (state_of D.Disk disk) (state_of D.Disk not_run.disk)) }
    ensures short { IfErr result (λ not_run. KeepsLogShort (state_of D.Disk disk) (state_of D.Disk not_run.disk)) }
{
    let watched: RunDisk<D, K> = Watched {
        disk,
        of: PhantomData,
    };
    match open_database(alloc, watched, df, clients.len() as u16) {
        Ok(database) => {
            let timed: RunDatabase<D, K> = Timed {
                database,
                of: PhantomData,
            };
            match serve_phases(rt, alloc, timed, clients, gate) {
                Ok(served) => Ok(close_after_run(served)),
                Err(timed) => Err(close_unused(timed)),
            }
        }
        Err(not_run) => Err(unwatched(not_run)),
    }
}
