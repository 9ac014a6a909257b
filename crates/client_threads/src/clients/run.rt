//! The run.

ghost use Rattle.std.specs.Prelude.{◌≡◌, ◌+◌, ◌<◌, ◌≤◌, ℕ, [], length, slice_index_or, IfOk, IfErr};
ghost use Rattle.database_protocol.specs.declared.operation.Op.{Op};
ghost use Rattle.database_meaning.specs.declared.contents.Contents.{Contents};
ghost use Rattle.database_meaning.specs.Setting.{Setting};
ghost use Rattle.database_meaning.specs.Traces.{IsLegal};
ghost use Rattle.client_runner.specs.Served.{IsAmong, IsKept};
ghost use Rattle.client_threads.specs.clients.Outcome.{own_events};
ghost use Rattle.client_threads.specs.clients.Ran.{HasRunIn};

use crate::runs::laws::every_run_is_careful;
use crate::session::ClientSession;
use block_meaning::laws::written_only_grows;
use client_runner::{Task, run_clients};
use database_interface::Database;
use host_io::Gate;
use std::alloc::Global;
use std::sync::Wait;
use std::thread::Threads;

/// A client of a run over a database of this type.
pub type ClientTask<D> = Task<ClientSession, D>;

/// Runs each client on a thread of its own over the database, and gives the database back. The
/// client at place k is client `first + k` of the database, which has no event of a client numbered
/// `first` or above; it serves each of them every operation. The gate is called before each step. `Err`
/// means that there was no memory for the lock: the database is as it was, and no client has begun.
pub fn run_block_clients<R: Threads + Wait + Sync, D: Database + Send, G: Gate + Sync>(
    rt: &R,
    alloc: Global,
    database: D,
    first: u16,
    tasks: &mut [ClientTask<D>],
    gate: &G,
) -> Result<D, D>
    requires some { 0 < length tasks.old }
    requires room { first + length tasks.old ≤ 65535 }
    requires fresh { (client : ℕ) → first ≤ client → own_events client (D.trace database) ≡ [] }
    requires active { (client : ℕ) → IsAmong first (length tasks.old) client → D.active database client }
    requires serves { (client : ℕ) (op : Op) → IsAmong first (length tasks.old) client → D.serves database client op }
    ensures kept { IfOk result (λ d. IsKept D.has_setting D.opened D.trace D.serves D.active database d first (length tasks.old)) }
    ensures legal { (setting : Setting) (contents : Contents) → D.opened database setting contents → IfOk result (λ d. IsLegal setting contents (D.trace d)) }
    ensures ran { IfOk result (λ d. (k : ℕ) (t : _) → k < length tasks.old → HasRunIn (D.has_setting database) (D.trace d) (first + k) (slice_index_or tasks.old k t) (slice_index_or tasks.new k t)) }
    ensures back { IfErr result (λ d. d ≡ database) }
{
    written_only_grows();
    every_run_is_careful();
    run_clients(rt, alloc, database, first, tasks, gate)
}
