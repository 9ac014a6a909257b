//! Clients that run in phases, one phase after the other over one database.

ghost use Rattle.std.specs.Prelude.{◌≡◌, ◌+◌, ◌<◌, ◌≤◌, [], ℕ, length};
ghost use Rattle.database_protocol.specs.declared.operation.Op.{Op};
ghost use Rattle.client_runner.specs.Served.{IsAmong, IsKept};
ghost use Rattle.database_meaning.specs.declared.contents.Contents.{Contents};
ghost use Rattle.database_meaning.specs.Setting.{Setting};
ghost use Rattle.client_threads.specs.clients.Outcome.{own_events};
ghost use Rattle.client_threads.specs.clients.Phases.{AreLeftOut, AreThreePhases, HaveRunOrNot};

use crate::clients::run::{ClientTask, run_block_clients};
use database_interface::Database;
use host_io::Gate;
use std::alloc::Global;
use std::sync::Wait;
use std::thread::Threads;

/// Runs the first client alone, then all others but the last side by side, and then the last one alone.
/// The client at place k is client k of the database, whose trace is empty; it serves each of them every
/// operation. The clients of a phase for which there is no memory do not begin.
pub fn run_phases<R: Threads + Wait + Sync, D: Database + Send, G: Gate + Sync>(
    rt: &R,
    alloc: Global,
    database: D,
    tasks: &mut [ClientTask<D>],
    gate: &G,
) -> D
    requires some { 3 ≤ length tasks.old }
    requires room { length tasks.old ≤ 65535 }
    requires empty { D.trace database ≡ [] }
    requires active { (client : ℕ) → client < length tasks.old → D.active database client }
    requires serves { (client : ℕ) (op : Op) → client < length tasks.old → D.serves database client op }
    ensures opened { (setting : Setting) (contents : Contents) → D.opened database setting contents → D.opened result setting contents }
    ensures phases { (clients : ℕ) → length tasks.old ≡ clients + 2 → AreThreePhases clients (D.trace result) }
    ensures ran { HaveRunOrNot (D.has_setting database) (D.trace result) 0 tasks.old tasks.new }
{
    let between = tasks.len() - 2;
    let (first, others) = tasks.split_at_mut(1);
    let (middle, last) = others.split_at_mut(between);
    let database = run_phase(rt, alloc, database, 0, first, gate);
    let database = run_phase(rt, alloc, database, 1, middle, gate);
    run_phase(rt, alloc, database, between as u16 + 1, last, gate)
}

/// Runs the clients of a phase side by side. The client at place k is client `first + k` of the database.
/// Where there is no memory for that, none of them begins, and the database is as it was.
fn run_phase<R: Threads + Wait + Sync, D: Database + Send, G: Gate + Sync>(
    rt: &R,
    alloc: Global,
    database: D,
    first: u16,
    tasks: &mut [ClientTask<D>],
    gate: &G,
) -> D
    requires some { 0 < length tasks.old }
    requires room { first + length tasks.old ≤ 65535 }
    requires fresh { (client : ℕ) → first ≤ client → own_events client (D.trace database) ≡ [] }
    requires active { (client : ℕ) → IsAmong first (length tasks.old) client → D.active database client }
    requires serves { (client : ℕ) (op : Op) → IsAmong first (length tasks.old) client → D.serves database client op }
    ensures kept { IsKept D.has_setting D.opened D.trace D.serves D.active database result first (length tasks.old) }
    ensures ran { HaveRunOrNot (D.has_setting database) (D.trace result) first tasks.old tasks.new }
{
    match run_block_clients(rt, alloc, database, first, tasks, gate) {
        Ok(database) => database,
        Err(database) => {
            leave_out(tasks);
            database
        }
    }
}

/// The clients have no end, since they have not begun.
fn leave_out<D: Database>(tasks: &mut [ClientTask<D>])
    ensures { AreLeftOut tasks.new }
{
    for task in tasks.iter_mut() {
        task.end = None;
    }
}
