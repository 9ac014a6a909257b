//! Clients on threads over one database, whatever database it is.

ghost use Rattle.std.specs.Prelude.{◌≡◌, ◌+◌, ◌<◌, ◌≤◌, [], ℕ, All, IfErr, IfOk, length};
ghost use Rattle.database_protocol.specs.declared.event.Event.{Event};
ghost use Rattle.database_protocol.specs.declared.operation.Op.{Op};
ghost use Rattle.database_meaning.specs.declared.contents.Contents.{Contents};
ghost use Rattle.database_meaning.specs.Setting.{Setting};
ghost use Rattle.client_threads.specs.clients.Phases.{AreThreePhases};
ghost use Rattle.client_threads.specs.served.Served.{HaveEnded, HaveEndedOrNot};

use crate::clients::{run_block_clients, run_phases};
use crate::served::clients::{EndedClient, ended_clients, tasks_of};
use client_core::Client;
use database_interface::Database;
use host_io::Gate;
use std::alloc::Global;
use std::sync::Wait;
use std::thread::Threads;

/// What is left of a run over a database: the database, and the clients.
#[derive(Drop)]
pub struct Served<B> {
    pub database: B,
    pub clients: Vec<EndedClient>,
}

/// Runs each client on a thread of its own to its end over the database, in which nothing has
/// happened. The client at place k has the number k. An error means out of memory: the database is as
/// it was, and no client has begun.
pub fn serve_together<R: Threads + Wait + Sync, B: Database + Send + Drop, G: Gate + Sync>(
    rt: &R,
    alloc: Global,
    database: B,
    clients: Vec<Client>,
    gate: &G,
) -> Result<Served<B>, B>
    requires some { 0 < length clients.items }
    requires few { length clients.items ≤ 16 }
    requires empty { B.trace database ≡ [] }
    requires active { (client : ℕ) → client < length clients.items → B.active database client }
    requires serves { (client : ℕ) (op : Op) → client < length clients.items → B.serves database client op }
    ensures opened { IfOk result (λ served. (f : Setting) (contents : Contents) → B.opened database f contents → B.opened served.database f contents) }
    ensures events { IfOk result (λ served. All (λ (e : Event). e.client < length clients.items) (B.trace served.database)) }
    ensures ended { IfOk result (λ served. (f : Setting) → B.has_setting database f → HaveEnded f (B.trace served.database) 0 clients.items served.clients.items) }
    ensures back { IfErr result (λ d. d ≡ database) }
{
    let Ok(ended) = Vec::with_capacity(alloc, clients.len()) else {
        return Err(database);
    };
    let Ok(tasks) = tasks_of::<B>(alloc, clients) else {
        return Err(database);
    };
    let mut tasks = tasks;
    match run_block_clients(rt, alloc, database, 0, tasks.as_mut_slice(), gate) {
        Ok(database) => Ok(Served {
            database,
            clients: ended_clients(tasks, ended),
        }),
        Err(database) => Err(database),
    }
}

/// Runs the first client alone, then all others but the last side by side, and then the last one
/// alone, over the database, in which nothing has happened. The client at place k has the number k.
/// The clients of a phase for which there is no memory do not begin. An error means out of memory:
/// the database is as it was, and no client has begun.
pub fn serve_in_phases<R: Threads + Wait + Sync, B: Database + Send + Drop, G: Gate + Sync>(
    rt: &R,
    alloc: Global,
    database: B,
    clients: Vec<Client>,
    gate: &G,
) -> Result<Served<B>, B>
    requires some { 3 ≤ length clients.items }
    requires few { length clients.items ≤ 16 }
    requires empty { B.trace database ≡ [] }
    requires active { (client : ℕ) → client < length clients.items → B.active database client }
    requires serves { (client : ℕ) (op : Op) → client < length clients.items → B.serves database client op }
    ensures opened { IfOk result (λ served. (f : Setting) (contents : Contents) → B.opened database f contents → B.opened served.database f contents) }
    ensures phases { IfOk result (λ served. (between : ℕ) → length clients.items ≡ between + 2 → AreThreePhases between (B.trace served.database)) }
    ensures ended { IfOk result (λ served. (f : Setting) → B.has_setting database f → HaveEndedOrNot f (B.trace served.database) 0 clients.items served.clients.items) }
    ensures back { IfErr result (λ d. d ≡ database) }
{
    let Ok(ended) = Vec::with_capacity(alloc, clients.len()) else {
        return Err(database);
    };
    let Ok(tasks) = tasks_of::<B>(alloc, clients) else {
        return Err(database);
    };
    let mut tasks = tasks;
    let database = run_phases(rt, alloc, database, tasks.as_mut_slice(), gate);
    Ok(Served {
        database,
        clients: ended_clients(tasks, ended),
    })
}
