//! The clients of a run on threads over its database, whatever the store of that database is.

ghost use Rattle.std.specs.Prelude.{◌≡◌, ◌<◌, ◌+◌, ◌≤◌, [], ℕ, All, IfErr, IfOk, length};
ghost use Rattle.database_protocol.specs.declared.event.Event.{Event};
ghost use Rattle.database_meaning.specs.declared.contents.Contents.{Contents};
ghost use Rattle.database_meaning.specs.Setting.{Setting};
ghost use Rattle.client_threads.specs.clients.Phases.{AreThreePhases};
ghost use Rattle.client_threads.specs.served.Served.{HaveEnded, HaveEndedOrNot};

use crate::timed::Timed;
use crate::watched::Start;
use client_core::Client;
use client_threads::served::{Served, serve_in_phases, serve_together};
use database_interface::Database;
use db_machine::Db;
use host_io::Gate;
use row_store::RowStore;
use std::alloc::Global;
use std::sync::Wait;
use std::thread::Threads;

/// Runs each client on a thread of its own to its end over the database, in which nothing has
/// happened. An error means out of memory: the database is as it was, and no client has begun.
pub(crate) fn serve<
    R: Threads + Wait + Sync,
    S: RowStore + Send + Drop,
    K: Start + Send,
    G: Gate + Sync,
>(
    rt: &R,
    alloc: Global,
    timed: Timed<S, K>,
    clients: Vec<Client>,
    gate: &G,
) -> Result<Served<Timed<S, K>>, Timed<S, K>>
    requires some { 0 < length clients.items }
    requires few { length clients.items ≤ 16 }
    requires empty { timed.database.trace ≡ [] }
    requires active { (client : ℕ) → client < length clients.items → ⟦<Db<S> as Database>⟧.active timed.database client }
    ensures opened { IfOk result (λ served. (f : Setting) (contents : Contents) → ⟦<Db<S> as Database>⟧.opened timed.database f contents → ⟦<Db<S> as Database>⟧.opened served.database.database f contents) }
    ensures events { IfOk result (λ served. All (λ (e : Event). e.client < length clients.items) served.database.database.trace) }
    ensures ended { IfOk result (λ served. (f : Setting) → ⟦<Db<S> as Database>⟧.has_setting timed.database f → HaveEnded f served.database.database.trace 0 clients.items served.clients.items) }
    ensures back { IfErr result (λ d. d ≡ timed) }
{
    serve_together(rt, alloc, timed, clients, gate)
}

/// The same as `serve`, in three phases: the first client alone, then all others but the last side by
/// side, then the last one alone. The clients of a phase for which there is no memory do not begin.
pub(crate) fn serve_phases<
    R: Threads + Wait + Sync,
    S: RowStore + Send + Drop,
    K: Start + Send,
    G: Gate + Sync,
>(
    rt: &R,
    alloc: Global,
    timed: Timed<S, K>,
    clients: Vec<Client>,
    gate: &G,
) -> Result<Served<Timed<S, K>>, Timed<S, K>>
    requires some { 3 ≤ length clients.items }
    requires few { length clients.items ≤ 16 }
    requires empty { timed.database.trace ≡ [] }
    requires active { (client : ℕ) → client < length clients.items → ⟦<Db<S> as Database>⟧.active timed.database client }
    ensures opened { IfOk result (λ served. (f : Setting) (contents : Contents) → ⟦<Db<S> as Database>⟧.opened timed.database f contents → ⟦<Db<S> as Database>⟧.opened served.database.database f contents) }
    ensures phases { IfOk result (λ served. (between : ℕ) → length clients.items ≡ between + 2 → AreThreePhases between served.database.database.trace) }
    ensures ended { IfOk result (λ served. (f : Setting) → ⟦<Db<S> as Database>⟧.has_setting timed.database f → HaveEndedOrNot f served.database.database.trace 0 clients.items served.clients.items) }
    ensures back { IfErr result (λ d. d ≡ timed) }
{
    serve_in_phases(rt, alloc, timed, clients, gate)
}
