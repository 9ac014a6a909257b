//! One run of a number of clients, at any gate.

ghost use Rattle.std.specs.Prelude.{◌≡◌, ◌<◌, ◌≤◌, [], ℕ};
ghost use Rattle.database_protocol.specs.declared.operation.Op.{Op};

use crate::database::empty;
use crate::script::{Script, Work};
use client_runner::{Task, run_clients};
use database_interface::Database;
use database_protocol::ClientEnd;
use host_io::{Gate, MeetGate, OpenGate};
use std::alloc::{AllocError, Global};
use std::sync::Wait;
use std::thread::Threads;

/// How many turns a client waits at a gate for clients that come.
const PATIENT: u64 = 100_000_000;

/// How many turns a client waits at a gate for one that never comes.
const IMPATIENT: u64 = 1_000;

/// What all runs together came to: how many clients ended normally, how many events the traces have
/// whose answer is not Blocked, how many records were created, and for how many runs there was no memory.
#[derive(Drop)]
pub struct Totals {
    pub ended: u64,
    pub events: u64,
    pub created: u64,
    pub failed: u64,
}

impl Totals {
    /// Nothing has run.
    pub fn new() -> Totals {
        Totals {
            ended: 0,
            events: 0,
            created: 0,
            failed: 0,
        }
    }

    /// Adds a run, whose database has this number of events.
    fn add<D: Database>(&mut self, events: u64, tasks: &[Task<Script, D>]) {
        let mut waited = 0u64;
        for task in tasks {
            if let Some(ClientEnd::Normal) = &task.end {
                self.ended = self.ended.saturating_add(1);
            }
            self.created = self.created.saturating_add(task.client.created);
            waited = waited.saturating_add(task.client.waited);
        }
        self.events = self.events.saturating_add(events.saturating_sub(waited));
    }
}

/// Runs the clients once, and counts.
pub fn run<R: Threads + Wait + Sync>(
    rt: &R,
    alloc: Global,
    clients: u16,
    work: Work,
    totals: &mut Totals,
)
    requires some { 0 < clients }
    requires few { clients ≤ 16 }
{
    if run_once(rt, alloc, clients, work, &OpenGate, totals).is_err() {
        totals.failed = totals.failed.saturating_add(1);
    }
}

/// Runs the clients once, at a gate that holds each before its first operation until `expected` clients
/// have come. Whether all of them came while each still waited: then they ran beside each other.
pub fn meet<R: Threads + Wait + Sync>(rt: &R, alloc: Global, clients: u16, expected: u16) -> bool
    requires some { 0 < clients }
    requires few { clients ≤ 16 }
{
    let turns = if expected <= clients {
        PATIENT
    } else {
        IMPATIENT
    };
    let gate = MeetGate::new(expected, 1, turns);
    let mut totals = Totals::new();
    run_once(rt, alloc, clients, Work::Nothing, &gate, &mut totals).is_ok() && gate.met()
}

/// Runs the clients once over a new database, and counts.
fn run_once<R: Threads + Wait + Sync, G: Gate + Sync>(
    rt: &R,
    alloc: Global,
    clients: u16,
    work: Work,
    gate: &G,
    totals: &mut Totals,
) -> Result<(), AllocError>
    requires some { 0 < clients }
    requires few { clients ≤ 16 }
{
    let database = empty(alloc, clients)?;
    run_over(rt, alloc, database, clients, work, gate, totals)
}

/// Runs the clients once over a database in which nothing has happened, and counts.
fn run_over<R: Threads + Wait + Sync, D: Database + Send + Drop, G: Gate + Sync>(
    rt: &R,
    alloc: Global,
    database: D,
    clients: u16,
    work: Work,
    gate: &G,
    totals: &mut Totals,
) -> Result<(), AllocError>
    requires some { 0 < clients }
    requires few { clients ≤ 16 }
    requires empty { D.trace database ≡ [] }
    requires active { (client : ℕ) → client < clients → D.active database client }
    requires serves { (client : ℕ) (op : Op) → client < clients → D.serves database client op }
{
    let mut tasks = Vec::with_capacity(alloc, clients as usize)?;
    for _k in 0..clients {
        tasks.push_reserved(Task::new(Script::new(alloc, work)));
    }
    match run_clients(rt, alloc, database, 0, tasks.as_mut_slice(), gate) {
        Ok(database) => {
            totals.add(database.events(), tasks.as_slice());
            Ok(())
        }
        Err(_) => Err(AllocError),
    }
}
