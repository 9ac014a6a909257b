//! A run: the clients on threads over the database of the disk, the report, and the lines of the status.

ghost use Rattle.std.specs.Prelude.{◌≡◌, ◌++◌, ◌+◌, ◌<◌, ◌≤◌, ◌⊎◌, ℕ, List, [], length, map, vec_capacity, vec_len};
ghost use Rattle.client_output.specs.declared.section.Section.{Section};
ghost use Rattle.source_files.specs.Compiled.{schema_in};
ghost use Rattle.run_works.specs.Disks.{KeepsLogShort, state_of};
ghost use Rattle.run_works.specs.Works.{HasNotRun, HasRun};
ghost use Rattle.client_threads.specs.served.Served.{AreToDo, HaveSections, end_or_none};
ghost use Rattle.client_threads.specs.served.Works.{Work};
ghost use Rattle.run_report.specs.Ending.{IsReported};

use crate::closing::Ran;
use crate::database::run_together;
use crate::opening::NotRun;
use crate::outcome::Outcome;
use crate::text::write_run;
use client_core::Client;
use client_threads::served::EndedClient;
use database_protocol::{ClientEnd, Trace};
use host_io::{Gate, Out};
use run_report::{
    Ends, Refusal, Report, ReportForm, has_closed, refusal_after, refused, status_of, write_refusal,
};
use std::alloc::Global;
use std::sync::Wait;
use std::thread::Threads;
use storage::Disk;

/// Runs each client on a thread of its own over the database that the disk has of the schema of this
/// text, and writes the report and the lines of the status. All memory that a run needs before a client
/// begins is taken first.
pub fn execute<R: Threads + Wait + Sync, D: Disk + Send + Drop, O: Out, G: Gate + Sync>(
    rt: &R,
    alloc: Global,
    out: &mut O,
    gate: &G,
    form: &ReportForm<'_>,
    disk: D,
    df: &[u8],
    clients: Vec<Client>,
) -> Outcome<D>
    requires some { 0 < length clients.items }
    requires few { length clients.items ≤ 16 }
    requires schema { form.now.schema.now ≡ schema_in df.now }
    ensures ran { (units : ℕ) (works : List Work) → AreToDo units works clients.items →
        HasRun form.now.mode form.now.schema.now form.now.names.now units works (state_of D.Disk disk) (state_of D.Disk result.disk) (O.state out.old) (O.state out.new) result.report
        ⊎ HasNotRun form.now.schema.now form.now.names.now (state_of D.Disk disk) (state_of D.Disk result.disk) (O.state out.old) (O.state out.new) result.report }
    ensures log { KeepsLogShort (state_of D.Disk disk) (state_of D.Disk result.disk) }
{
    let Ok(ends) = Vec::with_capacity(alloc, clients.len()) else {
        return out_of_memory(alloc, out, form, disk);
    };
    match run_together(rt, alloc, disk, df, clients, gate) {
        Ok(ran) => {
            let Ran {
                disk,
                trace,
                clients,
            } = ran;
            let report = report(out, form, clients, trace, ends);
            Outcome { report, disk }
        }
        Err(not_run) => {
            let NotRun { disk, refusal } = not_run;
            let report = refused(alloc, out, form.names, refusal);
            Outcome { report, disk }
        }
    }
}

/// The outcome of a run for which there is no memory before it comes to the disk.
fn out_of_memory<D: Disk + Drop, O: Out>(
    alloc: Global,
    out: &mut O,
    form: &ReportForm<'_>,
    disk: D,
) -> Outcome<D>
    ensures not_run { HasNotRun form.now.schema.now form.now.names.now (state_of D.Disk disk) (state_of D.Disk result.disk) (O.state out.old) (O.state out.new) result.report }
    ensures log { KeepsLogShort (state_of D.Disk disk) (state_of D.Disk result.disk) }
{
    let report = refused(alloc, out, form.names, Refusal::NoMemory);
    Outcome { report, disk }
}

/// Writes the report of a run whose clients ended so, and the lines of the status. Room for the ends
/// is in `ends`.
pub fn report<O: Out>(
    out: &mut O,
    form: &ReportForm<'_>,
    clients: Vec<EndedClient>,
    trace: Trace,
    ends: Vec<ClientEnd>,
) -> Report
    requires none { ends.items ≡ [] }
    requires room { length clients.items ≤ vec_capacity ends }
    requires few { length clients.items ≤ 16 }
    ensures reported { (parts : List (List Section)) × HaveSections clients.items parts × IsReported form.now.mode form.now.schema.now form.now.names.now (map (λ c. end_or_none c.end) clients.items) parts (O.state out.old) (O.state out.new) result }
    ensures trace { result.trace ≡ trace }
{
    let whole = write_run(out, form, &clients, trace.as_slice()).is_ok();
    let ends = ends_of(clients, ends);
    let refusal = refusal_after(has_closed(trace.as_slice()), &ends, whole);
    write_refusal(out, form.names, &ends, &refusal);
    Report {
        status: status_of(&refusal),
        trace,
        ends: Ends::from_vec(ends),
        refusal,
    }
}

/// Adds how each client has ended, in order. Room for the ends is in `ends`.
fn ends_of(clients: Vec<EndedClient>, ends: Vec<ClientEnd>) -> Vec<ClientEnd>
    requires room { vec_len ends + length clients.items ≤ vec_capacity ends }
    ensures { result.items ≡ ends.items ++ map (λ c. end_or_none c.end) clients.items }
{
    let mut clients = clients;
    let mut ends = ends;
    if clients.is_empty() {
        return ends;
    }
    let ended = clients.remove(0);
    ends.push_reserved(end_of(ended));
    ends_of(clients, ends)
}

/// How the client has ended.
fn end_of(ended: EndedClient) -> ClientEnd
    ensures { result ≡ end_or_none ended.end }
{
    let EndedClient { client, end } = ended;
    drop(client);
    match end {
        Some(end) => end,
        None => ClientEnd::NoMemory,
    }
}
