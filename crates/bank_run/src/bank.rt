//! One bank, from its numbers to the report.

ghost use Rattle.std.specs.Prelude.{◌≡◌, ◌++◌, ◌+◌, ◌≤◌, ◌⊎◌, [], ℕ, List, IfErr, IfOk, OnOk, length, vec_capacity};
ghost use Rattle.run_works.specs.Disks.{KeepsLogShort, state_of};
ghost use Rattle.client_threads.specs.served.Served.{AreToDo, IsClientOf};
ghost use Rattle.client_threads.specs.served.Works.{Work};
ghost use Rattle.run_works.specs.Works.{HasNotRun};
ghost use Rattle.bank_run.specs.Inside.{AreClientsOf, IsBankReady};
ghost use Rattle.bank_run.specs.Phases.{HasRunPhases};
ghost use Rattle.bank_run.specs.Result.{BankResult, PreventsBank, bank_schema};
ghost use Rattle.bank_run.specs.Texts.{IsBank};

use crate::inputs::{BANK_SCHEMA, Bank};
use crate::texts::{names_of, texts_of};
use abl_values::Schema;
use block_code::Code;
use client_core::Client;
use client_threads::served::client_to_run;
use command_arguments::Mode;
use database_protocol::ClientEnd;
use host_io::{Gate, Out};
use run_report::{Refusal, ReportForm, refused};
use run_works::{NotRun, Outcome, Ran, report, run_in_phases};
use source_files::{ClientTexts, Compiled, compiled_in, schema_of};
use std::alloc::{AllocError, Global};
use std::sync::Wait;
use std::thread::Threads;
use storage::Disk;

/// How many units each client may spend.
pub const BANK_UNITS: u64 = 100_000_000;

/// What a bank needs: the schema, the clients, ready to run, and room for their ends.
#[derive(Drop)]
struct Loaded {
    schema: Schema,
    clients: Vec<Client>,
    ends: Vec<ClientEnd>,
}

/// Runs a bank over the database on the disk: a client that sets up the accounts, then the clients that
/// make transfers, side by side, then one that adds up the balances. It writes the report and the lines
/// of the status, reads no file, and hands the disk back in every case. A client comes to the gate
/// before each of its steps.
pub fn run_bank<R: Threads + Wait + Sync, D: Disk + Send + Drop, O: Out, G: Gate + Sync>(
    rt: &R,
    alloc: Global,
    disk: D,
    out: &mut O,
    gate: &G,
    bank: Bank,
) -> Outcome<D>
    requires { IsBank bank }
    ensures did { BankResult bank (state_of D.Disk) disk (O.state out.old) (O.state out.new) result }
    ensures log { KeepsLogShort (state_of D.Disk disk) (state_of D.Disk result.disk) }
{
    untouched(&disk);
    let Ok(names) = names_of(alloc, bank.clients) else {
        let report = refused(alloc, out, &[], Refusal::NoMemory);
        return Outcome { report, disk };
    };
    match load(alloc, bank) {
        Err(refusal) => {
            let report = refused(alloc, out, &names, refusal);
            Outcome { report, disk }
        }
        Ok(loaded) => {
            let Loaded {
                schema,
                clients,
                ends,
            } = loaded;
            let form = ReportForm {
                mode: Mode::Quiet,
                schema: &schema,
                names: &names,
            };
            execute(rt, alloc, disk, out, gate, &form, clients, ends)
        }
    }
}

/// A disk that is not touched keeps its log short.
fn untouched<D: Disk>(disk: &D)
    ensures { KeepsLogShort (state_of D.Disk disk.now) (state_of D.Disk disk.now) }
{}

/// Compiles the sources and begins the clients. All memory that is needed before the first phase is
/// taken, but for that of the database and of the threads.
fn load(alloc: Global, bank: Bank) -> Result<Loaded, Refusal>
    requires { IsBank bank }
    ensures ready { IfOk result (λ loaded. IsBankReady bank loaded.schema loaded.clients.items) }
    ensures many { IfOk result (λ loaded. length loaded.clients.items ≡ bank.clients + 2) }
    ensures room { IfOk result (λ loaded. (loaded.ends.items ≡ []) × (length loaded.clients.items ≤ vec_capacity loaded.ends)) }
    ensures prevented { IfErr result (PreventsBank bank) }
{
    let Ok(texts) = texts_of(alloc, bank) else {
        return Err(Refusal::NoMemory);
    };
    let Compiled { schema, codes } = compiled_in(alloc, BANK_SCHEMA, &texts)?;
    match ready(alloc, schema, codes, texts) {
        Ok(loaded) => Ok(loaded),
        Err(_) => Err(Refusal::NoMemory),
    }
}

/// The clients of these codes and texts, and room for their ends.
fn ready(
    alloc: Global,
    schema: Schema,
    codes: Vec<Code>,
    texts: Vec<ClientTexts>,
) -> Result<Loaded, AllocError>
    requires many { length codes.items ≡ length texts.items }
    ensures schema { IfOk result (λ loaded. loaded.schema ≡ schema) }
    ensures clients { IfOk result (λ loaded. AreClientsOf BANK_UNITS bank_schema.tables codes.items texts.items loaded.clients.items) }
    ensures room { IfOk result (λ loaded. (loaded.ends.items ≡ []) × (length loaded.clients.items ≤ vec_capacity loaded.ends)) }
{
    let mut clients = Vec::new(alloc);
    begin_clients(alloc, codes, texts, &mut clients)?;
    let ends = Vec::with_capacity(alloc, clients.len())?;
    Ok(Loaded {
        schema,
        clients,
        ends,
    })
}

/// Adds a client for each code, with the input of its texts and a schema of its own.
fn begin_clients(
    alloc: Global,
    codes: Vec<Code>,
    texts: Vec<ClientTexts>,
    clients: &mut Vec<Client>,
) -> Result<(), AllocError>
    requires { length codes.items ≡ length texts.items }
    ensures { OnOk result ((more : List _) × (clients.new.items ≡ clients.old.items ++ more) × AreClientsOf BANK_UNITS bank_schema.tables codes.items texts.items more) }
{
    let mut codes = codes;
    let mut texts = texts;
    if codes.is_empty() || texts.is_empty() {
        return Ok(());
    }
    clients.reserve(1)?;
    let code = codes.remove(0);
    let text = texts.remove(0);
    let client = begin_client(alloc, code, text)?;
    clients.push_reserved(client);
    begin_clients(alloc, codes, texts, clients)
}

/// The client of this code with the input of its texts. The schema breaks no rule, so that an error in it
/// means out of memory.
fn begin_client(alloc: Global, code: Code, texts: ClientTexts) -> Result<Client, AllocError>
    ensures { IfOk result (IsClientOf BANK_UNITS bank_schema.tables code texts.input []) }
{
    let Ok(schema) = schema_of(alloc, BANK_SCHEMA) else {
        return Err(AllocError);
    };
    let ClientTexts { source, input } = texts;
    drop(source);
    client_to_run(alloc, schema, BANK_UNITS, code, input, Vec::new(alloc))
}

/// Runs the clients in three phases, and writes the report and the lines of the status. Room for the ends
/// is in `ends`.
fn execute<R: Threads + Wait + Sync, D: Disk + Send + Drop, O: Out, G: Gate + Sync>(
    rt: &R,
    alloc: Global,
    disk: D,
    out: &mut O,
    gate: &G,
    form: &ReportForm<'_>,
    clients: Vec<Client>,
    ends: Vec<ClientEnd>,
) -> Outcome<D>
    requires some { 3 ≤ length clients.items }
    requires few { length clients.items ≤ 16 }
    requires schema { form.now.schema.now ≡ bank_schema }
    requires none { ends.items ≡ [] }
    requires room { length clients.items ≤ vec_capacity ends }
    ensures ran { (units between : ℕ) (works : List Work) → length clients.items ≡ between + 2 → AreToDo units works clients.items →
        HasRunPhases form.now.mode form.now.schema.now form.now.names.now units between works (state_of D.Disk disk) (state_of D.Disk result.disk) (O.state out.old) (O.state out.new) result.report
        ⊎ HasNotRun form.now.schema.now form.now.names.now (state_of D.Disk disk) (state_of D.Disk result.disk) (O.state out.old) (O.state out.new) result.report }
    ensures log { KeepsLogShort (state_of D.Disk disk) (state_of D.Disk result.disk) }
{
    match run_in_phases(rt, alloc, disk, BANK_SCHEMA, clients, gate) {
        Ok(ran) => {
            let Ran {
                disk,
                trace,
                clients,
            } = ran;
            let report = report(out, form, clients, trace, ends);
            Outcome { report, disk }
        }
        Err(not_run) => {
            let NotRun { disk, refusal } = not_run;
            let report = refused(alloc, out, form.names, refusal);
            Outcome { report, disk }
        }
    }
}
