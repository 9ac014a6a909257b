//! One command, from the arguments to the report.

ghost use Rattle.std.specs.Prelude.{ℕ};
ghost use Rattle.host_io.specs.Files.{FileState};
ghost use Rattle.command_arguments.specs.CommandLine.{Names, NamesBank, NamesCheck};
ghost use Rattle.run_works.specs.Disks.{KeepsLogShort, state_of};
ghost use Rattle.abl_cli.specs.Command.{CommandResult};
ghost use Rattle.abl_cli.specs.Stored.{WritesNothingIfRefused};

use crate::check::check_sources;
use crate::clients::{clients_of, names_of};
use crate::creating::create_schema;
use crate::dumping::dump_table;
use crate::load::{Loaded, load};
use bank_run::inputs::Bank;
use bank_run::run_bank;
use command_arguments::{Arg, BankArguments, CheckArguments, Command, RunArguments, read_command};
use host_io::{Files, Gate, Out};
use run_report::{Refusal, ReportForm, refused};
use run_works::{Outcome, execute};
use std::alloc::Global;
use std::sync::Wait;
use std::thread::Threads;
use storage::Disk;

/// Does what the arguments say with the database on the disk, and hands the disk back in every case.
/// `create` makes the database of a schema file. `run` reads the schema file, the sources and the
/// inputs, compiles the sources, opens the database, and runs each client on a thread of its own over
/// it. `check` reads the schema file and the sources, and lists the blocks of each source. `dump`
/// writes the committed rows of a table. `bank` reads no file, and runs clients that transfer amounts
/// between accounts. The report is written to standard output, and the lines of the status to standard
/// error. A client comes to the gate before each of its steps. Where no image that a crash at the call
/// may leave has an area of the log longer than 167,772,160 bytes, none of a moment of the call has one.
/// A command that is refused, by an argument, a file, a rule, a table or by what the disk holds, writes
/// nothing to the disk.
pub fn run_abl<R: Threads + Wait + Sync, F: Files, D: Disk + Send + Drop, O: Out, G: Gate + Sync>(
    rt: &R,
    alloc: Global,
    arguments: &[Arg],
    files: &mut F,
    disk: D,
    out: &mut O,
    gate: &G,
) -> Outcome<D>
    ensures did { CommandResult (state_of D.Disk) disk arguments.now (F.state files.old) (F.state files.new).faults (O.state out.old) (O.state out.new) result }
    ensures refused { WritesNothingIfRefused (state_of D.Disk disk) (state_of D.Disk result.disk) result.report }
    ensures log { KeepsLogShort (state_of D.Disk disk) (state_of D.Disk result.disk) }
{
    obey(rt, alloc, arguments, files, disk, out, gate)
}

/// Does what the arguments say, or refuses it.
fn obey<R: Threads + Wait + Sync, F: Files, D: Disk + Send + Drop, O: Out, G: Gate + Sync>(
    rt: &R,
    alloc: Global,
    arguments: &[Arg],
    files: &mut F,
    disk: D,
    out: &mut O,
    gate: &G,
) -> Outcome<D>
    ensures did { CommandResult (state_of D.Disk) disk arguments.now (F.state files.old) (F.state files.new).faults (O.state out.old) (O.state out.new) result }
    ensures log { KeepsLogShort (state_of D.Disk disk) (state_of D.Disk result.disk) }
{
    untouched(&disk);
    match read_command(arguments) {
        Err(argument) => {
            let report = refused(alloc, out, &[], Refusal::Usage { argument });
            Outcome { report, disk }
        }
        Ok(Command::Create(create)) => {
            create_schema(alloc, arguments, files, disk, out, &create)
        }
        Ok(Command::Run(run)) => run_sources(rt, alloc, arguments, files, disk, out, gate, &run),
        Ok(Command::Check(check)) => list_sources(alloc, arguments, files, disk, out, &check),
        Ok(Command::Dump(dump)) => dump_table(alloc, arguments, files, disk, out, &dump),
        Ok(Command::Bank(bank)) => run_bank_of(rt, alloc, arguments, disk, out, gate, bank),
    }
}

/// A disk that is not touched keeps its log short.
fn untouched<D: Disk>(disk: &D)
    ensures { KeepsLogShort (state_of D.Disk disk.now) (state_of D.Disk disk.now) }
{}

/// Lists the sources that the arguments name. It does not come to the disk.
fn list_sources<F: Files, D: Disk + Drop, O: Out>(
    alloc: Global,
    arguments: &[Arg],
    files: &mut F,
    disk: D,
    out: &mut O,
    check: &CheckArguments<'_>,
) -> Outcome<D>
    requires { NamesCheck arguments.now check.now }
    ensures did { CommandResult (state_of D.Disk) disk arguments.now (F.state files.old) (F.state files.new).faults (O.state out.old) (O.state out.new) result }
    ensures log { KeepsLogShort (state_of D.Disk disk) (state_of D.Disk result.disk) }
{
    let report = check_sources(alloc, files, out, check);
    Outcome { report, disk }
}

/// Runs the bank that the arguments name. It reads no file.
fn run_bank_of<R: Threads + Wait + Sync, D: Disk + Send + Drop, O: Out, G: Gate + Sync>(
    rt: &R,
    alloc: Global,
    arguments: &[Arg],
    disk: D,
    out: &mut O,
    gate: &G,
    read: BankArguments,
) -> Outcome<D>
    requires { NamesBank arguments.now read }
    ensures did { (files : FileState) (faults : ℕ) → CommandResult (state_of D.Disk) disk arguments.now files faults (O.state out.old) (O.state out.new) result }
    ensures log { KeepsLogShort (state_of D.Disk disk) (state_of D.Disk result.disk) }
{
    let bank = Bank {
        start: read.start,
        clients: read.clients,
        accounts: read.accounts,
        transfers: read.transfers,
    };
    run_bank(rt, alloc, disk, out, gate, bank)
}

/// Runs the clients that the arguments name.
fn run_sources<R: Threads + Wait + Sync, F: Files, D: Disk + Send + Drop, O: Out, G: Gate + Sync>(
    rt: &R,
    alloc: Global,
    arguments: &[Arg],
    files: &mut F,
    disk: D,
    out: &mut O,
    gate: &G,
    run: &RunArguments<'_>,
) -> Outcome<D>
    requires { Names arguments.now run.now }
    ensures did { CommandResult (state_of D.Disk) disk arguments.now (F.state files.old) (F.state files.new).faults (O.state out.old) (O.state out.new) result }
    ensures log { KeepsLogShort (state_of D.Disk disk) (state_of D.Disk result.disk) }
{
    untouched(&disk);
    let Ok(clients) = clients_of(alloc, run.clients) else {
        let report = refused(alloc, out, &[], Refusal::NoMemory);
        return Outcome { report, disk };
    };
    let Ok(names) = names_of(alloc, &clients) else {
        let report = refused(alloc, out, &[], Refusal::NoMemory);
        return Outcome { report, disk };
    };
    match load(alloc, files, run.schema, &clients, run.steps) {
        Err(refusal) => {
            let report = refused(alloc, out, &names, refusal);
            Outcome { report, disk }
        }
        Ok(loaded) => {
            let Loaded {
                df,
                schema,
                clients,
            } = loaded;
            let form = ReportForm {
                mode: run.mode,
                schema: &schema,
                names: &names,
            };
            execute(rt, alloc, out, gate, &form, disk, df.as_slice(), clients)
        }
    }
}
