//! The command `dump`: it writes the committed rows of a table.

ghost use Rattle.std.specs.Prelude.{◌≡◌, ◌<◌, IfErr, IfOk, length};
ghost use Rattle.command_arguments.specs.CommandLine.{NamesDump, dump_of};
ghost use Rattle.run_works.specs.Disks.{KeepsLogShort, state_of};
ghost use Rattle.abl_cli.specs.Command.{CommandResult};
ghost use Rattle.abl_cli.specs.Stored.{DumpResult, HasTable, PreventsDump, dump_refusal};

use abl_base::Bytes;
use abl_values::Schema;
use command_arguments::{Arg, DumpArguments};
use database_protocol::Trace;
use disk_database::DumpRefusal;
use host_io::{Files, Out};
use run_report::{Ends, Refusal, Report, refused, status_of, write_refusal};
use run_works::{Outcome, dump_rows, opening_refusal};
use source_files::{read, schema_of};
use std::alloc::Global;
use storage::Disk;

/// A table of a schema. The store and the machine of a database each have a schema of their own, which
/// is one schema.
#[derive(Drop)]
struct Table {
    schema: Schema,
    schema_of_rows: Schema,
    number: u16,
}

/// Writes the committed rows of the table that the arguments name, a line each, in the order of its
/// primary index.
pub fn dump_table<F: Files, D: Disk + Drop, O: Out>(
    alloc: Global,
    arguments: &[Arg],
    files: &mut F,
    disk: D,
    out: &mut O,
    named: &DumpArguments<'_>,
) -> Outcome<D>
    requires { NamesDump arguments.now named.now }
    ensures did { CommandResult (state_of D.Disk) disk arguments.now (F.state files.old) (F.state files.new).faults (O.state out.old) (O.state out.new) result }
    ensures log { KeepsLogShort (state_of D.Disk disk) (state_of D.Disk result.disk) }
{
    match table_in_file(alloc, files, named) {
        Err(refusal) => {
            let report = refused(alloc, out, &[], refusal);
            Outcome { report, disk }
        }
        Ok(table) => write_rows(alloc, disk, out, table),
    }
}

/// The table that the arguments name, if the schema file is there, breaks no rule and has it.
fn table_in_file<F: Files>(
    alloc: Global,
    files: &mut F,
    named: &DumpArguments<'_>,
) -> Result<Table, Refusal>
    ensures table { IfOk result (λ table. HasTable (F.state files.old) (dump_of named.now) table.schema table.number) }
    ensures within { IfOk result (λ table. table.number < length table.schema.tables) }
    ensures same { IfOk result (λ table. table.schema_of_rows ≡ table.schema) }
    ensures prevented { IfErr result (PreventsDump (F.state files.old) (F.state files.new).faults (dump_of named.now)) }
{
    let df = read(alloc, files, named.schema)?;
    let schema = schema_of(alloc, df.as_slice())?;
    let schema_of_rows = schema_of(alloc, df.as_slice())?;
    match schema.table(named.table) {
        Some(number) => Ok(Table {
            schema,
            schema_of_rows,
            number,
        }),
        None => match Bytes::of(alloc, named.table) {
            Ok(name) => Err(Refusal::NoTable { name }),
            Err(_) => Err(Refusal::NoMemory),
        },
    }
}

/// Writes the committed rows of the table, and the line of the status where that failed.
fn write_rows<D: Disk + Drop, O: Out>(
    alloc: Global,
    disk: D,
    out: &mut O,
    table: Table,
) -> Outcome<D>
    requires within { table.number < length table.schema.tables }
    requires same { table.schema_of_rows ≡ table.schema }
    ensures did { DumpResult table.schema table.number (state_of D.Disk disk) (state_of D.Disk result.disk) (O.state out.old) (O.state out.new) result.report }
    ensures log { KeepsLogShort (state_of D.Disk disk) (state_of D.Disk result.disk) }
{
    let Table {
        schema,
        schema_of_rows,
        number,
    } = table;
    let (written, disk) = dump_rows(alloc, disk, schema, schema_of_rows, number, out);
    let refusal = dump_refusal(written.err());
    write_refusal(out, &[], &[], &refusal);
    let report = Report {
        status: status_of(&refusal),
        trace: Trace::empty(alloc),
        ends: Ends::empty(alloc),
        refusal,
    };
    Outcome { report, disk }
}

/// The refusal of a dump, as the command reports it.
fn dump_refusal(why: Option<DumpRefusal>) -> Option<Refusal>
    ensures { result ≡ dump_refusal why }
{
    match why {
        None => None,
        Some(DumpRefusal::Database(why)) => Some(opening_refusal(why)),
        Some(DumpRefusal::Output) => Some(Refusal::Output),
    }
}
