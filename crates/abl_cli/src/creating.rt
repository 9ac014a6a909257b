//! The command `create`: it makes the database of a schema file.

ghost use Rattle.std.specs.Prelude.{◌≡◌, IfErr, IfOk};
ghost use Rattle.command_arguments.specs.CommandLine.{NamesCreate};
ghost use Rattle.run_works.specs.Disks.{KeepsLogShort, state_of};
ghost use Rattle.abl_cli.specs.Command.{CommandResult};
ghost use Rattle.abl_cli.specs.Stored.{CreateResult, HasSchema, PreventsSchema, creation_refusal};

use abl_values::Schema;
use command_arguments::{Arg, CreateArguments};
use database_protocol::Trace;
use disk_database::{CreateRefusal, create};
use host_io::{Files, Out};
use run_report::{Ends, Refusal, Report, refused};
use run_works::Outcome;
use source_files::{read, schema_of};
use std::alloc::Global;
use storage::Disk;

/// Makes an empty database with the schema that the arguments name, where the disk holds none of
/// whatever schema. It writes no report.
pub fn create_schema<F: Files, D: Disk + Drop, O: Out>(
    alloc: Global,
    arguments: &[Arg],
    files: &mut F,
    disk: D,
    out: &mut O,
    named: &CreateArguments<'_>,
) -> Outcome<D>
    requires { NamesCreate arguments.now named.now }
    ensures did { CommandResult (state_of D.Disk) disk arguments.now (F.state files.old) (F.state files.new).faults (O.state out.old) (O.state out.new) result }
    ensures log { KeepsLogShort (state_of D.Disk disk) (state_of D.Disk result.disk) }
{
    match schema_in_file(alloc, files, named.schema) {
        Err(refusal) => {
            let report = refused(alloc, out, &[], refusal);
            Outcome { report, disk }
        }
        Ok(schema) => make(alloc, disk, out, &schema),
    }
}

/// The schema of the file of this name, if there is one that breaks no rule.
pub(crate) fn schema_in_file<F: Files>(
    alloc: Global,
    files: &mut F,
    name: &[u8],
) -> Result<Schema, Refusal>
    ensures schema { IfOk result (HasSchema (F.state files.old) name.now) }
    ensures prevented { IfErr result (PreventsSchema (F.state files.old) (F.state files.new).faults name.now) }
{
    let df = read(alloc, files, name)?;
    schema_of(alloc, df.as_slice())
}

/// Makes an empty database with this schema, and says how that went.
fn make<D: Disk + Drop, O: Out>(alloc: Global, disk: D, out: &mut O, schema: &Schema) -> Outcome<D>
    ensures did { CreateResult schema.now (state_of D.Disk disk) (state_of D.Disk result.disk) (O.state out.old) (O.state out.new) result.report }
    ensures log { KeepsLogShort (state_of D.Disk disk) (state_of D.Disk result.disk) }
{
    let mut disk = disk;
    match create(alloc, &mut disk, schema) {
        Ok(()) => {
            let report = Report {
                status: 0,
                trace: Trace::empty(alloc),
                ends: Ends::empty(alloc),
                refusal: None,
            };
            Outcome { report, disk }
        }
        Err(why) => {
            let report = refused(alloc, out, &[], creation_refusal(why));
            Outcome { report, disk }
        }
    }
}

/// The refusal of a creation, as the command reports it.
fn creation_refusal(why: CreateRefusal) -> Refusal
    ensures { result ≡ creation_refusal why }
{
    match why {
        CreateRefusal::AlreadyCreated => Refusal::AlreadyCreated,
        CreateRefusal::Disk => Refusal::Disk,
        CreateRefusal::NoMemory => Refusal::NoMemory,
    }
}
