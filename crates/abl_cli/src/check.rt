//! The command `check`: it lists the blocks of sources, with the buffers scoped to each.

ghost use Rattle.std.specs.Prelude.{◌≡◌, ◌≤◌, ◌⊎◌, IfErr, IfOk, None, OnOk, is_ok, length};
ghost use Rattle.host_io.specs.declared.out.Stream.{Stream};
ghost use Rattle.host_io.specs.Out.{Writes};
ghost use Rattle.schema_reader.specs.Rules.{violation_of};
ghost use Rattle.abl_cli.specs.Check.{HaveListings, IsListing, OneBreaks, check_text};
ghost use Rattle.command_arguments.specs.CommandLine.{check_of};
ghost use Rattle.abl_cli.specs.Command.{AreListed, HasChecked, PreventsCheck};
ghost use Rattle.abl_cli.specs.Inside.{CheckResult};
ghost use Rattle.source_files.specs.Compiled.{BreaksSchema, BreaksSource, schema_in};

use abl_base::Bytes;
use abl_values::Schema;
use command_arguments::{Arg, CheckArguments};
use database_protocol::Trace;
use host_io::{Files, Out, OutFailed};
use run_report::{
    Ends, Refusal, Report, line_end, output_refusal, refused, status_of, write_part, write_refusal,
};
use source_files::{SourceTexts, read, read_sources, read_tree, schema_of};
use source_reader::listing::listing;
use std::alloc::Global;

/// Lists the blocks of the sources that the arguments name. It reads no input and opens no database.
pub fn check_sources<F: Files, O: Out>(
    alloc: Global,
    files: &mut F,
    out: &mut O,
    check: &CheckArguments<'_>,
) -> Report
    requires { length check.now.programs.now ≤ 16 }
    ensures { CheckResult (check_of check.now) (F.state files.old) (F.state files.new).faults (O.state out.old) (O.state out.new) result }
{
    match listings_of(alloc, files, check) {
        Err(refusal) => refused(alloc, out, check.programs, refusal),
        Ok(listings) => report(alloc, out, check.programs, &listings),
    }
}

/// The lines of the blocks of each source, where the schema and the sources break no rule.
fn listings_of<F: Files>(
    alloc: Global,
    files: &mut F,
    check: &CheckArguments<'_>,
) -> Result<Vec<Bytes>, Refusal>
    requires { length check.now.programs.now ≤ 16 }
    ensures listed { IfOk result (λ listings. AreListed (F.state files.old) (check_of check.now) listings.items) }
    ensures prevented { IfErr result (PreventsCheck (F.state files.old) (F.state files.new).faults (check_of check.now)) }
{
    let df = read(alloc, files, check.schema)?;
    let sources = read_sources(alloc, files, check.programs)?;
    match listings_in(alloc, df.as_slice(), &sources) {
        Ok(listings) => Ok(listings),
        Err(refusal) => Err(refusal),
    }
}

/// The lines of the blocks of these sources over the schema of this text.
fn listings_in(alloc: Global, df: &[u8], sources: &[SourceTexts]) -> Result<Vec<Bytes>, Refusal>
    requires { length sources.now ≤ 16 }
    ensures clean { OnOk result (violation_of df.now ≡ None) }
    ensures listed { IfOk result (λ listings. HaveListings (schema_in df.now) sources.now listings.items) }
    ensures refused { IfErr result (λ refusal. BreaksSchema df.now refusal ⊎ ((violation_of df.now ≡ None) × OneBreaks (schema_in df.now) 0 sources.now refusal)) }
{
    let schema = schema_of(alloc, df)?;
    listings_over(alloc, &schema, sources)
}

/// The lines of the blocks of these sources over the schema.
fn listings_over(
    alloc: Global,
    schema: &Schema,
    sources: &[SourceTexts],
) -> Result<Vec<Bytes>, Refusal>
    requires { length sources.now ≤ 16 }
    ensures listed { IfOk result (λ listings. HaveListings schema.now sources.now listings.items) }
    ensures refused { IfErr result (OneBreaks schema.now 0 sources.now) }
{
    let mut listings = Vec::new(alloc);
    for (number, source) in sources.iter().enumerate() {
        match listing_of(alloc, schema, number as u16, source) {
            Ok(lines) => match listings.push(lines) {
                Ok(()) => {}
                Err(_) => return Err(Refusal::NoMemory),
            },
            Err(refusal) => return Err(refusal),
        }
    }
    Ok(listings)
}

/// The lines of the blocks of the source of this number, or why it is refused. Each line has the line
/// number that the block's word has in its own text.
fn listing_of(
    alloc: Global,
    schema: &Schema,
    number: u16,
    source: &SourceTexts,
) -> Result<Bytes, Refusal>
    ensures listed { IfOk result (IsListing schema.now source.now) }
    ensures refused { IfErr result (BreaksSource schema.now number source.now) }
{
    match read_tree(alloc, schema, number, source) {
        Ok(bound) => match listing(alloc, &bound, source) {
            Ok(lines) => Ok(lines),
            Err(_) => Err(Refusal::NoMemory),
        },
        Err(refusal) => Err(refusal),
    }
}

/// Writes the text of a check, and the line of the status where a write failed.
fn report<O: Out>(alloc: Global, out: &mut O, names: &[Arg], listings: &[Bytes]) -> Report
    ensures { HasChecked names.now listings.now (O.state out.old) (O.state out.new) result }
{
    let whole = write_listings(out, names, listings).is_ok();
    let refusal = output_refusal(whole);
    write_refusal(out, &[], &[], &refusal);
    Report {
        status: status_of(&refusal),
        trace: Trace::empty(alloc),
        ends: Ends::empty(alloc),
        refusal,
    }
}

/// Writes the heading and the lines of each source.
fn write_listings<O: Out>(out: &mut O, names: &[Arg], listings: &[Bytes]) -> Result<(), OutFailed>
    ensures { Writes (is_ok result) Stream.Output (check_text names.now listings.now) (O.state out.old) (O.state out.new) }
{
    let Some((name, names)) = names.split_first() else {
        return Ok(());
    };
    let Some((lines, listings)) = listings.split_first() else {
        return Ok(());
    };
    let lines = lines.as_slice();
    write_part(out, name.as_slice(), lines, line_end(lines))?;
    write_listings(out, names, listings)
}
