//! The text that a run writes to standard output.

ghost use Rattle.std.specs.Prelude.{List, is_ok};
ghost use Rattle.client_output.specs.declared.section.Section.{Section as Written};
ghost use Rattle.host_io.specs.declared.out.Stream.{Stream};
ghost use Rattle.host_io.specs.Out.{Writes};
ghost use Rattle.run_report.specs.Report.{reports, run_text};
ghost use Rattle.client_threads.specs.served.Served.{AreReported, HaveSections};

use abl_base::Bytes;
use client_output::Section;
use client_threads::served::EndedClient;
use command_arguments::Mode;
use database_protocol::Event;
use host_io::{Out, OutFailed};
use run_report::{ReportForm, write_report, write_trace};

/// Writes the text of a run: the part of each client, and in mode trace the trace.
pub fn write_run<O: Out>(
    out: &mut O,
    form: &ReportForm<'_>,
    clients: &[EndedClient],
    trace: &[Event],
) -> Result<(), OutFailed>
    ensures { (parts : List (List Written)) × HaveSections clients.now parts × Writes (is_ok result) Stream.Output (run_text form.now.mode form.now.schema.now form.now.names.now parts trace.now) (O.state out.old) (O.state out.new) }
{
    match form.mode {
        Mode::Quiet => write_reports(out, form.names, clients),
        Mode::Trace => {
            write_reports(out, form.names, clients)?;
            write_trace(out, form.schema, form.names, trace)
        }
    }
}

/// Writes the part of each client, in order.
fn write_reports<O: Out>(
    out: &mut O,
    names: &[Bytes],
    clients: &[EndedClient],
) -> Result<(), OutFailed>
    ensures { (parts : List (List Written)) × HaveSections clients.now parts × Writes (is_ok result) Stream.Output (reports names.now parts) (O.state out.old) (O.state out.new) }
{
    let Some((name, names)) = names.split_first() else {
        return Ok(());
    };
    let Some((ended, clients)) = clients.split_first() else {
        return Ok(());
    };
    write_report(out, name.as_slice(), reported(ended))?;
    write_reports(out, names, clients)
}

/// What the client has written, and nothing where it has not begun.
fn reported(ended: &EndedClient) -> &[Section]
    ensures { AreReported ended.now.end ended.now.client result.now }
{
    match &ended.end {
        Some(_) => ended.client.output(),
        None => &[],
    }
}
