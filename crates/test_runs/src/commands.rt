//! The answers of rows.

use crate::by_client::by_client;
use crate::disk_edits::{DiskStep, disk_step};
use crate::disks::{RowDisk, changed, copied, crashed, first_disk};
use crate::rows::Row;
use crate::texts::{shown, whole};
use crate::unnamed::unnamed;
use abl_cli::{Arg, run_abl};
use host_io::{MemOut, OpenGate, Stream};
use std::alloc::{AllocError, Global};
use std::sync::Wait;
use std::thread::Threads;

/// The most bytes that the streams take together, where the row does not say otherwise.
const MOST_WRITTEN: u64 = 20_000_000;

/// What stands between the commands of a row, and between their answers.
const BETWEEN: &str = " ; ";

/// What the answer has for a step that changes the disk.
const DISK: &str = "disk";

/// An answer, with the disk after it.
#[derive(Drop)]
struct Answered {
    text: String,
    disk: RowDisk,
}

/// What the commands of a row are over.
#[derive(Drop)]
struct Disks {
    now: RowDisk,
    /// The disk that has stopped, where the one of now is what a stop left.
    stopped: Option<RowDisk>,
    /// The disk call of the next command that fails, counted from its end.
    fails: Option<u64>,
}

/// The answer to each command of a row: its status, and what is then on the two streams. All are over
/// one disk, one after the other; what changes the disk between them is answered `disk`. A row without a
/// schema file has this one.
pub fn answer<'a, R: Threads + Wait + Sync>(
    rt: &R,
    alloc: Global,
    row: &'a str,
    schema: &'a str,
) -> Result<String, AllocError> {
    let row = Row::of(row, schema);
    let mut disks = Disks {
        now: first_disk(rt, alloc, &row)?,
        stopped: None,
        fails: None,
    };
    let mut answers = String::new(alloc);
    for (at, command) in row.commands.split(BETWEEN).enumerate() {
        if at > 0 {
            answers.push_str(BETWEEN)?;
        }
        disks = match disk_step(command) {
            Some(step) => {
                answers.push_str(DISK)?;
                after_step(alloc, disks, step)?
            }
            None => {
                let Disks {
                    now,
                    stopped,
                    fails,
                } = disks;
                let answered = answer_with(rt, alloc, &row, command, now, fails)?;
                answers.push_str(answered.text.as_str())?;
                Disks {
                    now: answered.disk,
                    stopped,
                    fails: None,
                }
            }
        };
    }
    Ok(answers)
}

/// The disks after a step between two commands.
fn after_step(alloc: Global, disks: Disks, step: DiskStep) -> Result<Disks, AllocError> {
    let Disks {
        now,
        stopped,
        fails,
    } = disks;
    match step {
        DiskStep::Crash { before, torn } => {
            let (stopped, now) = crashed(alloc, now, before, torn)?;
            Ok(Disks {
                now,
                stopped: Some(stopped),
                fails,
            })
        }
        DiskStep::Or { before, torn } => {
            let (stopped, now) = crashed(alloc, stopped.unwrap_or(now), before, torn)?;
            Ok(Disks {
                now,
                stopped: Some(stopped),
                fails,
            })
        }
        DiskStep::Fail { from_last } => Ok(Disks {
            now,
            stopped,
            fails: Some(from_last),
        }),
        _ => Ok(Disks {
            now: changed(alloc, now, step)?,
            stopped,
            fails,
        }),
    }
}

/// The answer to one command, of which one disk call fails, if one is given: this one counted from the
/// end, where 1 is the last. To find it the command is first done over a copy of the disk.
fn answer_with<R: Threads + Wait + Sync>(
    rt: &R,
    alloc: Global,
    row: &Row<'_>,
    command: &str,
    disk: RowDisk,
    fails: Option<u64>,
) -> Result<Answered, AllocError> {
    let Some(from_last) = fails else {
        return answer_to(rt, alloc, row, command, disk);
    };
    let (disk, copy) = copied(alloc, disk, &[])?;
    let whole = answer_to(rt, alloc, row, command, copy)?;
    let number = whole.disk.calls.saturating_add(1).saturating_sub(from_last);
    let (_, disk) = copied(alloc, disk, &[number])?;
    answer_to(rt, alloc, row, command, disk)
}

/// The answer to one command.
fn answer_to<R: Threads + Wait + Sync>(
    rt: &R,
    alloc: Global,
    row: &Row<'_>,
    command: &str,
    disk: RowDisk,
) -> Result<Answered, AllocError> {
    let arguments = row.arguments(alloc, command)?;
    let reads = row.numbers_after(alloc, "read")?;
    let writes = row.numbers_after(alloc, "write")?;
    let rooms = row.numbers_after(alloc, "room")?;
    let most = match rooms.first() {
        Some(most) => *most,
        None => MOST_WRITTEN,
    };
    let mut files = row.files(alloc, &reads)?;
    let mut out = MemOut::new(alloc, most, &writes)?;
    let outcome = run_abl(rt, alloc, &arguments, &mut files, disk, &mut out, &OpenGate);
    let output = stream_shown(alloc, out.text(Stream::Output), row, &arguments)?;
    let diagnostics = stream_shown(alloc, out.text(Stream::Diagnostics), row, &arguments)?;
    Ok(Answered {
        text: format!(in alloc; "{} {output} {diagnostics}", outcome.report.status)?,
        disk: outcome.disk,
    })
}

/// What is on a stream, as the row's words ask for it: a trace by client, the lines in their order
/// without the clients' names, or a long text whole.
fn stream_shown(
    alloc: Global,
    text: &[u8],
    row: &Row<'_>,
    arguments: &[Arg],
) -> Result<String, AllocError> {
    if row.faults.contains("clients") {
        let grouped = by_client(alloc, text, arguments)?;
        return shown(alloc, &grouped);
    }
    if row.faults.contains("unnamed") {
        let sorted = unnamed(alloc, text, arguments)?;
        return shown(alloc, &sorted);
    }
    if row.faults.contains("whole") {
        return whole(alloc, text);
    }
    shown(alloc, text)
}
