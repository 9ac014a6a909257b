//! The trace of several clients, whose lines come in the order of the schedule.

use abl_cli::Arg;
use std::alloc::{AllocError, Global};
use std::str;

/// The heading of a trace.
const HEADING: &str = "== trace ==\n";

/// The text of a run, with the lines of its trace by client, in the order of the arguments, and
/// without their numbers: so it is the same whatever the schedule. A text whose numbers are not 1, 2
/// and so on is left as it is.
pub fn by_client(alloc: Global, text: &[u8], arguments: &[Arg]) -> Result<Vec<u8>, AllocError> {
    let mut grouped = Vec::new(alloc);
    let Some((reports, trace)) = parts_of(text) else {
        grouped.extend_from_slice(text)?;
        return Ok(grouped);
    };
    grouped.extend_from_slice(reports.as_bytes())?;
    grouped.extend_from_slice(HEADING.as_bytes())?;
    for argument in arguments {
        if let Ok(argument) = str::from_utf8(argument.as_slice())
            && let Some((name, _)) = argument.split_once('=')
        {
            add_lines(&mut grouped, trace, name)?;
        }
    }
    Ok(grouped)
}

/// The reports and the lines of the trace, if the lines are numbered from 1.
fn parts_of(text: &[u8]) -> Option<(&str, &str)> {
    let (reports, trace) = str::from_utf8(text).ok()?.split_once(HEADING)?;
    for (at, line) in trace.lines().enumerate() {
        let (number, _) = line.split_once(' ')?;
        if number.parse::<u64>().ok()? != (at as u64).saturating_add(1) {
            return None;
        }
    }
    Some((reports, trace))
}

/// Adds the lines of the client of this name, without their numbers.
fn add_lines(grouped: &mut Vec<u8>, trace: &str, name: &str) -> Result<(), AllocError> {
    for line in trace.lines() {
        if let Some((_, event)) = line.split_once(' ')
            && let Some((client, _)) = event.split_once(' ')
            && client == name
        {
            grouped.extend_from_slice(event.as_bytes())?;
            grouped.push(b'\n')?;
        }
    }
    Ok(())
}
