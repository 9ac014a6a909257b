//! Rows of calls on slots over a disk: transactions of clients with calls of the disk stopped and
//! failed, random schedules, and checkpoints. At each heading the three areas are empty again.

mod files;

use crate::disk_rows;
use crate::disk_rows::Areas;
use std::alloc::Global;
use std::io;

/// The answer of a row: a call and its arguments, with a blank between.
pub fn answer(
    machine: &HostRuntime,
    alloc: Global,
    areas: &mut Areas,
    row: &str,
) -> io::Result<String> {
    let (call, words) = row.split_once(' ').unwrap_or((row, ""));
    if call == "files" {
        files::answer(machine, alloc, words)
    } else {
        Ok(disk_rows::answer(alloc, areas, call, words)?)
    }
}
