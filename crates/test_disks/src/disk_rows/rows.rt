//! The answer to a row.

use crate::disk_rows::areas::Areas;
use crate::disk_rows::images;
use crate::disk_rows::long::{checkpoint, commits, full};
use crate::disk_rows::reopened::{disk_over, opened_again, shown};
use crate::disk_rows::schedules::schedules;
use crate::disk_rows::steps::steps_of;
use crate::disk_rows::sweeps::{failed_steps, stopped_steps};
use crate::disk_rows::words::{number, numbers, u32_of};
use std::alloc::{AllocError, Global};

/// The answer to a row: its name and its words.
pub fn answer(
    alloc: Global,
    areas: &mut Areas,
    call: &str,
    words: &str,
) -> Result<String, AllocError> {
    match call {
        "recover" => recover(alloc, areas, words),
        "full" => full(alloc, areas, words),
        "stopped" => stopped_steps(alloc, areas, &steps_of(alloc, words)?),
        "failed" => failed_steps(alloc, areas, &steps_of(alloc, words)?),
        _ => counted(alloc, areas, call, words),
    }
}

/// What slots of these numbers read once the areas are opened.
fn recover(alloc: Global, areas: &Areas, words: &str) -> Result<String, AllocError> {
    let mut slots = Vec::new(alloc);
    for number in &numbers(alloc, words)? {
        slots.push(u32_of(*number % 1_048_576))?;
    }
    let Some(disk) = disk_over(alloc, areas, &[])? else {
        return String::from_str(alloc, "too long");
    };
    let found = opened_again(alloc, disk, &slots)?;
    shown(alloc, &found)
}

/// The answer to a row whose words are numbers, or that makes areas.
fn counted(
    alloc: Global,
    areas: &mut Areas,
    call: &str,
    words: &str,
) -> Result<String, AllocError> {
    let numbers = numbers(alloc, words)?;
    let first = number(&numbers, 0);
    let second = number(&numbers, 1);
    match call {
        "schedules" => schedules(alloc, areas, first, second, number(&numbers, 2)),
        "commits" => commits(alloc, areas, first),
        "checkpoint" => checkpoint(alloc, areas, first, second > 0),
        _ => images::answer(alloc, areas, call, words),
    }
}
