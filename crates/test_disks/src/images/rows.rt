//! The answer to a row.

use crate::disk_rows;
use crate::disk_rows::{Areas, number, numbers};
use crate::images::creations::{failed_create, stopped_create};
use crate::images::stores;
use std::alloc::{AllocError, Global};

/// The answer to a row: its name and its words, with a blank between.
pub fn answer(alloc: Global, areas: &mut Areas, row: &str) -> Result<String, AllocError> {
    let (call, words) = row.split_once(' ').unwrap_or((row, ""));
    match call {
        "create" | "open" | "dump" => stores::answer(alloc, areas, call, words),
        "create-stopped" | "create-failed" => creation(alloc, areas, call, words),
        _ => disk_rows::answer(alloc, areas, call, words),
    }
}

/// The answer to a row that stops or fails calls of `create`.
fn creation(alloc: Global, areas: &Areas, call: &str, words: &str) -> Result<String, AllocError> {
    let numbers = numbers(alloc, words)?;
    let first = number(&numbers, 0);
    let step = number(&numbers, 1);
    if call == "create-stopped" {
        stopped_create(alloc, areas, first, step)
    } else {
        failed_create(alloc, areas, first, step)
    }
}
