//! The answer to a call on a disk.

ghost use Rattle.std.specs.Prelude.{◌<◌};

use crate::files::many;
use std::alloc::{AllocError, Global};
use storage::{Disk, DiskFailed};
use test_words::{bytes_of, push_bytes};

/// The most bytes that a row reads or writes, and the end of its range.
const MOST: u64 = 1 << 39;

/// The answer to a call: its name and its words, with a blank between.
pub fn answer<D: Disk>(
    alloc: Global,
    disk: &mut D,
    call: &str,
    rest: &str,
) -> Result<String, AllocError> {
    if call == "counts" {
        return format!(in alloc; "moment {}, faults {}", disk.moment(), disk.faults());
    }
    let (word, rest) = rest.split_once(' ').unwrap_or((rest, ""));
    match word.parse::<u8>() {
        Ok(area) if area < 3 => area_answer(alloc, disk, call, area, rest),
        _ => String::from_str(alloc, "no area"),
    }
}

/// The answer to a call on an area.
fn area_answer<D: Disk>(
    alloc: Global,
    disk: &mut D,
    call: &str,
    area: u8,
    rest: &str,
) -> Result<String, AllocError>
    requires { area < 3 }
{
    let (word, rest) = rest.split_once(' ').unwrap_or((rest, ""));
    let number = word.parse::<u64>().unwrap_or(0);
    match call {
        "length" => match disk.length(area) {
            Ok(length) => format!(in alloc; "{length}"),
            Err(_) => String::from_str(alloc, "failed"),
        },
        "sync" => done(alloc, disk.sync(area)),
        "write" => write(alloc, disk, area, number, rest),
        "read" => read(alloc, disk, area, number, rest.parse::<u16>().unwrap_or(0)),
        "scattered" => many::scattered(alloc, disk, area, number),
        "synced" => many::synced(alloc, disk, area, number),
        "again" => many::again(alloc, disk, area, number),
        _ => String::from_str(alloc, "no call"),
    }
}

/// Whether the call was done.
pub fn done(alloc: Global, outcome: Result<(), DiskFailed>) -> Result<String, AllocError> {
    String::from_str(alloc, if outcome.is_ok() { "done" } else { "failed" })
}

/// Writes the bytes of a word.
fn write<D: Disk>(
    alloc: Global,
    disk: &mut D,
    area: u8,
    at: u64,
    word: &str,
) -> Result<String, AllocError>
    requires { area < 3 }
{
    let bytes = bytes_of(alloc, word.as_bytes())?;
    if at >= MOST || bytes.len() as u64 >= MOST {
        return String::from_str(alloc, "too far");
    }
    done(alloc, disk.write(area, at, &bytes))
}

/// Reads bytes into a buffer of ones, and shows them.
fn read<D: Disk>(
    alloc: Global,
    disk: &mut D,
    area: u8,
    at: u64,
    count: u16,
) -> Result<String, AllocError>
    requires { area < 3 }
{
    if at >= MOST {
        return String::from_str(alloc, "too far");
    }
    let mut bytes = vec![in alloc; 1u8; usize::from(count)]?;
    match disk.read(area, at, &mut bytes) {
        Ok(()) => {
            let mut text = String::new(alloc);
            push_bytes(&mut text, &bytes)?;
            Ok(text)
        }
        Err(_) => String::from_str(alloc, "failed"),
    }
}
