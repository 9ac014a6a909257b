//! Many writes and reads of pieces of 256 bytes.

ghost use Rattle.std.specs.Prelude.{◌<◌};

use crate::files::calls::done;
use std::alloc::{AllocError, Global};
use storage::{Disk, DiskFailed};

/// How many bytes a piece has.
const PIECE_BYTES: u64 = 256;

/// How many places there are for pieces.
const PLACES: u64 = 65_536;

/// The place of the piece of that number: all differ below the number of places.
fn place(number: u64) -> u64
    ensures { result < 16_777_216 }
{
    (number % PLACES * 40_503 % PLACES) * PIECE_BYTES
}

/// The piece of that number.
fn piece(number: u64) -> [u8; 256] {
    let mut bytes = [0u8; 256];
    for i in 0..bytes.len() {
        bytes[i] = ((number % 251 * 7 + i as u64 * 13) % 256) as u8;
    }
    bytes
}

/// Writes this many pieces at scattered places, and reads each back.
pub fn scattered<D: Disk>(
    alloc: Global,
    disk: &mut D,
    area: u8,
    count: u64,
) -> Result<String, AllocError>
    requires { area < 3 }
{
    for number in 0..count {
        if disk.write(area, place(number), &piece(number)).is_err() {
            return format!(in alloc; "write {number} failed");
        }
    }
    again(alloc, disk, area, count)
}

/// Reads this many pieces from their places.
pub fn again<D: Disk>(
    alloc: Global,
    disk: &mut D,
    area: u8,
    count: u64,
) -> Result<String, AllocError>
    requires { area < 3 }
{
    let mut same = 0u64;
    for number in 0..count {
        let mut bytes = [0u8; 256];
        if disk.read(area, place(number), &mut bytes).is_err() {
            return format!(in alloc; "read {number} failed");
        }
        if bytes == piece(number) {
            same = same.saturating_add(1);
        }
    }
    format!(in alloc; "{same} as written")
}

/// Writes this many pieces one after the other, with a sync after each.
pub fn synced<D: Disk>(
    alloc: Global,
    disk: &mut D,
    area: u8,
    count: u64,
) -> Result<String, AllocError>
    requires { area < 3 }
{
    for number in 0..count {
        let at = number % PLACES * PIECE_BYTES;
        if let Err(failed) = write_and_sync(disk, area, at, &piece(number)) {
            return done(alloc, Err(failed));
        }
    }
    done(alloc, Ok(()))
}

/// One write and one sync.
fn write_and_sync<D: Disk>(
    disk: &mut D,
    area: u8,
    at: u64,
    piece: &[u8; 256],
) -> Result<(), DiskFailed>
    requires area { area < 3 }
    requires at { at < 16_777_216 }
{
    disk.write(area, at, piece)?;
    disk.sync(area)
}
