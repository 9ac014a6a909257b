//! The disks of rows.

ghost use Rattle.std.specs.Prelude.{◌<◌};

use crate::counted::Counted;
use crate::disk_edits::DiskStep;
use crate::rows::Row;
use abl_base::Bytes;
use abl_cli::run_abl;
use host_io::{MemOut, OpenGate};
use mem_disk::{Images, MemDisk, Room, Torn};
use std::alloc::{AllocError, Global};
use std::sync::Wait;
use std::thread::Threads;
use storage::Disk;

/// The disk of a row.
pub type RowDisk = Counted<MemDisk>;

/// The most bytes of an area.
const MOST_BYTES: usize = 33_554_432;

/// What the disk of a row takes: writes and syncs, bytes of all writes, bytes of an area.
const ROOM: Room = Room {
    calls: 400_000,
    bytes: 268_435_456,
    length: 33_554_432,
};

/// A disk with these bytes, at moment 0. The calls of these numbers fail, where the first one has the
/// number 1. Out of memory is also the answer to an area of more than 32 MiB.
fn disk_with(alloc: Global, images: &Images, fails: &[u64]) -> Result<RowDisk, AllocError> {
    if images.d0.len() > MOST_BYTES
        || images.b1.len() > MOST_BYTES
        || images.b2.len() > MOST_BYTES
    {
        return Err(AllocError);
    }
    Ok(Counted::new(MemDisk::new(alloc, images, &ROOM, fails)?))
}

/// A disk without bytes. The calls of these numbers fail.
fn empty_disk(alloc: Global, fails: &[u64]) -> Result<RowDisk, AllocError> {
    let images = Images {
        d0: Bytes::empty(alloc),
        b1: Bytes::empty(alloc),
        b2: Bytes::empty(alloc),
    };
    disk_with(alloc, &images, fails)
}

/// The disk that the row's commands begin with: that of a database of its schema file, or of a bank where
/// its first command is one. A row with the word `uncreated` has a disk without bytes. The calls whose
/// numbers the word `disk` gives fail.
pub fn first_disk<R: Threads + Wait + Sync>(
    rt: &R,
    alloc: Global,
    row: &Row<'_>,
) -> Result<RowDisk, AllocError> {
    let fails = row.numbers_after(alloc, "disk")?;
    if row.faults.contains("uncreated") {
        return empty_disk(alloc, &fails);
    }
    let create = if row.commands.starts_with("bank") {
        "create bank.df"
    } else {
        "create s.df"
    };
    let mut files = row.files(alloc, &[])?;
    let mut out = MemOut::new(alloc, 1_000, &[])?;
    let arguments = row.arguments(alloc, create)?;
    let disk = empty_disk(alloc, &[])?;
    let outcome = run_abl(rt, alloc, &arguments, &mut files, disk, &mut out, &OpenGate);
    let mut disk = outcome.disk;
    disk_with(alloc, &images_of(alloc, &mut disk)?, &fails)
}

/// The disk, and one that reads as it does, of which the calls of these numbers fail.
pub fn copied(
    alloc: Global,
    disk: RowDisk,
    fails: &[u64],
) -> Result<(RowDisk, RowDisk), AllocError> {
    let mut disk = disk;
    let images = images_of(alloc, &mut disk)?;
    Ok((disk, disk_with(alloc, &images, fails)?))
}

/// What the areas of the disk read.
fn images_of(alloc: Global, disk: &mut RowDisk) -> Result<Images, AllocError> {
    Ok(Images {
        d0: area_of(alloc, disk, 0)?,
        b1: area_of(alloc, disk, 1)?,
        b2: area_of(alloc, disk, 2)?,
    })
}

/// What the area reads. A call that fails counts as out of memory.
fn area_of(alloc: Global, disk: &mut RowDisk, area: u8) -> Result<Bytes, AllocError>
    requires { area < 3 }
{
    let Ok(length) = disk.length(area) else {
        return Err(AllocError);
    };
    if length > MOST_BYTES as u64 {
        return Err(AllocError);
    }
    let mut bytes = vec![in alloc; 0u8; length as usize]?;
    match disk.read(area, 0, &mut bytes) {
        Ok(()) => Ok(Bytes::from_vec(bytes)),
        Err(_) => Err(AllocError),
    }
}

/// The disk, and what a stop of it leaves, the given number of writes and syncs before the last one was
/// done.
pub fn crashed(
    alloc: Global,
    disk: RowDisk,
    before: u64,
    torn: Option<Torn>,
) -> Result<(RowDisk, RowDisk), AllocError> {
    let Some(torn) = torn else {
        return copied(alloc, disk, &[]);
    };
    let moment = disk.disk.moment().saturating_sub(before);
    let each = vec![in alloc; torn; disk.disk.calls().len()]?;
    let images = disk.disk.crash(moment, &each)?;
    Ok((disk, disk_with(alloc, &images, &[])?))
}

/// The disk after this step, which changes its bytes.
pub fn changed(alloc: Global, disk: RowDisk, step: DiskStep) -> Result<RowDisk, AllocError> {
    let mut disk = disk;
    let images = images_of(alloc, &mut disk)?;
    disk_with(alloc, &with_step(images, step), &[])
}

/// The bytes of the areas after this step.
fn with_step(images: Images, step: DiskStep) -> Images {
    let Images { d0, b1, b2 } = images;
    let mut areas = [d0.into_vec(), b1.into_vec(), b2.into_vec()];
    match step {
        DiskStep::Cut { area, length } => {
            if let Some(bytes) = areas.get_mut(area as usize) {
                bytes.truncate(length as usize);
            }
        }
        DiskStep::Fill { area, value } => {
            if let Some(bytes) = areas.get_mut(area as usize) {
                bytes.fill(value);
            }
        }
        DiskStep::Set { area, at, value } => {
            if let Some(bytes) = areas.get_mut(area as usize)
                && let Some(byte) = bytes.get_mut(at as usize)
            {
                *byte = value;
            }
        }
        DiskStep::Swap { area, other } => {
            if area < 3 && other < 3 {
                areas.swap(area as usize, other as usize);
            }
        }
        DiskStep::Crash { .. } | DiskStep::Or { .. } | DiskStep::Fail { .. } => {}
    }
    let [d0, b1, b2] = areas;
    Images {
        d0: Bytes::from_vec(d0),
        b1: Bytes::from_vec(b1),
        b2: Bytes::from_vec(b2),
    }
}
