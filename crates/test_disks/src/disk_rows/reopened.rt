//! Disks over images, and what their slots read once they are opened, or recovered alone.

ghost use Rattle.std.specs.Prelude.{◌<◌, ◌≤◌, ◌^◌, length};

use crate::disk_rows::areas::Areas;
use bi_recovery::recovery_run::recover;
use mem_disk::{Images, MemDisk, Room};
use slot_txn::{OpenFault, SlotTxn};
use std::alloc::{AllocError, Global};
use storage::{Disk, Slots};

/// The most bytes of an area.
const MOST: usize = 1 << 30;

/// The place of the first gate of a log.
const FIRST_GATE: u64 = 32;

/// What an opened disk holds.
#[derive(Drop)]
pub enum Reopened {
    /// What some slots read, as `mark` of their bytes says.
    Slots(Vec<u64>),
    NotCreated,
    Disk,
    NoMemory,
}

/// A disk over these images, which fails at the calls of these numbers. None where an area is too long.
pub fn disk_of(
    alloc: Global,
    images: &Images,
    room: &Room,
    fails: &[u64],
) -> Result<Option<MemDisk>, AllocError> {
    if images.d0.as_slice().len() > MOST {
        return Ok(None);
    }
    if images.b1.as_slice().len() > MOST {
        return Ok(None);
    }
    if images.b2.as_slice().len() > MOST {
        return Ok(None);
    }
    Ok(Some(MemDisk::new(alloc, images, room, fails)?))
}

/// The room of a disk over areas: for so many calls, and beside twice the bytes of the longest area for so
/// many bytes of writes.
fn room_over(areas: &Areas, calls: u64, spare: u64) -> Room {
    let longest = areas.length(0).max(areas.length(1)).max(areas.length(2)) as u64;
    let bytes = longest.saturating_mul(2).saturating_add(spare);
    Room {
        calls,
        bytes,
        length: bytes,
    }
}

/// A disk over the areas, which fails at the calls of these numbers. None where an area is too long.
pub fn disk_over(
    alloc: Global,
    areas: &Areas,
    fails: &[u64],
) -> Result<Option<MemDisk>, AllocError> {
    let room = room_over(areas, 300_000, 1 << 25);
    disk_of(alloc, &areas.images(alloc)?, &room, fails)
}

/// The same with room for a list of steps, of which many disks are made.
pub fn disk_of_steps(
    alloc: Global,
    areas: &Areas,
    fails: &[u64],
) -> Result<Option<MemDisk>, AllocError> {
    let room = room_over(areas, 4_000, 1 << 20);
    disk_of(alloc, &areas.images(alloc)?, &room, fails)
}

/// A number of a slot's bytes: the byte where all are the same, and else one above 255.
pub fn mark(bytes: &[u8; 256]) -> u64 {
    let first = bytes[0];
    let mut same = true;
    let mut sum = 0u64;
    for byte in bytes {
        same = same && *byte == first;
        sum = (sum % 1_000_003 * 257 + u64::from(*byte)) % 1_000_003;
    }
    if same {
        u64::from(first)
    } else {
        sum.saturating_add(256)
    }
}

/// What these slots read. None where a read fails or a slot is none.
pub fn marks_of<S: Slots>(
    alloc: Global,
    slots: &mut S,
    numbers: &[u32],
) -> Result<Option<Vec<u64>>, AllocError> {
    let mut marks = Vec::new(alloc);
    for number in numbers {
        let slot = *number;
        let mut bytes = [0u8; 256];
        if slot >= 1 << 20 {
            return Ok(None);
        }
        if slots.read(slot, &mut bytes).is_err() {
            return Ok(None);
        }
        marks.push(mark(&bytes))?;
    }
    Ok(Some(marks))
}

/// What a fault of opening or of recovery says.
fn of_fault(fault: OpenFault) -> Reopened {
    match fault {
        OpenFault::NotCreated => Reopened::NotCreated,
        OpenFault::Disk => Reopened::Disk,
        OpenFault::NoMemory => Reopened::NoMemory,
    }
}

/// What marks say; none where a read failed.
fn of_marks(marks: Option<Vec<u64>>) -> Reopened {
    match marks {
        Some(marks) => Reopened::Slots(marks),
        None => Reopened::Disk,
    }
}

/// What these slots of the disk read once it is opened.
pub fn opened_again(alloc: Global, disk: MemDisk, numbers: &[u32]) -> Result<Reopened, AllocError> {
    match SlotTxn::open(alloc, disk) {
        Ok(slots) => {
            let mut slots = slots;
            Ok(of_marks(marks_of(alloc, &mut slots, numbers)?))
        }
        Err((fault, _)) => Ok(of_fault(fault)),
    }
}

/// Recovers the disk, until its log has no notes: a first recovery may carry slots as notes.
fn recover_whole(alloc: Global, disk: &mut MemDisk) -> Result<(), OpenFault> {
    let opened = recover(disk, alloc)?;
    if opened.gate > FIRST_GATE {
        let _again = recover(disk, alloc)?;
    }
    Ok(())
}

/// What these slots of area 0 read. None where a read fails.
fn stored_marks(
    alloc: Global,
    disk: &mut MemDisk,
    numbers: &[u32],
) -> Result<Option<Vec<u64>>, AllocError> {
    let mut marks = Vec::new(alloc);
    for number in numbers {
        let mut bytes = [0u8; 256];
        if disk.read(0, 256 * u64::from(*number), &mut bytes).is_err() {
            return Ok(None);
        }
        marks.push(mark(&bytes))?;
    }
    Ok(Some(marks))
}

/// What these slots read once the disk that these images are is recovered. It takes a small part of
/// the time of opening the slots.
pub fn images_recovered(
    alloc: Global,
    images: &Images,
    numbers: &[u32],
) -> Result<Reopened, AllocError> {
    let room = Room {
        calls: 20_000,
        bytes: 1 << 22,
        length: 1 << 22,
    };
    let Some(disk) = disk_of(alloc, images, &room, &[])? else {
        return Ok(Reopened::NoMemory);
    };
    let mut disk = disk;
    match recover_whole(alloc, &mut disk) {
        Ok(()) => Ok(of_marks(stored_marks(alloc, &mut disk, numbers)?)),
        Err(fault) => Ok(of_fault(fault)),
    }
}

/// Whether the slots read so.
pub fn reads(found: &Reopened, marks: &[u64]) -> bool {
    match found {
        Reopened::Slots(read) => read.as_slice() == marks,
        Reopened::NotCreated | Reopened::Disk | Reopened::NoMemory => false,
    }
}

/// The name of what was found, with what the slots read.
pub fn shown(alloc: Global, found: &Reopened) -> Result<String, AllocError> {
    match found {
        Reopened::Slots(marks) => {
            let mut text = String::from_str(alloc, "reads")?;
            for mark in marks {
                let word = format!(in alloc; " {mark}")?;
                text.push_str(word.as_str())?;
            }
            Ok(text)
        }
        Reopened::NotCreated => String::from_str(alloc, "not created"),
        Reopened::Disk => String::from_str(alloc, "disk"),
        Reopened::NoMemory => String::from_str(alloc, "no memory"),
    }
}
