//! Every call of the disk stopped, and every one failed: what is left is opened again and compared.

ghost use Rattle.std.specs.Prelude.{◌≤◌};

use crate::disk_rows::areas::Areas;
use crate::disk_rows::driven::Driven;
use crate::disk_rows::histories::History;
use crate::disk_rows::model::SLOTS;
use crate::disk_rows::reopened::{Reopened, disk_of_steps, images_recovered, marks_of};
use crate::disk_rows::steps::Step;
use crate::disk_rows::words::{byte_of, u32_of};
use mem_disk::{Images, MemDisk, Torn};
use slot_txn::SlotTxn;
use std::alloc::{AllocError, Global};
use storage::Disk;

/// The most writes that are not synced at a stop.
const MOST_WRITES: usize = 8_400;

/// The most calls of a disk that are failed in turn.
const MOST_CALLS: u64 = 20_000;

/// In how many ways the writes that were not synced are torn.
pub const WAYS: u8 = 4;

/// What the writes that were not synced became: all old, all new, all bytes 170, or in turn.
pub fn torn(alloc: Global, way: u8) -> Result<Vec<Torn>, AllocError> {
    let mut torn = Vec::new(alloc);
    for n in 0..MOST_WRITES {
        torn.push(match way {
            0 => Torn::Old,
            1 => Torn::New,
            2 => Torn::Fill(170),
            _ => match n % 3 {
                0 => Torn::New,
                1 => Torn::Fill(170),
                _ => Torn::Old,
            },
        })?;
    }
    Ok(torn)
}

/// What a stop leaves at a moment that is past, or at the present one.
pub fn stopped(disk: &MemDisk, moment: u64, torn: &[Torn]) -> Result<Images, AllocError> {
    let now = disk.moment();
    if moment <= now {
        disk.crash(moment, torn)
    } else {
        disk.crash(now, torn)
    }
}

/// The first slots, as many as the model has.
pub fn first_slots(alloc: Global) -> Result<Vec<u32>, AllocError> {
    let mut slots = Vec::new(alloc);
    for slot in 0..SLOTS {
        slots.push(u32_of(slot as u64))?;
    }
    Ok(slots)
}

/// The bytes that the first slots of the areas read, where all of a slot's are the same.
pub fn first_bytes(alloc: Global, areas: &Areas) -> Result<Option<Vec<u8>>, AllocError> {
    let Some(disk) = disk_of_steps(alloc, areas, &[])? else {
        return Ok(None);
    };
    let Ok(slots) = SlotTxn::open(alloc, disk) else {
        return Ok(None);
    };
    let mut slots = slots;
    let Some(marks) = marks_of(alloc, &mut slots, &first_slots(alloc)?)? else {
        return Ok(None);
    };
    let mut bytes = Vec::new(alloc);
    for mark in &marks {
        bytes.push(byte_of(*mark))?;
    }
    Ok(Some(bytes))
}

/// What a run of steps left: the disk, what may be committed, and the number of wrong answers.
#[derive(Drop)]
pub struct Run {
    pub disk: MemDisk,
    pub history: History,
    pub wrong: u64,
}

/// Opens the areas, which read these bytes, performs the steps, and gives the disk. The calls of these
/// numbers fail. None where the areas cannot be a disk.
fn drive(
    alloc: Global,
    areas: &Areas,
    bytes: &[u8],
    steps: &[Step],
    fails: &[u64],
) -> Result<Option<Run>, AllocError> {
    let Some(disk) = disk_of_steps(alloc, areas, fails)? else {
        return Ok(None);
    };
    match SlotTxn::open(alloc, disk) {
        Ok(slots) => {
            let mut driven = Driven::new(alloc, slots, bytes)?;
            for step in steps {
                driven.take(alloc, step)?;
                driven.compare(3);
            }
            let wrong = driven.wrong;
            let (disk, history) = driven.close();
            Ok(Some(Run {
                disk,
                history,
                wrong,
            }))
        }
        Err((_, disk)) => Ok(Some(Run {
            disk,
            history: History::new(alloc, bytes)?,
            wrong: 0,
        })),
    }
}

/// Whether a stop at that moment, with the writes torn in that way, leaves what it may.
pub fn is_right(
    alloc: Global,
    run: &Run,
    moment: u64,
    slots: &[u32],
    way: u8,
) -> Result<bool, AllocError> {
    let images = stopped(&run.disk, moment, &torn(alloc, way)?)?;
    match images_recovered(alloc, &images, slots)? {
        Reopened::Slots(marks) => Ok(run.history.allows(moment, &marks)),
        Reopened::NotCreated | Reopened::Disk | Reopened::NoMemory => Ok(false),
    }
}

/// The first way in which a stop at that moment leaves what it may not.
fn first_wrong(
    alloc: Global,
    run: &Run,
    moment: u64,
    slots: &[u32],
) -> Result<Option<u8>, AllocError> {
    for way in 0..WAYS {
        if !is_right(alloc, run, moment, slots, way)? {
            return Ok(Some(way));
        }
    }
    Ok(None)
}

/// The answer where a stop left what it may not.
fn wrong_stop(alloc: Global, what: u64, way: u8) -> Result<String, AllocError> {
    format!(in alloc; "wrong at {what}, way {way}")
}

/// Stops after each moment of opening the areas and performing the steps.
pub fn stopped_steps(alloc: Global, areas: &Areas, steps: &[Step]) -> Result<String, AllocError> {
    let Some(bytes) = first_bytes(alloc, areas)? else {
        return String::from_str(alloc, "not opened");
    };
    let Some(run) = drive(alloc, areas, &bytes, steps, &[])? else {
        return String::from_str(alloc, "not opened");
    };
    if run.wrong > 0 {
        return format!(in alloc; "{} wrong answers", run.wrong);
    }
    let slots = first_slots(alloc)?;
    let last = run.disk.moment();
    for moment in 0..last.saturating_add(1) {
        if let Some(way) = first_wrong(alloc, &run, moment, &slots)? {
            return wrong_stop(alloc, moment, way);
        }
    }
    format!(in alloc; "{last} moments, each stop leaves what it may")
}

/// Fails each call of the disk in turn, reads included, and stops after the last step, in the four ways in
/// turn.
pub fn failed_steps(alloc: Global, areas: &Areas, steps: &[Step]) -> Result<String, AllocError> {
    let Some(bytes) = first_bytes(alloc, areas)? else {
        return String::from_str(alloc, "not opened");
    };
    let slots = first_slots(alloc)?;
    for number in 1..MOST_CALLS {
        let Some(run) = drive(alloc, areas, &bytes, steps, &[number])? else {
            return String::from_str(alloc, "not opened");
        };
        if run.disk.faults() == 0 {
            return format!(in alloc;
                "{} calls, each stop leaves what it may",
                number.saturating_sub(1)
            );
        }
        if run.wrong > 0 {
            return format!(in alloc; "{} wrong answers at call {number}", run.wrong);
        }
        let way = (number % 4) as u8;
        if !is_right(alloc, &run, run.disk.moment(), &slots, way)? {
            return wrong_stop(alloc, number, way);
        }
    }
    String::from_str(alloc, "too many calls")
}
