//! A database created over the areas, with calls of the disk stopped and failed.

use crate::disk_rows::{
    Areas, Reopened, WAYS, disk_over, images_recovered, is_multiple, reads, stopped, torn,
};
use crate::images::schema::{CUSTOMERS, schema};
use disk_database::{CreateRefusal, create};
use mem_disk::MemDisk;
use std::alloc::{AllocError, Global};
use storage::Disk;

/// The slots that are compared: the first ones, and those of the sequences.
const COMPARED: [u32; 6] = [0, 1, 2, 5000, 5001, 8191];

/// How many of its calls of the disk make no moment: reads and lengths.
const READS: u64 = 9;

/// How many stops left no database, and how many the new one.
#[derive(Clone, Copy)]
struct Tally {
    moments: u64,
    none: u64,
    made: u64,
    wrong: u64,
}

impl Tally {
    /// Nothing is counted.
    fn new() -> Tally {
        Tally {
            moments: 0,
            none: 0,
            made: 0,
            wrong: 0,
        }
    }

    /// Counts what the stops at that moment leave, where the new database reads so.
    fn count(
        &mut self,
        alloc: Global,
        disk: &MemDisk,
        moment: u64,
        new: &[u64],
    ) -> Result<(), AllocError> {
        self.moments = self.moments.saturating_add(1);
        for way in 0..WAYS {
            let images = stopped(disk, moment, &torn(alloc, way)?)?;
            let found = images_recovered(alloc, &images, &COMPARED)?;
            if reads(&found, new) {
                self.made = self.made.saturating_add(1);
            } else if matches!(found, Reopened::NotCreated) {
                self.none = self.none.saturating_add(1);
            } else {
                self.wrong = self.wrong.saturating_add(1);
            }
        }
        Ok(())
    }

    /// The counts in words.
    fn shown(&self, alloc: Global) -> Result<String, AllocError> {
        format!(in alloc;
            "{} stops: {} not created, {} made, {} wrong",
            self.moments.saturating_mul(4),
            self.none,
            self.made,
            self.wrong
        )
    }
}

/// Whether it is among the first and last `first`, or a multiple of `step`.
fn is_looked_at(number: u64, last: u64, first: u64, step: u64) -> bool {
    number <= first || last.saturating_sub(number) < first || is_multiple(number, step)
}

/// The disk after `create`, with its answer, where the calls of these numbers fail.
fn created(
    alloc: Global,
    areas: &Areas,
    fails: &[u64],
) -> Result<Option<(MemDisk, Result<(), CreateRefusal>)>, AllocError> {
    let Some(disk) = disk_over(alloc, areas, fails)? else {
        return Ok(None);
    };
    let mut disk = disk;
    let Some(schema) = schema(alloc, CUSTOMERS) else {
        return Ok(None);
    };
    let outcome = create(alloc, &mut disk, &schema);
    Ok(Some((disk, outcome)))
}

/// What the slots of the new database read.
fn new_marks(alloc: Global, disk: &MemDisk) -> Result<Reopened, AllocError> {
    let images = disk.crash(disk.moment(), &[])?;
    images_recovered(alloc, &images, &COMPARED)
}

/// Stops `create` at moments: at all up to `first`, at each `step` of them after it, and at all of the last
/// `first`.
pub fn stopped_create(
    alloc: Global,
    areas: &Areas,
    first: u64,
    step: u64,
) -> Result<String, AllocError> {
    let Some((disk, outcome)) = created(alloc, areas, &[])? else {
        return String::from_str(alloc, "no disk");
    };
    if outcome.is_err() {
        return String::from_str(alloc, "not done");
    }
    let Reopened::Slots(new) = new_marks(alloc, &disk)? else {
        return String::from_str(alloc, "not opened");
    };
    let last = disk.moment();
    let mut tally = Tally::new();
    for moment in 0..last.saturating_add(1) {
        if is_looked_at(moment, last, first, step) {
            tally.count(alloc, &disk, moment, &new)?;
        }
    }
    let counts = tally.shown(alloc)?;
    format!(in alloc; "{last} moments, {counts}")
}

/// Fails calls of `create` in the same way, and stops after it.
pub fn failed_create(
    alloc: Global,
    areas: &Areas,
    first: u64,
    step: u64,
) -> Result<String, AllocError> {
    let Some((disk, _)) = created(alloc, areas, &[])? else {
        return String::from_str(alloc, "no disk");
    };
    let Reopened::Slots(new) = new_marks(alloc, &disk)? else {
        return String::from_str(alloc, "not opened");
    };
    let last = disk.moment().saturating_add(READS);
    let mut tally = Tally::new();
    let mut calls = 0u64;
    for number in 1..last.saturating_add(1) {
        if is_looked_at(number, last, first, step) {
            let Some((disk, outcome)) = created(alloc, areas, &[number])? else {
                return String::from_str(alloc, "no disk");
            };
            if disk.faults() > 0 {
                calls = number;
                if outcome != Err(CreateRefusal::Disk) {
                    tally.wrong = tally.wrong.saturating_add(1);
                }
                tally.count(alloc, &disk, disk.moment(), &new)?;
            }
        }
    }
    let counts = tally.shown(alloc)?;
    format!(in alloc; "{calls} calls, {counts}")
}
