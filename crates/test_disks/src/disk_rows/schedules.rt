//! Random schedules of steps of four clients, against the model, with a failing call or without; then a
//! stop with torn writes, and the slots opened again.

use crate::disk_rows::areas::Areas;
use crate::disk_rows::driven::Driven;
use crate::disk_rows::histories::History;
use crate::disk_rows::model::SLOTS;
use crate::disk_rows::reopened::{Reopened, disk_of_steps, images_recovered};
use crate::disk_rows::steps::Step;
use crate::disk_rows::sweeps::{first_bytes, first_slots, stopped};
use mem_disk::{MemDisk, Torn};
use slot_txn::SlotTxn;
use std::alloc::{AllocError, Global};
use storage::Disk;

/// Numbers that look random.
#[derive(Clone, Copy)]
struct Random {
    state: u64,
}

impl Random {
    /// Those of a seed.
    fn new(seed: u64) -> Random {
        Random {
            state: seed % 1_000_003 * 7_919 + 1,
        }
    }

    /// The next one, below `below`, which is not 0.
    fn next(&mut self, below: u64) -> u64 {
        self.state = self.state % 2_147_483_647 * 48_271 % 2_147_483_647 + 1;
        if below == 0 {
            return 0;
        }
        self.state / 7 % below
    }

    /// The next step.
    fn step(&mut self) -> Step {
        let client = (self.next(4) % 4) as u16;
        match self.next(20) {
            0..=3 => Step::Begin(client),
            4..=12 => Step::Write {
                client,
                slot: (self.next(SLOTS as u64) % 1_000) as u32,
                byte: (self.next(256) % 256) as u8,
            },
            13..=14 => Step::Mark(client),
            15..=16 => Step::Back(client),
            17..=18 => Step::Commit(client),
            _ => Step::Abandon(client),
        }
    }

    /// What writes that were not synced became.
    fn torn(&mut self, alloc: Global) -> Result<Vec<Torn>, AllocError> {
        let mut torn = Vec::new(alloc);
        for _ in 0..400u32 {
            torn.push(match self.next(3) {
                0 => Torn::Old,
                1 => Torn::New,
                _ => Torn::Fill((self.next(256) % 256) as u8),
            })?;
        }
        Ok(torn)
    }
}

/// What the schedules did together.
#[derive(Clone, Copy)]
struct Counts {
    steps: u64,
    commits: u64,
    faults: u64,
    wrong: u64,
}

/// So many schedules of so many steps, from a seed on. In every second one a call fails.
pub fn schedules(
    alloc: Global,
    areas: &Areas,
    count: u64,
    steps: u64,
    seed: u64,
) -> Result<String, AllocError> {
    let Some(bytes) = first_bytes(alloc, areas)? else {
        return String::from_str(alloc, "not opened");
    };
    let mut counts = Counts {
        steps: 0,
        commits: 0,
        faults: 0,
        wrong: 0,
    };
    for number in 0..count {
        let mut random = Random::new(seed.saturating_add(number));
        let fails = [if number % 2 == 1 {
            random.next(60).saturating_add(1)
        } else {
            0
        }];
        let right = schedule(
            alloc,
            areas,
            &bytes,
            steps,
            &fails,
            &mut random,
            &mut counts,
        )?;
        if !right {
            return format!(in alloc; "wrong at seed {}", seed.saturating_add(number));
        }
    }
    format!(in alloc;
        "{} steps, {} commits, {} faults: each as the model",
        counts.steps, counts.commits, counts.faults
    )
}

/// One schedule. It answers whether all was as the model says.
fn schedule(
    alloc: Global,
    areas: &Areas,
    bytes: &[u8],
    steps: u64,
    fails: &[u64],
    random: &mut Random,
    counts: &mut Counts,
) -> Result<bool, AllocError> {
    let Some(disk) = disk_of_steps(alloc, areas, fails)? else {
        return Ok(false);
    };
    let (disk, history) = match SlotTxn::open(alloc, disk) {
        Ok(slots) => {
            let mut driven = Driven::new(alloc, slots, bytes)?;
            for _ in 0..steps {
                driven.take(alloc, &random.step())?;
                driven.compare((random.next(SLOTS as u64) % 1_000) as u32);
            }
            counts.steps = counts.steps.saturating_add(driven.steps);
            counts.commits = counts.commits.saturating_add(driven.commits);
            counts.wrong = counts.wrong.saturating_add(driven.wrong);
            driven.close()
        }
        Err((_, disk)) => (disk, History::new(alloc, bytes)?),
    };
    counts.faults = counts.faults.saturating_add(disk.faults());
    if counts.wrong > 0 {
        return Ok(false);
    }
    for _ in 0..3u8 {
        if !stops_right(alloc, &disk, &history, random)? {
            return Ok(false);
        }
    }
    Ok(true)
}

/// Whether a stop at a random moment leaves what it may.
fn stops_right(
    alloc: Global,
    disk: &MemDisk,
    history: &History,
    random: &mut Random,
) -> Result<bool, AllocError> {
    let moment = random.next(disk.moment().saturating_add(1));
    let images = stopped(disk, moment, &random.torn(alloc)?)?;
    match images_recovered(alloc, &images, &first_slots(alloc)?)? {
        Reopened::Slots(marks) => Ok(history.allows(moment, &marks)),
        Reopened::NotCreated | Reopened::Disk | Reopened::NoMemory => Ok(false),
    }
}
