//! A transaction of all its writes, and checkpoints.

use crate::disk_rows::areas::Areas;
use crate::disk_rows::calling::{Answer, abandon, back, begin, commit, write};
use crate::disk_rows::histories::History;
use crate::disk_rows::reopened::{disk_over, images_recovered, shown};
use crate::disk_rows::sweeps::{Run, is_right};
use mem_disk::MemDisk;
use slot_txn::SlotTxn;
use std::alloc::{AllocError, Global};
use storage::{Disk, SlotFault, Slots};

/// The most writes of a transaction.
const MOST_WRITES: u32 = 7_989;

/// How many slots a run to a checkpoint writes.
const WRITTEN: u32 = 24;

/// The first slot after those whose writes do not count.
const FIRST: u32 = 5_100;

/// The slot after the last one that such a transaction writes.
const NEXT: u32 = FIRST + MOST_WRITES;

/// Writes by client 0 of the slots from 5,100 to 13,088, and how many of them were done.
fn write_all(slots: &mut SlotTxn<MemDisk>) -> u32 {
    let mut done = 0u32;
    for slot in FIRST..NEXT {
        if write(slots, 0, slot, &[7; 256]) == Answer::Done {
            done = done.saturating_add(1);
        }
    }
    done
}

/// The name of an answer.
fn name(answer: Answer) -> &'static str {
    match answer {
        Answer::Done | Answer::At(_) => "done",
        Answer::Refused(SlotFault::TxFull) => "transaction full",
        Answer::Refused(SlotFault::Disk) => "disk",
        Answer::Refused(SlotFault::NoMemory) => "no memory",
        Answer::PassedOver => "no meaning",
    }
}

/// A transaction of all its writes, one more, and ten of low slots; then it ends so: `commit`, `abandon`,
/// or `back`, which undoes all, writes once more and commits. How many writes and syncs the log had
/// before that, and what slots read after reopening.
pub fn full(alloc: Global, areas: &Areas, end: &str) -> Result<String, AllocError> {
    let Some(disk) = disk_over(alloc, areas, &[])? else {
        return String::from_str(alloc, "too long");
    };
    let Ok(slots) = SlotTxn::open(alloc, disk) else {
        return String::from_str(alloc, "not opened");
    };
    let mut slots = slots;
    let opening = log_calls(&slots);
    let begun = name(begin(&mut slots, 0));
    let done = write_all(&mut slots);
    let more = name(write(&mut slots, 0, NEXT, &[8; 256]));
    let mut low = 0u32;
    for slot in 5_000..5_010u32 {
        if write(&mut slots, 0, slot, &[9; 256]) == Answer::Done {
            low = low.saturating_add(1);
        }
    }
    let logged = log_calls(&slots).saturating_sub(opening);
    let ended = name(ended(&mut slots, end));
    let compared = [4_999, 5_000, 5_009, 5_010, FIRST, NEXT - 1, NEXT];
    let disk = slots.close();
    let images = disk.crash(disk.moment(), &[])?;
    let found = images_recovered(alloc, &images, &compared)?;
    let read = shown(alloc, &found)?;
    format!(in alloc;
        "{begun}, {done} writes, {more}, {low} low, {logged} calls on the log, {ended}, {read}"
    )
}

/// How many writes and syncs the areas of the log have had.
fn log_calls(slots: &SlotTxn<MemDisk>) -> u64 {
    let mut count = 0u64;
    for call in slots.slots.disk.calls() {
        if call.area > 0 {
            count = count.saturating_add(1);
        }
    }
    count
}

/// Ends the transaction of client 0.
fn ended(slots: &mut SlotTxn<MemDisk>, end: &str) -> Answer {
    match end {
        "commit" => commit(slots, 0),
        "abandon" => abandon(slots, 0),
        _ => {
            let answer = back(slots, 0, 0);
            if answer != Answer::Done {
                return answer;
            }
            let more = write(slots, 0, NEXT, &[8; 256]);
            if more != Answer::Refused(SlotFault::TxFull) {
                return more;
            }
            commit(slots, 0)
        }
    }
}

/// One transaction of client 0 of so many writes, of the first slots in turn.
fn grow(slots: &mut SlotTxn<MemDisk>, writes: u32, byte: u8) -> bool {
    for n in 0..writes {
        if write(slots, 0, n % WRITTEN, &[byte; 256]) != Answer::Done {
            return false;
        }
    }
    matches!(commit(slots, 0), Answer::At(_))
}

/// Commits transactions until the next generation is opened as one begins: four of all their writes,
/// and then small ones. Client 1 has begun a transaction with a write if `carried`. The answer is the
/// disk's moments before and after that call.
fn to_checkpoint(slots: &mut SlotTxn<MemDisk>, carried: bool) -> Option<(u64, u64)> {
    if carried {
        let begun = begin(slots, 1);
        let written = write(slots, 1, 30, &[99; 256]);
        if begun != Answer::Done || written != Answer::Done {
            return None;
        }
    }
    let first = slots.slots.generation.number;
    for byte in 1..9u8 {
        let before = moment_of(slots);
        if begin(slots, 0) != Answer::Done {
            return None;
        }
        if slots.slots.generation.number != first {
            return Some((before, moment_of(slots)));
        }
        let writes = if byte < 5 { MOST_WRITES } else { WRITTEN };
        if !grow(slots, writes, byte) {
            return None;
        }
    }
    None
}

/// The slots that are compared, and what they read after transactions of these bytes.
fn compared(alloc: Global) -> Result<Vec<u32>, AllocError> {
    let mut slots = Vec::new(alloc);
    for slot in 0..WRITTEN {
        slots.push(slot)?;
    }
    slots.push(30)?;
    Ok(slots)
}

/// Runs to a checkpoint, and stops at each of its last `calls` calls, in the four ways in turn.
pub fn checkpoint(
    alloc: Global,
    areas: &Areas,
    calls: u64,
    carried: bool,
) -> Result<String, AllocError> {
    let Some(disk) = disk_over(alloc, areas, &[])? else {
        return String::from_str(alloc, "too long");
    };
    let Ok(slots) = SlotTxn::open(alloc, disk) else {
        return String::from_str(alloc, "not opened");
    };
    let mut slots = slots;
    let Some((before, after)) = to_checkpoint(&mut slots, carried) else {
        return String::from_str(alloc, "no checkpoint");
    };
    let numbers = compared(alloc)?;
    let mut bytes = Vec::new(alloc);
    let mut into = [0u8; 256];
    for number in &numbers {
        let slot = *number;
        if slot >= 1 << 20 {
            return String::from_str(alloc, "not read");
        }
        if slots.read(slot, &mut into).is_err() {
            return String::from_str(alloc, "not read");
        }
        bytes.push(if slot == 30 { 0 } else { into[0] })?;
    }
    let run = Run {
        disk: slots.close(),
        history: History::new(alloc, &bytes)?,
        wrong: 0,
    };
    let from = after.saturating_sub(calls).max(before);
    for moment in from..after.saturating_add(1) {
        let way = (moment % 4) as u8;
        if !is_right(alloc, &run, moment, &numbers, way)? {
            return format!(in alloc; "wrong at {moment}, way {way}");
        }
    }
    format!(in alloc;
        "{} calls, the last {} stopped, slot 0 reads {}",
        after.saturating_sub(before),
        after.saturating_sub(from),
        bytes.first().map_or(0, |byte| *byte)
    )
}

/// Commits one write of slot 3 so often, and counts what the disk wrote.
pub fn commits(alloc: Global, areas: &Areas, count: u64) -> Result<String, AllocError> {
    let Some(disk) = disk_over(alloc, areas, &[])? else {
        return String::from_str(alloc, "too long");
    };
    let Ok(slots) = SlotTxn::open(alloc, disk) else {
        return String::from_str(alloc, "not opened");
    };
    let mut slots = slots;
    let before = spent(&slots, 0);
    for number in 0..count {
        if !commit_one(&mut slots, (number % 251) as u8) {
            return format!(in alloc; "wrong at {number}");
        }
    }
    let after = spent(&slots, before.0);
    format!(in alloc;
        "{} writes and syncs, {} bytes",
        after.0.saturating_sub(before.0),
        after.1
    )
}

/// How many writes and syncs the disk has had, and how many bytes those after the first `from` wrote.
fn spent(slots: &SlotTxn<MemDisk>, from: usize) -> (usize, u64) {
    let calls = slots.slots.disk.calls();
    let mut bytes = 0u64;
    for call in calls.iter().skip(from) {
        bytes = bytes.saturating_add(call.length as u64);
    }
    (calls.len(), bytes)
}

/// The disk's moment.
fn moment_of(slots: &SlotTxn<MemDisk>) -> u64 {
    slots.slots.disk.moment()
}

/// A transaction of client 0 with one write of slot 3.
pub fn commit_one<D: Disk + Drop>(slots: &mut SlotTxn<D>, byte: u8) -> bool {
    begin(slots, 0) == Answer::Done
        && write(slots, 0, 3, &[byte; 256]) == Answer::Done
        && matches!(commit(slots, 0), Answer::At(_))
}
