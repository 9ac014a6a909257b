//! Commits over real files, to measure by hand how many there are in a second.

use crate::disk_rows::commit_one;
use bi_recovery::creation::create;
use disk_files::DiskFiles;
use slot_txn::SlotTxn;
use std::alloc::Global;
use std::io;

/// Makes slots in the files of that name, commits one write of slot 3 so often, and says how often.
pub fn answer(machine: &HostRuntime, alloc: Global, words: &str) -> io::Result<String> {
    let (name, count) = words.split_once(' ').unwrap_or((words, "0"));
    let mut disk = DiskFiles::new(machine, alloc, name)?;
    if create(&mut disk, &[]).is_err() {
        return Ok(String::from_str(alloc, "not created")?);
    }
    let Ok(slots) = SlotTxn::open(alloc, disk) else {
        return Ok(String::from_str(alloc, "not opened")?);
    };
    let mut slots = slots;
    for number in 0..count.parse::<u64>().unwrap_or(0) {
        if !commit_one(&mut slots, (number % 251) as u8) {
            return Ok(format!(in alloc; "failed at {number}")?);
        }
    }
    Ok(String::from_str(alloc, "done")?)
}
