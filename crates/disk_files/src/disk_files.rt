//! The disk over three files of the machine.

ghost use Rattle.std.specs.Prelude.{◌≡◌, ◌+◌, ◌≤◌, ◌^◌, is_ok, IsTrue, IfOk, true, false};
ghost use Rattle.storage.specs.Disk.{HasCause};

use crate::fault::{Fault, Place};
use crate::names::Names;
use crate::open_files::OpenFiles;
use std::alloc::{AllocError, Global};
use std::fs::File;
use std::io;
use std::io::ErrorKind;
use std::rt::Files as Machine;
use storage::{Disk, DiskFailed};

/// The files `DATABASE.d0`, `DATABASE.b1` and `DATABASE.b2` of the machine as areas 0, 1 and 2. What
/// they hold is not observable in proofs. They are opened at the first call, under an exclusive
/// lock each, so the calls of a second process on the same database fail until the first has ended.
/// A missing file is an area without bytes, where no other file has bytes: then the first write makes
/// the files that are missing. Where another file has bytes each call fails. After a sync that failed
/// each later sync fails.
#[derive(Drop)]
pub struct DiskFiles<'a, R> {
    files: OpenFiles<'a, R>,
    time: u64,
    failed: u64,
    first: Option<Fault>,
}

impl<'a, R: Machine<File = File>> DiskFiles<'a, R> {
    /// The disk of that database, which is the path of its files without their suffixes, at moment 0.
    /// No file is touched yet. Out of memory is the only error.
    pub fn new(
        machine: &'a R,
        alloc: Global,
        database: &str,
    ) -> Result<DiskFiles<'a, R>, AllocError>
        ensures moment { IfOk result (λ disk. disk.time ≡ 0) }
        ensures faults { IfOk result (λ disk. disk.failed ≡ 0) }
    {
        Ok(DiskFiles {
            files: OpenFiles::new(machine, Names::new(alloc, database)?),
            time: 0,
            failed: 0,
            first: None,
        })
    }

    /// Why the first call that failed did so: the name of the file that it was on, or of the directory of
    /// the files, and the error of the machine. `WouldBlock` is that of a file under another lock.
    pub fn first_fault(&self) -> Option<(&str, io::Error)> {
        match self.first {
            Some(fault) => Some((self.files.name_of(fault.place), fault.error)),
            None => None,
        }
    }

    /// The first file that was not empty when the files were opened: its name, and how many bytes it
    /// had.
    pub fn held(&self) -> Option<(&str, u64)> {
        self.files.held()
    }

    /// Goes to the next moment, and returns false where this is the last.
    fn goes_on(&mut self) -> bool
        ensures next { result ≡ true → self.new.time ≡ self.old.time + 1 }
        ensures last { result ≡ false → 2 ^ 64 ≤ self.old.time + 1 }
        ensures stays { result ≡ false → self.new.time ≡ self.old.time }
        ensures faults { self.new.failed ≡ self.old.failed }
    {
        if self.time == u64::MAX {
            return false;
        }
        self.time += 1;
        true
    }

    /// The outcome of a call, whose failure is counted.
    fn counted<T: Drop>(&mut self, outcome: Result<T, Fault>) -> Result<T, DiskFailed>
        ensures same { is_ok result ≡ is_ok outcome }
        ensures time { self.new.time ≡ self.old.time }
        ensures cause { HasCause self.old.failed self.new.failed (is_ok result) }
    {
        match outcome {
            Ok(value) => Ok(value),
            Err(fault) => {
                self.failed = self.failed.saturating_add(1);
                if self.first.is_none() {
                    self.first = Some(fault);
                }
                Err(DiskFailed)
            }
        }
    }
}

/// The fault of a call that is made at the last moment.
fn no_moment(area: u8) -> Fault {
    Fault::new(Place::Area(area as usize), ErrorKind::Other.into())
}

impl<R: Machine<File = File>> Disk for DiskFiles<'_, R> {
    ghost use Rattle.std.specs.Prelude.{[]};
    ghost use Rattle.std.proofs.Common.{true≢false, sym};

    ghost observable = { λ _. false };

    ghost seen = { λ _ _. [] };

    ghost left = { λ _ _ _. IsTrue false };

    ghost time = { λ disk. disk.time };

    ghost failures = { λ disk. disk.failed };

    ghost reads_left = { λ _ never. never };

    ghost image_known = { λ _ _ _ never. absurd (true≢false (sym never)) };

    fn faults(&self) -> u64 {
        self.failed
    }

    fn moment(&self) -> u64 {
        self.time
    }

    fn read(&mut self, area: u8, at: u64, into: &mut [u8]) -> Result<(), DiskFailed> {
        let outcome = self.files.read(area as usize, at, into);
        self.counted(outcome)
    }

    fn length(&mut self, area: u8) -> Result<u64, DiskFailed> {
        let outcome = self.files.length(area as usize);
        self.counted(outcome)
    }

    fn write(&mut self, area: u8, at: u64, bytes: &[u8]) -> Result<(), DiskFailed> {
        if !self.goes_on() {
            return self.counted(Err(no_moment(area)));
        }
        let outcome = self.files.write(area as usize, at, bytes);
        self.counted(outcome)
    }

    fn sync(&mut self, area: u8) -> Result<(), DiskFailed> {
        if !self.goes_on() {
            return self.counted(Err(no_moment(area)));
        }
        let outcome = self.files.sync(area as usize);
        self.counted(outcome)
    }
}
