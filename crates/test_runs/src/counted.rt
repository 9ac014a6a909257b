//! A disk whose calls are counted.

ghost use Rattle.std.specs.Prelude.{◌≡◌};

use storage::{Disk, DiskFailed};

/// A disk, and how many reads, writes, syncs and questions for a length it was asked. The count stays at
/// 2^64 - 1.
#[derive(Drop)]
pub struct Counted<D: Disk + Drop> {
    pub disk: D,
    pub calls: u64,
}

impl<D: Disk + Drop> Counted<D> {
    /// The disk, with no call counted.
    pub fn new(disk: D) -> Counted<D> {
        Counted { disk, calls: 0 }
    }

    fn count(&mut self)
        ensures { self.new.disk ≡ self.old.disk }
    {
        self.calls = self.calls.saturating_add(1);
    }
}

impl<D: Disk + Drop> Disk for Counted<D> {
    ghost observable = { λ c. D.observable c.disk };

    ghost seen = { λ c. D.seen c.disk };

    ghost left = { λ c. D.left c.disk };

    ghost time = { λ c. D.time c.disk };

    ghost failures = { λ c. D.failures c.disk };

    fn faults(&self) -> u64 {
        self.disk.faults()
    }

    fn moment(&self) -> u64 {
        self.disk.moment()
    }

    fn read(&mut self, area: u8, at: u64, into: &mut [u8]) -> Result<(), DiskFailed> {
        self.count();
        self.disk.read(area, at, into)
    }

    fn length(&mut self, area: u8) -> Result<u64, DiskFailed> {
        self.count();
        self.disk.length(area)
    }

    fn write(&mut self, area: u8, at: u64, bytes: &[u8]) -> Result<(), DiskFailed> {
        self.count();
        self.disk.write(area, at, bytes)
    }

    fn sync(&mut self, area: u8) -> Result<(), DiskFailed> {
        self.count();
        self.disk.sync(area)
    }

    ghost reads_left = { λ c observable. D.reads_left c.disk observable };

    ghost image_known = { λ c m image left. D.image_known c.disk m image left };
}
