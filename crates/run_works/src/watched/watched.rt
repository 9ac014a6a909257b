//! The disk of a run.

ghost use Rattle.std.specs.Prelude.{◌≤◌, IsTrue};
ghost use Rattle.log_meaning.specs.steps.Steps.{Image};

use crate::watched::start::Start;
use std::marker::PhantomData;
use storage::{Disk, DiskFailed};

/// A disk since the beginning of a run: each image that a crash might leave then is still one of those,
/// and there was one.
#[derive(Drop)]
pub struct Watched<D: Disk + Drop, K: Start> {
    pub disk: D,
    pub of: PhantomData<K>,
    ghost past: { K.moment ≤ D.time disk },
    ghost images: { (image : Image) → D.left disk K.moment image → ∥ K.images image ∥₁ },
    ghost some: { IsTrue (D.observable disk) → ∥ ((image : Image) × D.left disk K.moment image) ∥₁ },
}

impl<D: Disk + Drop, K: Start> Disk for Watched<D, K> {
    ghost observable = { λ w. D.observable w.disk };

    ghost seen = { λ w. D.seen w.disk };

    ghost left = { λ w. D.left w.disk };

    ghost time = { λ w. D.time w.disk };

    ghost failures = { λ w. D.failures w.disk };

    fn faults(&self) -> u64 {
        self.disk.faults()
    }

    fn moment(&self) -> u64 {
        self.disk.moment()
    }

    fn read(&mut self, area: u8, at: u64, into: &mut [u8]) -> Result<(), DiskFailed> {
        self.disk.read(area, at, into)
    }

    fn length(&mut self, area: u8) -> Result<u64, DiskFailed> {
        self.disk.length(area)
    }

    fn write(&mut self, area: u8, at: u64, bytes: &[u8]) -> Result<(), DiskFailed> {
        self.disk.write(area, at, bytes)
    }

    fn sync(&mut self, area: u8) -> Result<(), DiskFailed> {
        self.disk.sync(area)
    }

    ghost reads_left = { λ w observable. D.reads_left w.disk observable };

    ghost image_known = { λ w m image left. D.image_known w.disk m image left };
}
