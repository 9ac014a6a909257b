//! What a disk in memory is made from, and what a crash leaves of it.

ghost use Rattle.std.specs.Prelude.{◌≡◌, IfOk};

use abl_base::Bytes;
use std::alloc::AllocError;

/// The bytes of the three areas: the slots, and the two areas of the log.
#[derive(Drop)]
pub struct Images {
    pub d0: Bytes,
    pub b1: Bytes,
    pub b2: Bytes,
}

impl Images {
    /// The same bytes again. Out of memory is the only refusal.
    pub fn copy(&self) -> Result<Images, AllocError>
        ensures { IfOk result (λ images. images ≡ self.now) }
    {
        Ok(Images {
            d0: self.d0.copy()?,
            b1: self.b1.copy()?,
            b2: self.b2.copy()?,
        })
    }
}

/// How much a disk in memory takes.
#[derive(Clone, Copy)]
pub struct Room {
    /// The most writes and syncs.
    pub calls: u64,
    /// The most bytes of all writes together, those that were cut included.
    pub bytes: u64,
    /// The greatest length of an area that a write makes or reaches.
    pub length: u64,
}

/// What a write that was not synced became.
#[derive(Clone, Copy)]
pub enum Torn {
    /// It never came to the disk.
    Old,
    /// It came to the disk whole.
    New,
    /// Its range has this byte throughout.
    Fill(u8),
}
