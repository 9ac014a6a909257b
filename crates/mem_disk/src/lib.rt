//! The disk in memory: `MemDisk`, the implementation of `Disk` that tests run over. It depends on
//! `storage`. It records its writes and syncs, fails at the calls of given numbers and where a
//! call would pass its room, and gives by `crash` the image that a crash at a moment leaves, by
//! what each write that was not synced became (`specs/Notes.antt`, `specs/Crash.antt`).
#![tactic(auto)]

mod areas;
mod call;
mod images;
mod mem_disk;
mod replay;

pub use call::{Call, Effect};
pub use images::{Images, Room, Torn};
pub use mem_disk::MemDisk;
