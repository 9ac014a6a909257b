//! The array of slots in memory: `MemSlots`, the form of `Slots` that tests and the first stages
//! run over. It depends on `storage`. Its slots are observable, its stops are not; it stays at
//! moment 0 and never answers `Disk`. It has memory for the slots that were written alone.

mod client;
mod mem_slots;
mod slot;

pub use crate::slots::mem_slots::MemSlots;
