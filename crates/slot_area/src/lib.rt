//! The slots of area 0 of a disk, a fixed number of them in memory. A changed slot reaches area 0
//! only when its note is settled (`specs/Area.antt`). It depends on `storage`, `log_meaning::steps` and
//! `log_meaning`.
#![tactic(auto)]

mod area_writes;
mod extending;
pub mod frame;
mod frame_changes;
mod frame_reads;
mod frame_writes;
pub mod frames;
mod opening;
pub mod slot_area;
mod slots;

pub use slot_area::SlotArea;

/// How many slots a database has in memory. This project's choice.
pub const FRAMES: u16 = 1024;
