//! The slots that a disk recovers to, read into memory as `Slots`. Nothing is written or synced.
//! The layer above may ask by it what a disk holds before it overwrites the disk: what `open`
//! returns are the recovered slots, and the disk is as before (`Stays`). It depends on
//! `bi_recovery`, whose parts read the notes of the log.
#![tactic(auto)]

mod opening;
mod slots;
mod stored;
mod view;

pub use bi_recovery::{OpenFault, ReadLog};
pub use view::RecoveredView;
