//! The parts of a call on slots with transactions over any disk: `LoggedSlots` owns the disk, the
//! log, the frames and the transactions, and each part keeps the log (`checkpoint::kept`). It depends on
//! `bi_log`, `slot_area`, `open_transactions` and `checkpoint::kept`.

mod beginning;
mod calls;
mod checkpointing;
mod committing;
mod ending;
mod filling;
mod generation;
mod logged_slots;
mod putting;
mod reading;
mod settling;
mod undoing;
mod writing;

pub use crate::logged::logged_slots::LoggedSlots;
pub use generation::Generation;
