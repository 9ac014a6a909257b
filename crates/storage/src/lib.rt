//! What the database is stored on: slots with transactions, and the disk below them, each as a
//! trait with its meaning (`specs/Slots.antt`, `specs/Disk.antt`). It depends on `faults`. The
//! layers above rely on the traits' clauses alone; `new_database::slots` and `mem_disk` are the
//! implementations in memory.
#![tactic(auto)]

pub mod disk;
pub mod faults;
pub mod slots;

pub use disk::{Disk, DiskFailed};
pub use slots::{Mark, SlotFault, Slots, Undo};
