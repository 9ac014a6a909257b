//! `create` and `recover` over any disk. Recovery reads all notes of the image's log, writes the
//! slots that they recover to into area 0, or carries them where area 0 has a gap, and opens a new
//! generation. The layer above may rely on what each leaves of every image, at each of its moments
//! and where a disk call fails (`specs/Reopening.antt`, `specs/Creating.antt`). It depends on
//! `bi_log` and `log_meaning`.
#![tactic(auto)]

pub mod carried_generation;
pub mod carried_recovery;
pub mod carried_slots;
pub mod creation;
pub mod filling;
pub mod log_read;
pub mod next_generation;
pub mod notes_read;
pub mod open_fault;
pub mod rebuilding;
pub mod recovered_slots;
pub mod recovery_run;
pub mod slots_written;

pub use log_read::{ReadLog, read_log};
pub use open_fault::OpenFault;
