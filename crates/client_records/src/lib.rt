//! The statements that change records and sequences: assignments, CREATE and DELETE, as tasks of the
//! client's machine. It depends on `buffer_steps::changes` for what each step does to a buffer, and on
//! `client_machine` for the machine. A layer above may rely on the one contract of its three calls,
//! `execute`, `unwind_to` and `answer`: each keeps the rest of the run (`specs/Step.antt` of
//! `client_machine`). Out of memory is the only error, and leaves the output as it was.
#![tactic(auto)]

mod assigns;
mod completions;
mod creates;
mod deletes;
mod entries;
mod locks;
mod memory;
mod rights;
pub mod steps;
mod stores;
mod targets;

pub use steps::{answer, execute, unwind_to};
