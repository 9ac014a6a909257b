//! FIND, FIND CURRENT and the record of a FOR: one function a task, entry and answer of the reading
//! family of `client_machine`. It depends on `buffer_steps::reads` for the steps on the buffers and on
//! `buffer_steps::buffers` for the buffers in a client's memory. A layer above may rely on the contracts of
//! `execute`, `unwind_to` and `answer`, which are those of the machine: each keeps the rest of the
//! run.
#![tactic(auto)]

mod answers;
mod current;
mod fetch;
mod find;
mod goes;
mod locks;
mod ops;
mod places;
mod readings;
mod search;
pub mod steps;
mod takes;
mod tasks;

pub use steps::{answer, execute, unwind_to};
