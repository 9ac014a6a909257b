//! The ends of iterations, and UNDO, with record buffers (OpenEdge ABL Reference, Block properties,
//! UNDO statement, RELEASE statement): pending records are inserted, buffers are released, levels
//! are left and restored. It depends on `client_machine` for the machine whose steps these are. A
//! layer above may rely on `steps`: each step, entry and answer of this family keeps the rest of the
//! run, and out of memory is the only other result.
#![tactic(auto)]

mod answers;
mod backs;
mod closes;
mod enters;
mod insertion;
mod lists;
mod refresh;
mod releases;
pub mod steps;

pub use steps::{answer, execute, unwind_to};
