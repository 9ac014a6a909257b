//! The client over flat code: it asks operations, gets their answers, and writes output, until it
//! ends. It depends on `client_machine`, which keeps the rest of the run at each step; the runner
//! above feeds it one answer at a time. It may rely on `specs/Refines.antt`: under every list of
//! fitting answers the client does what its source means.
#![tactic(auto)]

pub mod answers;
pub mod begin;
pub mod client;
pub mod steps;

pub use client::Client;
pub use client_machine::inputs::Inputs;
