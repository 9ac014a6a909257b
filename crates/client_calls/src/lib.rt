//! RUN of an internal procedure: the values of its arguments, its own frame, and what it gives back
//! (OpenEdge ABL Reference, RUN statement). Over `client_memory` (the variables) and
//! `client_values` (expressions); the layer above may rely on `specs/Calls.antt`: each call does what
//! the meaning says of the state that has these variables, and out of memory is the only other
//! answer.
#![tactic(auto)]

pub mod arguments;
pub mod frame;
pub mod outputs;
pub mod runs;
pub mod steps;
