//! The meaning of a bound tree: the operations that a client asks for, what it writes, and how it
//! ends, as a function of its tree, its inputs and the answers that it gets
//! (`specs/Meaning.antt`). Values of expressions are those of `expression_meaning`, operations and answers
//! those of `database_protocol`. A client that runs code is proved against this meaning; `laws` says
//! what holds of every run.
#![tactic(auto)]

pub mod laws;
pub mod wants;

pub use database_protocol::{Answer, ClientEnd, Event, NextStep, Op, StopWhy};
pub use wants::Piece;
