//! What record phrases, the statements that name blocks, and the headers of blocks are bound to, and
//! the rules that they break. `specs/Records.antt`, `specs/Named.antt`, `specs/Flow.antt` and
//! `specs/Headers.antt` say so for every form.
#![tactic(auto)]

mod brackets;
mod counters;
pub mod enclosing;
pub mod find;
pub mod flow;
pub mod headers;
mod named;
mod openings;
mod phrases;
pub mod records;
