//! The blocks to which each buffer is scoped, and rules S (OpenEdge ABL Reference, Record scope). Which
//! free references choose the scope of a buffer is this project's choice. `specs/Scopes.antt` has the
//! scopes of one buffer as sets of blocks, `specs/Rules.antt` the rules with their places, and
//! `specs/Scoped.antt` the source with the buffers scoped to each block.
#![tactic(auto)]

pub mod blocks;
pub mod buffer;
pub mod own;
pub mod rules;
pub mod scoping;
pub mod violations;

pub use scoping::{ScopeRefusal, scopes};
