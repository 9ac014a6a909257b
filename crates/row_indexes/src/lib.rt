//! The indexes of all tables in one list, and the moves in them that a change of a row makes: the
//! row enters an index under a key, or leaves it. It depends on `key_index`. Contracts see the indexes
//! as a function from places and a function from keys to their keepers (`specs/Places.antt`). To undo
//! a change is to undo its moves, the last one first, and takes no memory.
#![tactic(auto)]

pub mod back;
pub mod index_changes;
pub mod laws;
pub mod moves;

pub use moves::{Move, Moved};
