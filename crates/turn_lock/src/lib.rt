//! A ticket lock whose value represents one history: a list of entries, each of one client, and an origin.
//! It depends on `atomic_table`, and uses no `unsafe`.
//! Each client has a pass, which carries the client's own entries. Who takes the value with a pass finds just those entries of the client in the list, in order, and a list that begins with the one that the lock was made with, under the same origin.
//! `specs/Journal.antt`, `specs/Shared.antt`, `specs/Passes.antt` and `specs/Turn.antt` have the words of the public contracts. `specs/Rule.antt` has the rule that every step on the table keeps.
#![tactic(auto)]

mod journal;
mod passes;
mod rule;
mod shared;
mod steps;
mod turn;
mod view;

pub use journal::Journal;
pub use passes::{Pass, Passes};
pub use shared::{NoMemory, Shared};
pub use turn::Turn;
