//! The indexes that belong to rows: a change of a row in all indexes, made so that nothing changes
//! where the row cannot be written, the return to an earlier change, and the end of a client. It
//! depends on `row_indexes::index_changes` for the moves in indexes and on `row_keys` for the entries of rows;
//! `IsIndexed` in `specs/Indexed.antt` says what holds between two calls of a store of rows with
//! indexes, and `laws` that each call of such a store keeps it.
#![tactic(auto)]

pub mod changes;
pub mod client_moves;
pub mod ends;
pub mod laws;

pub use changes::{Started, cancel, finish, start};
pub use client_moves::{ClientMoves, idle_clients, reserve};
pub use ends::{end, give_up, go_back};
