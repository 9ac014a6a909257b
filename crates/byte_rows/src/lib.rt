//! Rows over slots with transactions: `Chains`. It knows which slots are free, which row each other slot
//! belongs to, and which client changes it. It depends on `row_fragments`, `free_slots` and the trait
//! `Slots` of `storage`. The layers above rely on the clauses of `Chains` alone; `specs/Rows.antt`
//! says what a change of a row does, `specs/Exact.antt` which slots a row may be given.
#![tactic(auto)]

pub mod chains;
pub mod change;
pub mod client;
pub mod clients;
pub mod fault;
pub mod found;
pub mod fresh;
pub mod laws;
pub mod noted;
pub mod opened;
pub mod other_slots;
pub mod places;
pub mod release;
pub mod row;
pub mod rows;
pub mod scan;
pub mod settle;

pub use chains::Chains;
pub use fault::{ChainFault, ChainsFault};
