//! Rows with their indexes over slots: `RecordStore`, which implements the trait `RowStore` of
//! `row_store`. It joins the rows of `slot_rows` to the indexes of all tables, the moves that undo
//! each change in them, and the sequence values. The database machine depends on the clauses of the
//! trait alone; `specs/State.antt` says which state a store has and what a new one is.
#![tactic(auto)]

pub mod changes;
pub mod entering;
pub mod open_error;
pub mod opened;
pub mod other_slots;
pub mod questions;
pub mod reads;
pub mod reopened;
pub mod row_operations;
pub mod sequences;
pub mod store;

pub use open_error::OpenError;
pub use store::RecordStore;
