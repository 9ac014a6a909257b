//! Rows with transactions, as a trait (`RowStore`) between the database machine and its storage. The
//! machine depends on the clauses of the trait alone; a store over slots and indexes implements it.
//! Contracts see the rows as a function of the identity, and a transaction as the list of its
//! changes (`specs/Rows.antt`): no clause speaks of a slot, an index entry or a placeholder. Which
//! overlay and copies of the machine's definition a list of changes represents is in
//! `specs/Changes.antt`.
#![tactic(auto)]

pub mod answers;
pub mod laws;
pub mod store;

pub use store::{Duplicate, FoundRow, RowChange, RowFault, RowStore};
