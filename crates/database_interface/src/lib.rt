//! A database as its clients use it: one call that answers an operation, which becomes one event of
//! the trace. It depends on `database_meaning`, whose definitions say which answers are legal. What
//! runs clients relies on the clauses of the trait alone, so that a database may take the place of
//! another without a change to it.
#![tactic(auto)]

pub mod database;

pub use database::Database;
