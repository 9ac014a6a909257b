//! The database of one run, in memory: a new one, in which no row is and each sequence has its initial
//! value. It joins `db_machine` with `indexed_store` over its `slots`. The layer above relies on `open`
//! (`IsNew` in specs/New.antt): what a run leaves is not kept.
#![tactic(auto)]

pub mod database;
pub mod laws;
pub mod slots;

pub use database::{NewDatabase, NewStore, open};
