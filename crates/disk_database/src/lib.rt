//! A whole database over any disk: made by `create`, opened by `open`, given up by `close`, and one
//! table of it written by `dump`. It joins `db_machine` with `indexed_store` over `slot_txn`, and
//! compares the schema with the stored text. The layer above relies on what the images that a crash
//! may leave hold (`specs/Images.antt`): the contents at opening, and after the commits
//! acknowledged by then, or one more.
#![tactic(auto)]

mod creation;
mod database;
mod dumping;
mod guard;
mod judging;
pub mod laws;
mod opening;
mod recognition;
mod refusals;
pub mod same_text;
pub mod table;
mod text;
mod unused;

pub use creation::create;
pub use database::{DiskDatabase, close, open};
pub use dumping::dump;
pub use guard::{Opening, SlotGuard};
pub use opening::DiskStore;
pub use refusals::{CreateRefusal, DumpRefusal, OpenRefusal};
