//! Rows of values in slots, with the changes of each client's transaction: `StoredRows`. It decodes
//! the rows that `byte_rows` keeps as bytes, and notes what undoes each change. It depends on
//! `byte_rows` and on the definitions of `row_store`; a store with indexes depends on its clauses.
#![tactic(auto)]

pub mod asks;
pub mod begins;
pub mod commits;
pub mod decode;
pub mod fault;
pub mod inserts;
pub mod laws;
pub mod log;
pub mod noted;
pub mod open;
pub mod opened;
pub mod other_slots;
pub mod reads;
pub mod replaces;
pub mod returns;
pub mod rows;

pub use decode::OldRow;
pub use fault::OpenFault;
pub use rows::StoredRows;
