//! Rows as chains of fragments in slots. A row of n bytes has the least number of fragments of 240
//! bytes that holds it, and at least one; its identity is its first slot. It depends on
//! `storage`. The layers above may rely on `read_row`, and on `write_chain` and `clear` over slots
//! that the caller chooses; `specs/Fragments.antt` says which row begins at a slot, and
//! `specs/Tied.antt` when rows lie apart.
#![tactic(auto)]

pub mod chain;
pub mod fragment;
pub mod laws;
pub mod measure;
pub mod read;
pub mod whole;
pub mod write;

pub use read::StoredRow;
