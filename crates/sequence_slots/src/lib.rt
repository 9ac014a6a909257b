//! The sequence values of a database in its slots 5,000 to 5,008, thirty in each. It depends on the
//! form of fragments of `row_fragments`. The layers above rely on `slot_of`, which gives the bytes of one
//! slot, and on the law that the values which slots hold are those that are read from them;
//! `specs/Values.antt` says both.
#![tactic(auto)]

pub mod laws;
pub mod reads;
pub mod slot;
pub mod writes;

pub use slot::{have_64_bits, slot_of};
