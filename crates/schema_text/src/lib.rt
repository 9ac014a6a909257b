//! Reads the canonical text of a schema back. It depends on `abl_values`, whose `Schema` it makes, and
//! on `value_formats`, whose IMPORT reads the values of a line. The layer above may rely on
//! `read_canonical`: it finds a schema exactly where the text is the canonical text of a sound schema
//! that a `Schema` can hold.
#![tactic(auto)]

mod adding;
mod entries;
mod fields;
pub mod held;
mod indexes;
mod reading;
mod sequences;
mod tables;
mod unread;
mod values;
mod words;

pub use reading::read_canonical;
