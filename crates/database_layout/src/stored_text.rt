//! The text of the schema that a database has in its slots (`specs/Held.antt`). It depends on
//! `fresh`, which lays that text. The layer above relies on `stored_text`, which gives a text
//! exactly where the slots hold it byte for byte.

mod first_slots;
pub mod laws;
mod stored;
mod texts;

pub use stored::stored_text;
