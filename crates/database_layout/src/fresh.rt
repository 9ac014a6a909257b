//! The slots of a new database: the text of its schema, and the initial values of its sequences, as
//! writes over slots of zeros (`specs/Laying.antt`). It depends on `contents`, whose `AreNew`
//! says what these slots are.

mod first_slots;
pub mod text_slots;
mod value_slots;

pub use first_slots::new_slots;
