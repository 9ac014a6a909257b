//! The sequence values of a database, read from its slots 5,000 to 5,008: `stored_values`. It depends
//! on the form of these slots in `sequence_slots`. The store of rows that is opened again relies on its
//! contract: it gives the values exactly where the slots hold values, each slot byte for byte.

mod decode;
mod read;

pub use read::stored_values;
