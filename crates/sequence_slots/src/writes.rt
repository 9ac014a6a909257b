//! The sequence values of a commit, written into their slots: `store_values`. It depends on
//! `byte_rows`, whose slots it writes, and on the form of these slots in `sequence_slots`. The layers
//! above rely on its contract: after it a commit of the client leaves these values, and rows as without
//! it (`specs/Wrote.antt`).

pub mod write;

pub use write::store_values;
