//! The keys of rows in the indexes of their tables: the moves that a change of a row makes, and what
//! the indexes are asked. It depends on `codec` for the bytes of keys, on `row_indexes` for the
//! indexes and moves, and on the definitions of `row_store` and `database_meaning`. It knows nothing
//! of how rows are stored: a clause speaks of any rows whose keys are the entries of the indexes
//! (`AreEntries` in `specs/Entries.antt`).
#![tactic(auto)]

pub mod codec;
pub mod duplicates;
pub mod indexes;
pub mod keys;
pub mod laws;
pub mod moves;
mod numbers;
mod prefixes;
pub mod reserved;
pub mod searches;

pub use duplicates::duplicate;
pub use indexes::new_indexes;
pub use keys::long_key;
pub use moves::{RowMoves, moves_of};
pub use reserved::{has_reserved, reserved_by};
pub use searches::next;
