//! Rules about records: which rows may be stored, the values of a new record and of a bracket,
//! when a pending record is complete, and what answers carry. It depends on `block_meaning` for the
//! definitions and on `abl_values` for values. A layer above may rely on each call to compute the
//! definition that its contract names.
#![tactic(auto)]

pub mod answers;
pub mod bracket;
pub mod indexes;
pub mod lines;
pub mod readings;
pub mod stored;

pub use answers::{
    FoundRow, Grant, found_in, grant_in, inserted_row, is_gone, refusal_in, sequence_value,
    values_in,
};
pub use bracket::bracket_values;
pub use indexes::{all_begun, cursor_in, is_row_in};
pub use stored::{initial_row, unstorable};
