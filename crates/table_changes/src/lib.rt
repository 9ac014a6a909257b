//! What a stored table is after a field was added or dropped, and what its rows then are, as
//! definitions and laws; no code that runs. No row is written again: an added field is stored last,
//! and a dropped one keeps its place. The layer above may rely on the laws in `laws`. It depends on
//! `stored_schema`.
#![tactic(auto)]

pub mod laws;
