//! Laws of what whole commands do: no client of a run is refused an operation, its clients are isolated
//! at each moment, and no crash loses a commit that a run acknowledged.
#![tactic(auto)]

pub mod laws;
pub mod refusals;
