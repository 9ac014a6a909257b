//! Laws of the machine of `flat_machine`, over each of its runs: the units that it spends, that it halts,
//! which levels it leaves and goes back to, which locks and rows its operations are about, where a record
//! is pending, and that each request of a run is one of a configuration that the client reaches. No crate
//! of the program depends on it.
#![tactic(auto)]

pub mod halts;
pub mod levels;
pub mod locks;
pub mod operations;
pub mod pending;
pub mod requests;
pub mod units;
