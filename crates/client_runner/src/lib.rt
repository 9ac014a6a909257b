//! Clients on threads of their own over one database. It depends on `turn_lock` for the turns and on
//! `database_interface` for the steps; the trait `Session` says what a client is.
//! `run_clients` says that the trace extends the given one by events of these clients alone, and
//! that it is legal. Each client ended in agreement with its meaning under the answers of its own
//! events, and none of these is Refused.
#![tactic(auto)]

pub mod laws;
mod noted;
pub mod run;
pub mod served;
pub mod session;
pub mod start;
pub mod task;

pub use run::run_clients;
pub use session::Session;
pub use task::Task;
