//! Runs clients of block code on threads, over a database that serves every operation. It joins
//! `client_runner` with `session` and the laws of the runs of clients. The layer above relies on
//! `run_block_clients`: each client ran as its program means under its own answers, no operation on
//! levels is Refused, and the trace is legal (`HasRunIn` in specs/Ran.antt); and on `run_phases`, which
//! runs some clients after others over one database (specs/Phases.antt).

pub mod phases;
pub mod run;

pub use phases::run_phases;
pub use run::{ClientTask, run_block_clients};
