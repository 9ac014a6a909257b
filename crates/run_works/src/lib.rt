//! Runs of works (a work is a source with its inputs) over the database of a disk: what opens the
//! database, serves it to the clients on threads and closes it, and what reports how they ended. It
//! joins `client_threads::served`, `disk_database` and `run_report`. The layer above relies on `execute`: each
//! client did as its source means under its own answers (`HasRun` in specs/Works.antt), the trace is
//! legal from the contents of the disk, and these survive a crash at any moment (`IsDurable` in
//! specs/Disks.antt).
#![tactic(auto)]

pub mod closing;
pub mod database;
pub mod dumping;
pub mod opening;
pub mod outcome;
mod serving;
pub mod text;
mod timed;
pub mod watched;
pub mod works;

pub use closing::Ran;
pub use database::{run_in_phases, run_together};
pub use dumping::dump_rows;
pub use opening::{NotRun, opening_refusal};
pub use outcome::Outcome;
pub use text::write_run;
pub use works::{execute, report};
