//! A database is made on a disk from a schema: `create_database`. It depends on `fresh` for the
//! slots and on `bi_recovery` for laying them on the disk. What it does to every image is in
//! `specs/Created.antt`.

mod fault;
mod making;

pub use fault::CreateFault;
pub use making::create_database;
