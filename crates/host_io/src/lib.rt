//! What lies outside the program: the files that it reads, the output that it writes and the gate
//! before each step, each as a trait with its form in memory. It depends on `abl_base` and
//! `storage::faults`. The layer above may rely on the traits' clauses alone: what a read returns where
//! the files are observable, that a write appends the whole piece or, after a fault, a prefix of it
//! (`Writes`), and that a call fails only where its count of faults rose. A gate has no meaning for the answers.
#![tactic(auto)]

pub mod files;
pub mod gate;
pub mod mem_files;
pub mod mem_out;
pub mod named_file;
pub mod out;

pub use files::{FileFault, Files};
pub use gate::{Gate, MeetGate, OpenGate};
pub use mem_files::MemFiles;
pub use mem_out::MemOut;
pub use named_file::{NamedFile, NamedFiles};
pub use out::{Out, OutFailed, Stream};

#[cfg(test)]
mod tests;
