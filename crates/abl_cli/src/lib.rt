//! The program without its outside: the arguments, the order of refusals, and what each command does.
//! It depends on all crates below; `main` gives it the real files and streams.
#![tactic(auto)]

mod check;
mod clients;
pub mod command;
mod creating;
mod dumping;
pub mod laws;
mod load;

pub use command::run_abl;
pub use command_arguments::{Arg, Mode};
pub use run_report::{Ends, Refusal, Report};
pub use run_works::Outcome;
pub use source_files::{MAX_FILE_BYTES, compile_source};
pub use source_reader::{SourceFault, read_syntax};
