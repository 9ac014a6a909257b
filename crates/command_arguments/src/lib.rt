//! The arguments of the command line: which command they name, or which of them is wrong. It depends
//! on `abl_base` alone. The layer above relies on `read_command`: what it reads is what the arguments
//! name (`NamesCommand` in specs/CommandLine.antt), and the number of a wrong argument is the least up
//! to which no command line begins so (`IsWrong`).
#![tactic(auto)]

pub mod bank;
mod check;
pub mod client;
pub mod command;
mod create;
mod dump;
pub mod parts;
pub mod run;

pub use bank::{BankArguments, read_bank};
pub use check::CheckArguments;
pub use client::{ClientArgument, client_of};
pub use command::{Command, read_command};
pub use create::CreateArguments;
pub use dump::DumpArguments;
pub use parts::{Arg, Mode};
pub use run::RunArguments;
