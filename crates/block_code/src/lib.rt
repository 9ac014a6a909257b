//! Threaded flat code for every statement, and the compiler that makes it of a bound tree.
//! `specs/Code.antt` says what code denotes which source.
#![tactic(auto)]

pub mod code;
pub mod compiler;

pub use code::{Code, Instr, ProcedureCode};
pub use compiler::compile;
