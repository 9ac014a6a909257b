//! The value of an expression of the bound tree, or the first fault from left to right. The meaning
//! of statements is defined over it, and code that evaluates is proved against it:
//! `specs/Evaluate.antt` has the definition, over `Operators.antt` and `Functions.antt`.
#![tactic(auto)]

pub mod fault;

pub use fault::RunFault;
