//! A machine with a stack that runs flat code, for every statement of the language, as definitions,
//! and the laws that tie it to the meaning.
#![tactic(auto)]

pub mod laws;
