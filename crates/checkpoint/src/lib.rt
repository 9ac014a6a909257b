//! What holds of the log that slots with transactions keep, between its calls (`kept`), and the
//! checkpoint: what the next generation of the log carries (`next`), and writing it (`carried`).
#![tactic(auto)]

pub mod carried;
pub mod kept;
pub mod next;
