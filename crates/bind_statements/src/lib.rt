//! What simple statements are bound to, the rules that they break, and what is known after them.
#![tactic(auto)]

pub mod assignments;
pub mod buffers;
pub mod definitions;
pub mod runs;
pub mod shown;
pub mod streams;
pub mod targets;
pub mod transfers;
