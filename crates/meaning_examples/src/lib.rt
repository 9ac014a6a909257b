//! Worked examples of the meaning of programs, as theorems that compute: small sources, the answers
//! that their clients get, what they write, how they end, and the operations that they ask for. They
//! are in a crate of their own so that the definitions check fast; no crate depends on it.
#![tactic(auto)]

pub use block_meaning::NextStep;
