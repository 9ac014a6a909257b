//! What the headline promises of crashes, as laws that can be cited: what survives a crash is opened
//! again, and has every acknowledged commit. Each law is the contract of a function that does nothing.
#![tactic(auto)]

pub mod commits;
pub mod laws;
