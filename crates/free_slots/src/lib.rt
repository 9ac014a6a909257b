//! The slots that may be drawn for rows, the lowest first. It depends on no other crate. A slot is
//! drawn, and given back once no transaction needs it.
#![tactic(auto)]

pub mod free;

pub use free::FreeSlots;
