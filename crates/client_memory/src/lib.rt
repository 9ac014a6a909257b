//! The variables and record buffers of a client's open procedures, and what an UNDO restores of
//! them: old values in place of whole copies. Its callers see the whole copies.
#![tactic(auto)]

pub mod buffer;
pub mod buffers;
pub mod laws;
pub mod memory;
pub mod places;
pub mod records;
pub mod rows;
pub mod slots;

pub use buffer::{Buffer, Content, Held, Place, Spot};
pub use buffers::Buffers;
pub use memory::Memory;
pub use slots::Slots;
