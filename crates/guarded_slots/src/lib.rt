//! Slots whose commits are guarded: `Guarded`, over any `Slots`, commits no write that its guard does
//! not allow. So what is committed, and what a stop leaves, is in each slot what the guard allows, where
//! that was so at the beginning.
#![tactic(auto)]

mod guard;
mod guarded;
mod slots;

pub use guard::Guard;
pub use guarded::Guarded;
