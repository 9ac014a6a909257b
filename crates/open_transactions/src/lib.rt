//! The transactions of sixteen clients in memory: for each its number, the writes that can be
//! undone, the slots that it wrote, its counts and the memory that is reserved for it. It depends
//! on `storage` and knows no disk. A transaction that is abandoned keeps its writes until they
//! are undone one by one (`due`).
#![tactic(auto)]

mod client;
mod transactions;

pub use client::{Client, has_low_number};
pub use transactions::Transactions;
