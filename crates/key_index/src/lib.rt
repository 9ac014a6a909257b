//! The entries of one index, the placeholders of clients, and the keys that they keep. It depends on
//! `abl_base`. Contracts see an index as a finite map from key bytes, in the order of bytes, to the
//! rows under that key, each with None for an entry or the client that left it (a placeholder), and
//! the client that keeps the key. The layer above may rely on this: `next` finds the entries in order
//! and passes placeholders over; what `leave` took out `enter` takes back without memory; `forget`
//! undoes an `enter`. `keeps` and `end` go over the keys and rows that any client touched since the
//! last end, never over all. `test_machine` runs rows of calls.
#![tactic(auto)]

mod chain;
pub mod index;
pub mod laws;
mod left;
mod prefix;
pub mod rows;
mod seek;
mod span;
mod touched;

pub use index::{Index, Node, PlaceState};
pub use rows::Rows;
