//! Laws of the runs of clients, beside those of `block_meaning`: after an answer that stops it a
//! client requests End alone, and what it requests names levels that its own events have left open.

pub mod laws;
