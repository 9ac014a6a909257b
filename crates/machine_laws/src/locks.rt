//! What a client's own events tell of its locks, whatever the other clients do.

pub mod laws;
