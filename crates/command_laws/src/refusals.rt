//! Laws of what a database answers to clients of block code: it refuses no operation of a client of a
//! source text that breaks no rule.

pub mod laws;
