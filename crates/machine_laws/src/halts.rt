//! The machine of `flat_machine` halts: from each configuration it comes to an operation that it asks, or
//! to the end of its run.

pub mod laws;
