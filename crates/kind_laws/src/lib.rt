//! Laws of the kinds of values in the states of a client: over every run of the machine of
//! `flat_machine`, each variable has a value of its kind, each field of a record in a buffer has one of
//! the field's kind, and so each expression has a value of its sort, or a fault. No crate of the
//! program depends on this one.
#![tactic(auto)]

pub mod bound_kinds;
pub mod laws;
pub mod schemas;
