//! Laws of the pending records of a client: over every run of the machine of `flat_machine`, no record
//! is pending outside of a transaction, and so each Insert is asked inside a level.

pub mod laws;
