//! Laws of the operations that a client requests, by its own events: over every run of the machine of
//! `flat_machine`, each change is of a row that the client holds exclusively.

pub mod laws;
