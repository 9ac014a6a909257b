//! Laws of what runs request: each request is one of a configuration of the machine of `flat_machine`
//! that the client reaches, so what holds of all these holds of it.

pub mod laws;
