//! Laws of the levels of a client, by its own events: over every run of the machine of `flat_machine`,
//! Leave and Back name open levels, and each change is asked inside one.

pub mod laws;
