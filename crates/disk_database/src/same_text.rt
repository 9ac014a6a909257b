//! Laws of databases and schemas: what slots hold depends on the canonical text of a schema alone.
//! So `disk_database` may compare this text alone.

pub mod laws;
