//! Laws of what bound sources name: the tables, indexes and sequences in them are those of the schema.
//! No crate of the program depends on this one.

pub mod laws;
