//! That the schema of each file that breaks no rule is one that a `Schema` can hold. It depends on
//! `schema_reader`, whose rules say which files these are, and on `schema_text`, whose definition
//! (`IsHeld`) it is about.

mod laws;

pub use laws::schemas_of_files_are_held;
