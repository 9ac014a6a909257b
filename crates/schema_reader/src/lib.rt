//! Schema files (`.df`): reads one into the schema that it means, or names the first rule F1 to F12
//! that it breaks and the line. It depends on `schema_lines`, which finds the items of a file, and on
//! `abl_values`, whose `Schema` it makes. `Rules` in specs/ says which rules a file breaks and which
//! comes first, and `Meaning` which schema a file without violation means; the layer above may rely
//! on both, exactly. `laws` states that such a file means a sound schema, and exactly what the
//! canonical text of a schema determines. The rows of `test_sources` run it.
#![tactic(auto)]

mod census;
mod conditions;
pub mod laws;
mod meaning;
mod read;
mod sizes;
pub mod violation;

pub use abl_values::Schema;
pub use read::{SchemaRefusal, read_df};
