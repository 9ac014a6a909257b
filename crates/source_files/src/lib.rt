//! The files of a command: the schema file, sources with the files that they need, and inputs are read
//! and judged, in this order. The layer above relies on `read`, `read_named`, `read_sources` and
//! `read_clients`, which say why a file was not read (specs/Files.antt), on `SourceTexts`, the texts of a
//! source with their expansion (specs/Expansions.antt), and on `read_tree`, `compiled_in` and
//! `schema_of`, which say which rule is broken first (specs/Compiled.antt).
#![tactic(auto)]

pub mod compiled;
pub mod files;
pub mod laws;
pub mod source;
pub mod sources;
pub mod texts;

pub use compiled::{Compiled, compiled_in, schema_of};
pub use files::{ClientTexts, MAX_FILE_BYTES, read, read_clients, read_named};
pub use source::{compile_source, read_tree};
pub use sources::read_sources;
pub use texts::SourceTexts;
