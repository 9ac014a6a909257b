//! The database machine: which answers and steps are legal for any number of clients (in `specs/`,
//! from `Setting.antt`), the contents of a database, and the laws that hold over every legal trace
//! (`laws`). It depends on `database_protocol` for operations and answers, and on `abl_values` for
//! schemas and the bytes of rows and keys. The database itself is proved against it.
#![tactic(auto)]

pub mod contents;
pub mod laws;
pub mod state;

pub use contents::{ContentRow, ContentRows, Contents, SequenceValues};
pub use state::{BlockedRequest, Key, StoredRow};
