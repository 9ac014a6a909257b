//! The listing of a source, which the command `check` prints: a line for each block with its
//! properties and the buffers scoped to it. `specs/Listing.antt` says which text it is. It reads the
//! flags of `txn_infer` and the scopes of `buffer_scope` in the headers of the bound tree. The line of a
//! block is that of the text in which it was written, which `OwnLines` knows.

pub mod line;
pub mod own_lines;
pub mod text;

pub use own_lines::OwnLines;
pub use text::listing;
