//! The properties of blocks that their text implies (OpenEdge ABL Reference, Block properties;
//! Transactions): whether a block starts a transaction where none is open, whether it has the undo
//! property, and whether it names RETRY. `specs/Flags.antt` has the definition: the source with the
//! flags of each header. `specs/Undo.antt`, `specs/Updates.antt` and `specs/Retry.antt` have the
//! three properties, by recursion over the tree.
#![tactic(auto)]

pub mod headers;
pub mod inference;
pub mod retry;
pub mod updates;

pub use inference::infer;
