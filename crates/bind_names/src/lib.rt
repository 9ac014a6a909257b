//! Names, sorts and violations: what a name means at a place of a source, which operands fit an
//! operator, and which of several violations is the first. The passes over expressions, statements
//! and whole sources depend on it. `specs/Judged.antt` says what is noted of a part of a source,
//! `specs/Sorts.antt` has the sorts, `specs/Names.antt` the meaning of names.
#![tactic(auto)]

mod among;
mod by_table;
pub mod fault;
pub mod functions;
pub mod known;
mod listed;
pub mod meaning;
pub mod names;
pub mod notes;
pub mod scene;
pub mod sort;
pub mod violation;

pub use by_table::ByTable;
pub use fault::BindFault;
pub use listed::Listed;
pub use names::{
    Around, Defined, Formal, Known, NamedBuffer, NamedStream, NamedVariable, Naming, NamingKind,
    Signature,
};
pub use notes::Notes;
pub use scene::Scene;
pub use sort::Sort;
pub use violation::Violation;
