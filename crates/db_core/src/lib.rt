//! The database machine over a store of rows: the answer of each operation, and the state after it,
//! as `database_meaning` defines them. Rows are a `RowStore` of `row_store`; beside them is `Control`:
//! locks, the marks of open levels, blocked requests, sequences. `specs/Represents.antt` says which
//! state of the definition the two represent: no overlay and no copy is stored. Each clause holds for
//! every state that they represent, so that the layer above joins it to its trace.
#![tactic(auto)]

pub mod answers;
pub mod control;
pub mod decide;
pub mod decide_writes;
pub mod laws;
pub mod levels;
pub mod locks;
pub mod refusals;
mod room;
pub mod search;
pub mod sequences;
pub mod staying;
pub mod writes;

pub use control::{Control, Session};
