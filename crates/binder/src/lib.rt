//! The binder: from the syntax of a source and the schema to the bound tree, or the first of the
//! rules Y that the source breaks. `specs/Sources.antt` says which it is.
#![tactic(auto)]

mod binding;
mod buffers;
mod counting;
mod groups;
mod procedures;
mod signatures;
mod sources;
mod statements;
mod taken;

pub use binding::{TypeRefusal, bind};
