//! The reader: from the flat syntax tree of a source to its typed syntax. It depends on `parse_tree`
//! and `syntax_tree`. `specs/` defines which part of the syntax a node denotes and where it ends, a
//! constructor a production; the layer above may rely on `syntax_reader` returning the program that
//! node 0 denotes.
#![tactic(auto)]

mod action;
mod assignment;
mod constant;
mod definition;
mod expression;
mod flow;
mod header;
pub mod laws;
mod made;
mod nodes;
mod operator;
mod record;
mod record_statement;
mod statement;
mod streaming;

pub use nodes::{ReadFault, Reader};
pub use statement::syntax_reader;
