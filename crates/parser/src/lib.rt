//! The parser: from the tokens of a source to its syntax tree. It depends on `parse_tree`, which has
//! the tokens, the tree and the names of the productions. The layers above may rely on a tree
//! being the one derivation of its tokens from `Program` by the table of productions
//! (`Spells` of the definitions), and on each refusal being the first place where a rule is broken.
//!
//! The grammar is data: one table, one row a production, which the definitions, the reader and the
//! check of the table read. `tools/grammar` writes it from `tools/grammar.txt`.
#![tactic(auto)]

mod choice;
mod expand;
pub mod laws;
mod nodes;
pub mod nonterminal;
mod opening;
pub mod rows;
mod stack;
pub mod starts;
pub mod symbol;
pub mod symbols;
pub mod syntax;
mod table;

pub use syntax::{SyntaxRefusal, parse};
