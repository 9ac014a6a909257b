//! The syntax of a source as a typed tree: what a derivation of its tokens denotes, without the
//! words and signs that add nothing. It depends on `bound_tree`, whose operators it shares. Each
//! part has the place of the token that a refusal would name. `specs/Syntax.antt` defines the whole
//! syntax, and `specs/Typed.antt` the functions from these types to it.
//!
//! A chain of operators is a list of operands, so that the depth of a tree is bounded by the
//! nesting of its source and not by its length.
#![tactic(auto)]

pub mod block;
pub mod definition;
pub mod expression;
pub mod name;
pub mod program;
pub mod record;
pub mod statement;
pub mod word;

pub use block::{Action, Counting, Head, Opening, Phrase};
pub use definition::{Definition, VariableOption};
pub use expression::{Expression, Link, Operator};
pub use name::{Named, Word};
pub use program::{Item, Program};
pub use record::RecordOption;
pub use statement::{Argument, Count, Pair, PutItem, RightSide, Statement};
pub use word::{BlockWord, Direction, FindWhich, Function};
