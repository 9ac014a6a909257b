//! The bound tree: a source in which each name is the number of its variable, buffer, field,
//! stream, sequence or procedure, each block has its header, and each value is marked with its
//! kind. The binder makes it; the compiler and the definition of what a client does read it.
//! `specs/Tree.antt` has the tree of that definition, `specs/Bound.antt` the function from these
//! types to it. The depth of a tree is bounded by the nesting of its source (rule G2), whatever
//! the source's length.
#![tactic(auto)]

pub mod block;
pub mod expression;
pub mod procedure;
pub mod statement;

pub use block::{
    Action, BlockKind, BracketValue, Fetch, FetchWord, Flags, Header, LockWanted, OnPhrase,
    Reading, ToPhrase,
};
pub use expression::{Binary, Expr, Link, Operator, Ternary, Unary, Variable};
pub use procedure::{Bound, BufferDef, Procedure, Reference, ReferenceKind};
pub use statement::{Argument, Assignment, FindWord, PutItem, Right, Stmt, Target};
