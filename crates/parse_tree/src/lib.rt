//! What the parts of a source are, as types: its tokens, its reserved words, and its syntax tree
//! with the productions that its nodes use. It depends on `abl_base`. The layers above may rely on a
//! `Tokens` ending in its one end token, and on `keyword_of` saying which words are reserved.
#![tactic(auto)]

pub mod keyword;
pub mod production;
pub mod token;
pub mod tree;

pub use keyword::keyword_of;
pub use token::{CivilDate, Meaning, Token, TokenKind, Tokens};
pub use tree::{Node, Tree};
