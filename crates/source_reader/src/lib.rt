//! A source text, read and judged over a schema: its tokens, the tree of the grammar, the syntax that
//! this denotes, names and types, the scopes of buffers, labels and blocks, and the flags of blocks. It
//! joins the crates of these passes. The layer above relies on `read_source`: the tree that it returns
//! is the one that the text denotes (`IsTreeOf` in specs/Sources.antt), and a rule that it names is the
//! first one that the text breaks (`BreaksRule`).
#![tactic(auto)]

pub mod laws;
pub mod listing;
pub mod source;
pub mod verdicts;

pub use source::{SourceFault, read_source, read_syntax};
pub use verdicts::{judge_names, read_scopes};
