//! Rules U: labels, the targets of UNDO, LEAVE, NEXT and RETRY, and phrases and options that are in
//! a header or statement twice (OpenEdge ABL Reference, Block properties; UNDO, LEAVE, NEXT and
//! ON statements). They need no names but those of labels, so they are judged over the syntax.
//! `specs/Rules.antt` has the rules, `specs/Blocks.antt` which block a label means.
#![tactic(auto)]

pub mod actions;
pub mod around;
pub mod headers;
pub mod options;
pub mod rules;
pub mod violations;

pub use rules::first_broken;
