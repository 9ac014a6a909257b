//! Rows of sources: `tokens a.` is answered with the tokens, `parse a.` with whether it is a program,
//! `tree STOP.` with the nodes of its tree, `uses FLOW_STOP STOP.` with how many nodes use a
//! production, and `size STOP.` with how many tokens and nodes there are. A source that breaks a rule
//! is answered with the rule and the place.

mod answers;
mod names;
mod outline;
mod source;

pub use answers::answer;
