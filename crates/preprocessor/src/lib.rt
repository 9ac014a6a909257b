//! The preprocessor: what a source expands to, with the place that each byte was taken from, or the
//! first rule of E1 to E7 that it breaks, or the first file that it needs. It depends on `abl_base`
//! alone. The layer above may rely on `expand` (`specs/Answers.antt`): its result is that of the
//! definition, `expansion` of `specs/Expansion.antt`.
#![tactic(auto)]

pub mod answer;
pub mod braces;
pub mod condition;
pub mod conditionals;
pub mod definitions;
pub mod directive;
pub mod expanded;
pub mod expansion;
pub mod laws;
pub mod layer;
pub mod limits;
pub mod machine;
pub mod mode;
pub mod names;
pub mod parts;
pub mod places;
pub mod reference;
pub mod references;
pub mod run;
pub mod slices;
pub mod texts;
pub mod tokens;
pub mod words;

pub use answer::{PreFault, expand};
pub use expanded::{Expansion, Origin};
pub use texts::NamedText;
