//! What the program says about itself: the text of `--help`, and a page for each rule, status and
//! stop that a command can print, and for each word of OpenEdge ABL that a source cannot have. The
//! texts are written by `tools/explanations` from `tools/help.txt`, `tools/explanations.txt` and
//! `tools/words.txt`, which also makes `docs/refusals.md`, `docs/words.md` and the man page of them.
#![tactic(auto)]

pub mod help;
pub mod page;
pub mod pages;

pub use help::HELP;
pub use page::place_of;
pub use pages::{SPELLINGS, names, summaries, text};
