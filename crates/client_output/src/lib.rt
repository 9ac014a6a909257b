//! The output of a client: its sections, the default one first, and as definitions the sections of
//! the pieces that it wrote (`specs/Sections.antt`).
#![tactic(auto)]

pub mod output;
pub mod section;
mod writing;

pub use output::Output;
pub use section::Section;
