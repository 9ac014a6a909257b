//! The lines of a schema file (`.df`) and what they say: the items of the file, each with the
//! attribute lines under it, and the values of the attributes. It depends on `abl_values` and
//! `text_values`. The layer above may rely on the definitions in `specs/`: `Files` says which items
//! a file has, `Forms` what a line says, and `Attributes` what the attribute lines of an item mean.
//! The rows of `test_sources` run it.
#![tactic(auto)]

pub mod attributes;
pub mod files;
mod forms;
pub mod initials;
pub mod item;
pub mod lines;
mod numbers;
