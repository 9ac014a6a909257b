//! How a database lies in its slots: what they hold (`contents`), those of a new one (`fresh`), making it
//! on a disk (`creation`), and the text of the schema, read back (`stored_text`).
#![tactic(auto)]

pub mod contents;
pub mod creation;
pub mod fresh;
pub mod stored_text;
