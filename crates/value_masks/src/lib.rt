//! What PUT and STRING write of a value under a mask, and the line that EXPORT writes of a row. It
//! depends on `abl_values`, which has the plain text and the EXPORT text of one value and says which
//! masks fit a kind. The layer above may rely on `specs/Put.antt` and `Export.antt`, which the calls
//! compute, and on `laws`: what is written under a mask has the mask's width. The rows `put`,
//! `plain` and `export` of `test_values` run it.
#![tactic(auto)]

pub mod export;
mod filled;
pub mod laws;
mod number;
pub mod put;
mod rounding;

pub use abl_values::mask_fits;
pub use export::{export_line, plain};
pub use put::put_item;
