//! The texts that PUT, EXPORT and MESSAGE write. It depends on `evaluator` for the values of
//! expressions and on `value_masks` and `value_formats` for the forms of values. A layer above may rely
//! on `specs/Writes.antt`: each call answers the text, or the fault, that `block_meaning` says.

pub mod imports;
pub mod lines;
pub mod put;
mod read;
pub mod values;

pub use imports::read_line;
pub use lines::{export_values, message_values};
pub use put::put_items;
