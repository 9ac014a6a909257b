//! Which texts denote a value of a kind, and which one: the forms that IMPORT, INITIAL in a schema
//! file and the conversions of texts have in common. It depends on `abl_values`. The layer above may
//! rely on `specs/TextValues.antt`, whose definitions the calls compute. The rows `value` of
//! `test_values` run it.
#![tactic(auto)]

mod dates;
mod digits;
mod numbers;
mod truths;
mod values;

pub use dates::date_in;
pub use digits::are_digits;
pub use numbers::{number_in, whole_in};
pub use truths::truth_in;
pub use values::value_in;
