//! What an expression gives, computed: its value, or the fault that comes first from left to right.
//! It depends on the bound tree and on the calls on values, texts and masks. What an expression
//! reads of the program around it comes by the trait `Surroundings`. The layer above may rely on
//! `evaluate`, which gives what `evaluate` of `expression_meaning` says of the tree over any text forms that
//! read numbers and write masks as `value_formats` does (`specs/Forms.antt`), and on `holds`,
//! `at_most` and `at_least`, with which IF, WHILE, TO and WHERE test values. Its rows are those of
//! `test_values`.
#![tactic(auto)]

mod arguments;
mod conversions;
mod dates;
mod entries;
pub mod evaluation;
pub mod fault;
mod held;
pub mod operators;
pub mod surroundings;
mod texts;

pub use evaluation::evaluate;
pub use fault::EvalFault;
pub use operators::{at_least, at_most, holds};
pub use surroundings::Surroundings;
