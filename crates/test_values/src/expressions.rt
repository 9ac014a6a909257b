//! Rows of expressions: a row names its surroundings and then an expression in postfix notation, or
//! one of the tests on values, as `first i int:1 +`, which is answered with `int64:8`.

mod expressions;
mod known;
mod rows;

pub use rows::answer;
