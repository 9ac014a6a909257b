//! Rows of masked values and of input lines: `put x(3) text:a` is answered with the bytes that are
//! written, `a%20%20`, and `import integer,- 0 5%20x` with the values that the line gives.

mod rows;
mod shown;

pub use rows::answer;
