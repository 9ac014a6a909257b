//! Rows of values: `add int:1 dec:5` is answered with the value, `dec:10000000005`.

mod rows;
mod shown;
mod stored;

pub use rows::answer;
