//! Rows of steps on the database machine, as `0 share 8192`. At each heading the database is opened
//! anew, with the customers 1, 2 and 3 in the rows 8192, 8193 and 8194.

mod asked;
mod rows;
mod shop;
mod values;
mod written;

pub use shop::answered;
