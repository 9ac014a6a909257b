//! Rows of requests for locks, as `0 exclusive 8192`. After a heading no client holds or waits for
//! anything.

mod rows;
mod written;

pub use rows::Table;
