//! Rows of images, of what they recover to, and of databases on them, as `head 1 1`. At each heading the
//! three areas are empty again.

mod creations;
mod rows;
mod schema;
mod stores;

pub use rows::answer;
