//! What holds of every database in memory. Each law is the contract of a function that does nothing.

use crate::database::NewDatabase;

/// A database may go to another thread.
pub fn a_database_may_go_to_another_thread() {
    may_go::<NewDatabase>();
}

/// The type may go to another thread.
fn may_go<D: Send>() {}
