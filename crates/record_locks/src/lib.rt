//! Locks on rows, what clients wait for, and cycles of waiting clients. It depends on
//! `database_protocol` and on `database_meaning`, which says what conflicts with a lock, who waits for
//! whom and what a cycle is. Contracts see the locks as a list with a record for each client number:
//! the rows that the client holds, each with true where it holds it exclusively, and the lock that it
//! waits for. The layer above may rely on this: a lock is granted exactly where no lock of another
//! client conflicts with it, and a cycle is answered exactly where one would close.
#![tactic(auto)]

pub mod held;
pub mod laws;
pub mod locks;
mod search;

pub use held::Held;
pub use locks::{BlockedLock, Client, KeyWait, KeyWaits, Locks};
