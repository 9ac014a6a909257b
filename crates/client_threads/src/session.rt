//! The client that runs block code, as the runner of clients asks for it.

pub mod session;

pub use session::ClientSession;
