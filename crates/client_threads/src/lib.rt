//! Clients on threads over one database: a session of a client (`session`), what a run of clients does
//! (`runs`), clients of block code (`clients`), and clients that do works in phases (`served`).
#![tactic(auto)]

pub mod clients;
pub mod runs;
pub mod served;
pub mod session;
