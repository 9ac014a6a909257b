//! Clients that do works (a work is a source with its inputs), served by any database: what begins a
//! client, and what runs all of them on threads, side by side or in three phases. It joins `client_core`
//! with `clients`. The layer above relies on `serve_together` and `serve_in_phases`: each client
//! did as its source means under the answers of its own events (`HaveEnded` in specs/Served.antt).

pub mod begin;
pub mod clients;
pub mod serving;

pub use begin::client_to_run;
pub use clients::EndedClient;
pub use serving::{Served, serve_in_phases, serve_together};
