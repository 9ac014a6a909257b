//! The database machine with its trace: each step answers one operation of one client by the table
//! of answers of `database_meaning`, changes rows, locks and levels as its definition says, and
//! appends one event. Rows are a `RowStore` of `row_store`; the answers and changes are those of
//! `db_core`. From opening on the trace is legal (`specs/Machine.antt`).
#![tactic(auto)]

pub mod db;
mod levels;
mod own_answers;
mod queries;
mod replies;
mod running;
mod steps;
mod trace_size;
mod writes;

pub use db::Db;
