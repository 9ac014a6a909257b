//! The command `bank`: one client sets up the accounts, then 1 to 8 clients make transfers side by
//! side, then one adds up the balances, all over the database on the disk. It joins `inputs` with
//! `source_files` and `run_works`. The layer above relies on `run_bank` (`BankResult` in
//! specs/Result.antt).
#![tactic(auto)]

pub mod bank;
pub mod inputs;
pub mod texts;

pub use bank::run_bank;
