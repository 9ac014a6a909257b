//! The bank: a fixed generator of transfers between accounts, and the inputs of the clients that make
//! them. `specs/Bank.antt` says what is drawn, which transfer is whose, and each input as a text. The
//! numbers and the generator are this project's choice.

pub mod bank;
pub mod draws;
pub mod inputs;
pub mod laws;
pub mod sources;
pub mod transfer;

pub use bank::Bank;
pub use inputs::{client_input, setup_input};
pub use sources::{BANK_SCHEMA, SETUP_SOURCE, TOTAL_SOURCE, TRANSFER_SOURCE};
pub use transfer::Transfer;
