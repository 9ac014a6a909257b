//! How a record is read and changed in a client's buffers, step by step: the steps of a reading over any
//! buffers (`reads`), those of a client's memory (`buffers`), and the steps of a change (`changes`).
#![tactic(auto)]

pub mod buffers;
pub mod changes;
pub mod reads;
