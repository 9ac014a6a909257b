//! The next generation of the log of slots with transactions: the log of the other area, which
//! carries a note for each write that an unfinished transaction has made. It depends on `bi_log`,
//! `open_transactions` and `next`.

pub mod carrying;
pub mod limits;
pub mod turning;
