//! The log that slots with transactions keep: how its notes, area 0 in every image, the writes of
//! the transactions and what is committed agree (`specs/KeptLog.antt`), and what each step of a
//! call makes of it (`proofs/`). It depends on `storage`, `log_meaning::steps`, `log_meaning` and
//! `bi_log`.
