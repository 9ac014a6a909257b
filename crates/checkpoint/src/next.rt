//! The next generation of the log that slots with transactions keep: the notes that it carries
//! (`specs/Carrying.antt`), and what opening it makes of the kept log (`proofs/`). It depends on
//! `kept` and `bi_recovery`.
