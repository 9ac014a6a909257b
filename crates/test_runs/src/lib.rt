//! Rows of whole commands, for programs that read a row a line and write it with its answer. A row has
//! the arguments of one or more commands, with ` ; ` between, and after tabs the source `p`, the schema
//! file `s.df`, the faults (`read2` for a second read that fails, `write1` for a first write that fails,
//! `room39` for streams that take 39 bytes, `disk3` for a third disk call that fails, `uncreated` for a
//! disk without a database), and each other file as `NAME=TEXT`. What is done to the disk between two
//! commands is said in `disk_edits.rt`. With `clients` among the faults the lines of the trace are shown
//! by client, without their numbers; with `unnamed` all lines in the order of their bytes, without the
//! clients' names; with `whole` all bytes of a long text. The answer is the status and what is then on
//! standard output and standard error. How a row writes texts is said in `texts.rt`. It depends on
//! `abl_cli` and on the files, streams and disk in memory; its rows are those of the programs above.
#![tactic(auto)]

mod by_client;
mod commands;
mod counted;
mod disk_edits;
mod disks;
mod lines;
mod rows;
mod texts;
mod unnamed;

pub use lines::Lines;
