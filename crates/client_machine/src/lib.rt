//! The machine that runs flat code: its fields, its steps by subject, and what follows an answer.
//! It depends on `block_code` for what it runs and on `flat_machine` for what a step is. A layer above
//! may rely on `specs/Step.antt`: each step, and each answer, keeps the rest of the run.
#![tactic(auto)]

pub mod actions;
pub mod answers;
pub mod assignments;
pub mod blocks;
pub mod branches;
pub mod complaints;
pub mod conditions;
pub mod ends;
pub mod headers;
pub mod inputs;
pub mod loops;
pub mod machine;
pub mod mode;
pub mod records;
pub mod returns;
pub mod statements;
pub mod step;
pub mod undo;
