//! What a reading of a record evaluates: the values of its bracket, and WHERE. It depends on
//! `evaluator` for expressions in any surroundings and on `record_rules` for the kinds of a bracket.
//! A layer above may rely on `specs/Reading.antt`: the answer of each call agrees with how the step of
//! `flat_machine` that reads a record continues.

pub mod reading;

pub use reading::{bracket_row, passes};
