//! Values in the variables of a client's open procedures: what an expression gives there,
//! assignments to variables, and the loop variable of TO. Over `client_memory` (the variables) and
//! `evaluator` (expressions); the layer above may rely on `specs/Ends.antt`: each call does what the
//! meaning says of the state that has these variables, and out of memory is the only other answer.
#![tactic(auto)]

pub mod assign;
pub mod fitted;
pub mod loops;
pub mod scope;
pub mod value;
