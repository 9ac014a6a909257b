//! What an expression is bound to, its sort, and the rules that it breaks. `specs/Expressions.antt`
//! says so for every form of expression.
#![tactic(auto)]

mod arguments;
pub mod expressions;
mod functions;
pub mod laws;
pub mod named;
mod operators;
pub mod typed;

pub use typed::Typed;
