//! A value that an expression gives, which may be only read.

ghost use Rattle.std.specs.Prelude.{◌≡◌, Bool};
ghost use Rattle.bound_tree.specs.Bound.{expr_of};
ghost use Rattle.block_meaning.specs.Program.{Program};
ghost use Rattle.block_meaning.specs.State.{State};
ghost use Rattle.block_meaning.specs.Values.{value_now};
ghost use Rattle.client_streams.specs.lines.Reads.{IsReadIn, value_read, ReadsAs};

use abl_base::Value;
use bound_tree::Expr;
use evaluator::{EvalFault, Surroundings, evaluate};
use std::alloc::Global;

/// A value: that of a variable, which is not copied, or a new one.
#[derive(Drop)]
pub(crate) enum Read<'a> {
    Lent(&'a Value),
    Own(Value),
}

impl<'a> Read<'a> {
    /// The value.
    pub(crate) fn value(&self) -> &Value
        ensures { result.now ≡ value_read self.now }
    {
        match self {
            Read::Lent(value) => *value,
            Read::Own(value) => value,
        }
    }
}

/// The value of an expression.
pub(crate) fn read_value<'a, S: Surroundings>(
    alloc: Global,
    surroundings: &'a S,
    expression: &Expr,
) -> Result<Read<'a>, EvalFault>
    ensures { (p : Program) (retry : Bool) (s : State) → IsReadIn p retry s (S.env surroundings.now) → ReadsAs result (value_now p (expr_of expression.now) retry s) }
{
    match expression {
        Expr::Variable(variable) => Ok(Read::Lent(surroundings.variable(*variable))),
        _ => Ok(Read::Own(evaluate(alloc, surroundings, expression)?)),
    }
}
