//! The value of an expression.

ghost use Rattle.std.specs.Prelude.{◌≡◌, ℕ, List};
ghost use Rattle.expression_meaning.specs.Operators.{holds as holds_here};
ghost use Rattle.flat_machine.specs.Config.{Config, StackEntry};
ghost use Rattle.flat_machine.specs.Steps.{while_step};
ghost use Rattle.block_meaning.specs.Program.{Program};
ghost use Rattle.block_meaning.specs.State.{State};
ghost use Rattle.block_meaning.specs.Values.{value_now};
ghost use Rattle.bound_tree.specs.Bound.{expr_of, maybe_expr_of};
ghost use Rattle.client_values.specs.Ends.{Evaluates, Judges};
ghost use Rattle.client_values.specs.Reads.{Reads};
ghost use Rattle.client_values.specs.Variables.{state_with};

use crate::scope::Scope;
use abl_base::Value;
use bound_tree::Expr;
use client_memory::Memory;
use evaluator::{EvalFault, evaluate, holds};
use std::alloc::Global;

/// What an expression reads beside variables: RETRY, ERROR-STATUS:ERROR and RETURN-VALUE.
#[derive(Clone, Copy)]
pub struct Status<'a> {
    pub retry: bool,
    pub error: bool,
    pub returned: &'a [u8],
}

/// The value of an expression, or the fault that comes first. Out of memory may come instead.
pub fn value_of(
    alloc: Global,
    memory: &Memory,
    expression: &Expr,
    status: &Status<'_>,
) -> Result<Value, EvalFault>
    ensures { (p : Program) (rest : State) (ns : List ℕ) → Reads p rest ns memory.now status.now.error status.now.returned.now → Evaluates result (value_now p (expr_of expression.now) status.now.retry (state_with rest ns memory.now)) }
{
    let unknown = Value::Unknown;
    evaluate(
        alloc,
        &Scope {
            memory,
            unknown: &unknown,
            retry: status.retry,
            status: status.error,
            returned: status.returned,
        },
        expression,
    )
}

/// Whether WHILE holds; yes where there is none.
pub fn while_holds(
    alloc: Global,
    memory: &Memory,
    test: &Option<Expr>,
    status: &Status<'_>,
) -> Result<bool, EvalFault>
    ensures { (p : Program) (rest : State) (ns : List ℕ) (go : State → Config) (ks : List StackEntry) → Reads p rest ns memory.now status.now.error status.now.returned.now → Judges result (while_step p (maybe_expr_of test.now) status.now.retry go ks (state_with rest ns memory.now)) go ks (state_with rest ns memory.now) }
{
    match test {
        None => Ok(true),
        Some(test) => Ok(holds(&value_of(alloc, memory, test, status)?)),
    }
}
