//! The loop variable of TO, and the tests before an iteration (OpenEdge ABL Reference, DO statement
//! and REPEAT statement).

ghost use Rattle.std.specs.Prelude.{◌≡◌, ℕ, List, Option, Bool};
ghost use Rattle.abl_base.specs.declared.value.Value.{Value};
ghost use Rattle.bound_tree.specs.Bound.{header_of, maybe_expr_of, to_of};
ghost use Rattle.bound_tree.specs.Tree.{Header as BlockHeader};
ghost use Rattle.block_meaning.specs.Program.{Program};
ghost use Rattle.block_meaning.specs.State.{State, Turn};
ghost use Rattle.block_meaning.specs.Values.{Gives};
ghost use Rattle.block_meaning.specs.Blocks.{counts_down, in_bound};
ghost use Rattle.flat_machine.specs.Config.{Config, StackEntry};
ghost use Rattle.flat_machine.specs.Steps.{advance_step, block_step, loop_step, reach_step, set_step, while_step};
ghost use Rattle.client_values.specs.Ends.{Evaluates, Judges};
ghost use Rattle.client_values.specs.Loops.{BeginsWith, by_value, phrase_of, value_to_set};
ghost use Rattle.client_values.specs.Reads.{Reads};
ghost use Rattle.client_values.specs.Variables.{AreEven, HasSameShape, state_with};

use crate::assign::assign_value;
use crate::fitted::next_value;
use crate::value::{Status, value_of, while_holds};
use abl_base::Value;
use bound_tree::{Expr, Header, ToPhrase};
use client_memory::Memory;
use evaluator::{EvalFault, at_least, at_most, holds};
use std::alloc::Global;

/// The values with which the iterations of a block begin: the start value of TO, if it has one, and
/// the value of BY.
#[derive(Drop)]
pub struct LoopValues {
    pub start: Option<Value>,
    pub by: Value,
}

/// The start value of TO and the value of BY, each evaluated once before the first iteration; 1
/// where there is no BY.
pub fn loop_values(
    alloc: Global,
    memory: &Memory,
    to: &Option<ToPhrase>,
    status: &Status<'_>,
) -> Result<LoopValues, EvalFault>
    ensures { (p : Program) (rest : State) (ns : List ℕ) (b : BlockHeader) (body d : ℕ) (ks : List StackEntry) → Reads p rest ns memory.now status.now.error status.now.returned.now → BeginsWith result (block_step p (to_of to.now) b status.now.retry body d ks (state_with rest ns memory.now)) b status.now.retry body d ks (state_with rest ns memory.now) }
{
    match to {
        None => Ok(LoopValues {
            start: None,
            by: Value::Unknown,
        }),
        Some(phrase) => {
            let start = value_of(alloc, memory, &phrase.start, status)?;
            let by = by_of(alloc, memory, &phrase.by, status)?;
            Ok(LoopValues {
                start: Some(start),
                by,
            })
        }
    }
}

/// The value of BY.
fn by_of(
    alloc: Global,
    memory: &Memory,
    by: &Option<Expr>,
    status: &Status<'_>,
) -> Result<Value, EvalFault>
    ensures { (p : Program) (rest : State) (ns : List ℕ) → Reads p rest ns memory.now status.now.error status.now.returned.now → Evaluates result (by_value p (maybe_expr_of by.now) status.now.retry (state_with rest ns memory.now)) }
{
    match by {
        None => Ok(Value::Int64(1)),
        Some(by) => value_of(alloc, memory, by, status),
    }
}

/// Whether an iteration begins: the loop variable is set and tested, unless it is a retry, and then
/// WHILE is tested.
pub fn iteration_begins(
    alloc: Global,
    memory: &mut Memory,
    header: &Header,
    own_retry: bool,
    start: Option<Value>,
    by: &Value,
    status: &Status<'_>,
) -> Result<bool, EvalFault>
    ensures shape { HasSameShape memory.old memory.new }
    ensures judges { (p : Program) (rest : State) (ns : List ℕ) (t : Turn) (go : State → Config) (ks : List StackEntry) → Reads p rest ns memory.old status.now.error status.now.returned.now → t.retry ≡ own_retry → t.start ≡ start → t.by ≡ by.now → Judges result (loop_step p (to_of header.now.to) t status.now.retry (λ s. while_step p (maybe_expr_of header.now.while_test) status.now.retry go ks s) ks (state_with rest ns memory.old)) go ks (state_with rest ns memory.new) }
{
    let reaches = variable_reaches(alloc, memory, &header.to, own_retry, start, by, status)?;
    if reaches {
        while_holds(alloc, memory, &header.while_test, status)
    } else {
        Ok(false)
    }
}

/// TO: whether the loop variable, once it is set, is not past the end value; yes where there is no
/// TO, and in a retry.
fn variable_reaches(
    alloc: Global,
    memory: &mut Memory,
    to: &Option<ToPhrase>,
    own_retry: bool,
    start: Option<Value>,
    by: &Value,
    status: &Status<'_>,
) -> Result<bool, EvalFault>
    ensures shape { HasSameShape memory.old memory.new }
    ensures judges { (p : Program) (rest : State) (ns : List ℕ) (t : Turn) (go : State → Config) (ks : List StackEntry) → Reads p rest ns memory.old status.now.error status.now.returned.now → t.retry ≡ own_retry → t.start ≡ start → t.by ≡ by.now → Judges result (loop_step p (to_of to.now) t status.now.retry go ks (state_with rest ns memory.old)) go ks (state_with rest ns memory.new) }
{
    match to {
        None => Ok(true),
        Some(phrase) => {
            if own_retry {
                return Ok(true);
            }
            advance(alloc, memory, phrase, start, by, status)
        }
    }
}

/// Sets the loop variable to its start value, or to the next one, and tests it.
fn advance(
    alloc: Global,
    memory: &mut Memory,
    phrase: &ToPhrase,
    start: Option<Value>,
    by: &Value,
    status: &Status<'_>,
) -> Result<bool, EvalFault>
    ensures shape { HasSameShape memory.old memory.new }
    ensures judges { (p : Program) (rest : State) (ns : List ℕ) (t : Turn) (go : State → Config) (ks : List StackEntry) → Reads p rest ns memory.old status.now.error status.now.returned.now → t.by ≡ by.now → Judges result (advance_step p (phrase_of phrase.now) t status.now.retry start go ks (state_with rest ns memory.old)) go ks (state_with rest ns memory.new) }
{
    let value = next_to_set(alloc, memory, phrase, start, by)?;
    set_to(alloc, memory, phrase, by, value, status)
}

/// The value to set.
fn next_to_set(
    alloc: Global,
    memory: &Memory,
    phrase: &ToPhrase,
    start: Option<Value>,
    by: &Value,
) -> Result<Value, EvalFault>
    ensures { (rest : State) (ns : List ℕ) → AreEven ns memory.now → Evaluates result (value_to_set (phrase_of phrase.now) by.now start (state_with rest ns memory.now)) }
{
    match start {
        Some(value) => Ok(value),
        None => {
            let unknown = Value::Unknown;
            next_value(alloc, memory.get(phrase.variable, &unknown), by)
        }
    }
}

/// Sets the loop variable to this value, and tests it.
fn set_to(
    alloc: Global,
    memory: &mut Memory,
    phrase: &ToPhrase,
    by: &Value,
    value: Value,
    status: &Status<'_>,
) -> Result<bool, EvalFault>
    ensures shape { HasSameShape memory.old memory.new }
    ensures judges { (p : Program) (rest : State) (ns : List ℕ) (go : State → Config) (ks : List StackEntry) → Reads p rest ns memory.old status.now.error status.now.returned.now → Judges result (set_step p (phrase_of phrase.now) by.now status.now.retry (Gives value) go ks (state_with rest ns memory.old)) go ks (state_with rest ns memory.new) }
{
    assign_value(alloc, memory, phrase.variable, value)?;
    reaches(alloc, memory, phrase, by, status)
}

/// Whether the loop variable is not past the end value, which is evaluated here.
fn reaches(
    alloc: Global,
    memory: &Memory,
    phrase: &ToPhrase,
    by: &Value,
    status: &Status<'_>,
) -> Result<bool, EvalFault>
    ensures { (p : Program) (rest : State) (ns : List ℕ) (go : State → Config) (ks : List StackEntry) → Reads p rest ns memory.now status.now.error status.now.returned.now → Judges result (reach_step p (phrase_of phrase.now) by.now status.now.retry go ks (state_with rest ns memory.now)) go ks (state_with rest ns memory.now) }
{
    let end = value_of(alloc, memory, &phrase.end, status)?;
    let unknown = Value::Unknown;
    Ok(is_in_bound(memory.get(phrase.variable, &unknown), &end, by))
}

/// Whether the value is not past the end value.
fn is_in_bound(value: &Value, end: &Value, by: &Value) -> bool
    ensures { result ≡ in_bound (counts_down by.now) value.now end.now }
{
    if is_below_zero(by) {
        holds(&at_least(value, end))
    } else {
        holds(&at_most(value, end))
    }
}

/// Whether BY counts downwards.
fn is_below_zero(by: &Value) -> bool
    ensures { result ≡ counts_down by.now }
{
    match by {
        Value::Int(n) => *n < 0,
        Value::Int64(n) => *n < 0,
        Value::Dec(n) => *n < 0,
        Value::Text(_) | Value::Logical(_) | Value::Date(_) | Value::Unknown => false,
    }
}
