//! Functions on texts, and BEGINS (OpenEdge ABL Reference, each by its name).

ghost use Rattle.std.specs.Prelude.{◌≡◌, take, drop};
ghost use Rattle.abl_values.specs.Order.{compared_text, without_trailing};
ghost use Rattle.expression_meaning.specs.Functions.{cut_from, length_of, substring, text_in, whole_in};
ghost use Rattle.expression_meaning.specs.Operators.{begins, begins_with};
ghost use Rattle.evaluator.specs.Gives.{Gives};

use crate::arguments::{text_in, whole_in};
use crate::fault::EvalFault;
use abl_base::{Items, Value};
use abl_values::same_name;
use expression_meaning::RunFault;
use std::alloc::Global;

/// BEGINS, which compares as `=` does.
pub(crate) fn begins(text: &Value, start: &Value) -> Value
    ensures { result ≡ begins text.now start.now }
{
    match (text, start) {
        (Value::Text(text), Value::Text(start)) => {
            Value::Logical(begins_alike(text.as_slice(), start.as_slice()))
        }
        _ => Value::Unknown,
    }
}

/// Whether a text begins with another, in any case and without trailing blanks.
#[tactic(auto, using(crate::proofs::Begins::begins_same, crate::proofs::Begins::begins_short))]
fn begins_alike(text: &[u8], start: &[u8]) -> bool
    ensures { result ≡ begins_with (compared_text text.now) (compared_text start.now) }
{
    let text = trimmed(text);
    let start = trimmed(start);
    start.len() <= text.len() && same_name(&text[..start.len()], start)
}

/// The text without its trailing blanks.
fn trimmed(text: &[u8]) -> &[u8]
    ensures { result.now ≡ without_trailing 32 text.now }
{
    let mut end = text.len();
    while end > 0 && text[end - 1] == b' ' {
        end -= 1;
    }
    &text[..end]
}

/// LENGTH, in bytes.
pub(crate) fn length(value: &Value) -> Value
    ensures { result ≡ length_of (text_in value.now) }
{
    match text_in(value) {
        Some(text) => Value::Int64(text.len() as i64),
        None => Value::Unknown,
    }
}

/// SUBSTRING(text, first, count).
pub(crate) fn substring(
    alloc: Global,
    text: &Value,
    first: &Value,
    count: &Value,
) -> Result<Value, EvalFault>
    ensures { Gives result (substring (text_in text.now) (whole_in first.now) (whole_in count.now)) }
{
    match (text_in(text), whole_in(first), whole_in(count)) {
        (Some(text), Some(first), Some(count)) => cut_from(alloc, text, first, count),
        _ => Ok(Value::Unknown),
    }
}

/// `count` bytes of a text, or with -1 the rest of it, from the place `first` on, counted from 1.
fn cut_from(alloc: Global, text: &[u8], first: i64, count: i64) -> Result<Value, EvalFault>
    ensures { Gives result (cut_from text.now first count) }
{
    if first < 1 || count < -1 {
        return Err(EvalFault::Fault(RunFault::Argument));
    }
    let rest = without_first(text, (first - 1) as usize);
    let kept = if count == -1 {
        rest
    } else {
        first_of(rest, count as usize)
    };
    Ok(Value::Text(Items::of(alloc, kept)?))
}

/// The text without its first `count` bytes.
fn without_first(text: &[u8], count: usize) -> &[u8]
    ensures { result.now ≡ drop count text.now }
{
    if count < text.len() {
        &text[count..]
    } else {
        &[]
    }
}

/// The first `count` bytes of a text, or all of it where it has fewer.
fn first_of(text: &[u8], count: usize) -> &[u8]
    ensures { result.now ≡ take count text.now }
{
    if count < text.len() {
        &text[..count]
    } else {
        text
    }
}
