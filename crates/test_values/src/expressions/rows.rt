//! The answers of rows.

use crate::expressions::expressions::expression;
use crate::expressions::known::Known;
use abl_base::Value;
use evaluator::{EvalFault, at_least, at_most, evaluate, holds};
use expression_meaning::RunFault;
use std::alloc::{AllocError, Global};
use test_words::{value_of, word_of};

/// The answer of a row: a test and its values, or surroundings and an expression, with blanks
/// between the words.
pub fn answer(alloc: Global, row: &str) -> Result<String, AllocError> {
    if let Some((call, arguments)) = row.split_once(' ') {
        if let Some(answer) = answer_of(alloc, call, arguments)? {
            return Ok(answer);
        }
    }
    String::from_str(alloc, "no row")
}

/// The answer of a call.
fn answer_of(alloc: Global, call: &str, arguments: &str) -> Result<Option<String>, AllocError> {
    match call {
        "holds" => condition(alloc, arguments),
        "at-most" => compared(alloc, arguments, true),
        "at-least" => compared(alloc, arguments, false),
        _ => given(alloc, call, arguments),
    }
}

/// Whether a condition holds.
fn condition(alloc: Global, word: &str) -> Result<Option<String>, AllocError> {
    match value_of(alloc, word)? {
        Some(value) => shown(alloc, &Value::Logical(holds(&value))),
        None => Ok(None),
    }
}

/// Whether a value is at most another, or else whether it is at least that.
fn compared(alloc: Global, arguments: &str, most: bool) -> Result<Option<String>, AllocError> {
    let Some((a, b)) = arguments.split_once(' ') else {
        return Ok(None);
    };
    let (Some(a), Some(b)) = (value_of(alloc, a)?, value_of(alloc, b)?) else {
        return Ok(None);
    };
    let answer = if most {
        at_most(&a, &b)
    } else {
        at_least(&a, &b)
    };
    shown(alloc, &answer)
}

/// What an expression gives in surroundings.
fn given(alloc: Global, name: &str, words: &str) -> Result<Option<String>, AllocError> {
    let Some(known) = Known::of(alloc, name)? else {
        return Ok(None);
    };
    let Some(expression) = expression(alloc, words)? else {
        return Ok(None);
    };
    match evaluate(alloc, &known, &expression) {
        Ok(value) => shown(alloc, &value),
        Err(EvalFault::Fault(fault)) => Ok(Some(fault_word(alloc, fault)?)),
        Err(EvalFault::NoMemory) => Err(AllocError),
    }
}

/// A value as a word.
fn shown(alloc: Global, value: &Value) -> Result<Option<String>, AllocError> {
    Ok(Some(word_of(alloc, value)?))
}

/// A fault in words.
fn fault_word(alloc: Global, fault: RunFault) -> Result<String, AllocError> {
    match fault {
        RunFault::EmptyBuffer(buffer) => format!(in alloc; "buffer {buffer} is empty"),
        RunFault::Range => String::from_str(alloc, "range"),
        RunFault::Convert => String::from_str(alloc, "convert"),
        RunFault::Argument => String::from_str(alloc, "argument"),
    }
}
