//! The answers of rows.

use crate::values::{shown, stored};
use abl_base::Value;
use abl_values::{
    add, compare, date_of, date_parts, divide, export_value, fit, mask_fits, modulo, multiply,
    subtract,
};
use std::alloc::{AllocError, Global};
use test_words::{bytes_of, kind_of, value_of};

/// The answer of a row: the name of a call and its arguments, with a blank between.
pub fn answer(alloc: Global, row: &str) -> Result<String, AllocError> {
    if let Some((call, arguments)) = row.split_once(' ') {
        if let Some(answer) = answer_of(alloc, call, arguments)? {
            return Ok(answer);
        }
    }
    String::from_str(alloc, "no row")
}

/// The answer of a call.
fn answer_of(alloc: Global, call: &str, arguments: &str) -> Result<Option<String>, AllocError> {
    match call {
        "day" => day(alloc, arguments),
        "parts" => parts(alloc, arguments),
        "mask" => mask(alloc, arguments),
        "fit" => fitted(alloc, arguments),
        "export" => exported(alloc, arguments),
        "value" => stored::value(alloc, arguments),
        "run" => stored::run(alloc, arguments),
        "read" => stored::read(alloc, arguments),
        "bytes" => stored::empty_row(alloc),
        "key" => stored::key(alloc, arguments),
        "names" => stored::names(alloc, arguments),
        _ => computed(alloc, call, arguments),
    }
}

/// The answer of an operator on two values.
fn computed(alloc: Global, operator: &str, operands: &str) -> Result<Option<String>, AllocError> {
    let Some((first, second)) = operands.split_once(' ') else {
        return Ok(None);
    };
    let Some(a) = value_of(alloc, first)? else {
        return Ok(None);
    };
    let Some(b) = value_of(alloc, second)? else {
        return Ok(None);
    };
    operated(alloc, operator, &a, &b)
}

/// What an operator gives.
fn operated(
    alloc: Global,
    operator: &str,
    a: &Value,
    b: &Value,
) -> Result<Option<String>, AllocError> {
    match operator {
        "compare" => Ok(Some(String::from_str(alloc, shown::order(compare(a, b)))?)),
        "add" => Ok(Some(shown::answer(alloc, add(alloc, a, b))?)),
        "subtract" => Ok(Some(shown::answer(alloc, subtract(a, b))?)),
        "multiply" => Ok(Some(shown::answer(alloc, multiply(a, b))?)),
        "divide" => Ok(Some(shown::answer(alloc, divide(a, b))?)),
        "modulo" => Ok(Some(shown::answer(alloc, modulo(a, b))?)),
        _ => Ok(None),
    }
}

/// A value as a target of a kind takes it.
fn fitted(alloc: Global, arguments: &str) -> Result<Option<String>, AllocError> {
    let Some((kind, word)) = arguments.split_once(' ') else {
        return Ok(None);
    };
    let Some(kind) = kind_of(kind) else {
        return Ok(None);
    };
    match value_of(alloc, word)? {
        Some(value) => Ok(Some(shown::answer(alloc, fit(alloc, &value, kind))?)),
        None => Ok(None),
    }
}

/// The text that EXPORT writes of a value.
fn exported(alloc: Global, word: &str) -> Result<Option<String>, AllocError> {
    let Some(value) = value_of(alloc, word)? else {
        return Ok(None);
    };
    Ok(Some(shown::text(alloc, export_value(alloc, &value)?.as_slice())?))
}

/// Whether a mask is one for values of a kind.
fn mask(alloc: Global, arguments: &str) -> Result<Option<String>, AllocError> {
    let Some((kind, mask)) = arguments.split_once(' ') else {
        return Ok(None);
    };
    let Some(kind) = kind_of(kind) else {
        return Ok(None);
    };
    let mask = bytes_of(alloc, mask.as_bytes())?;
    let fits = mask_fits(mask.as_slice(), kind);
    Ok(Some(String::from_str(alloc, if fits { "fits" } else { "does not fit" })?))
}

/// The day number of a month, a day and a year.
fn day(alloc: Global, arguments: &str) -> Result<Option<String>, AllocError> {
    match three_numbers(arguments) {
        Some((month, day, year)) => match date_of(month, day, year) {
            Some(number) => Ok(Some(format!(in alloc; "{number}")?)),
            None => Ok(Some(String::from_str(alloc, "no date")?)),
        },
        None => Ok(None),
    }
}

/// Three numbers with a blank between.
fn three_numbers(words: &str) -> Option<(i64, i64, i64)> {
    let (first, rest) = words.split_once(' ')?;
    let (second, third) = rest.split_once(' ')?;
    Some((
        first.parse::<i64>().ok()?,
        second.parse::<i64>().ok()?,
        third.parse::<i64>().ok()?,
    ))
}

/// The month, the day and the year of a day number.
fn parts(alloc: Global, number: &str) -> Result<Option<String>, AllocError> {
    match number.parse::<i32>() {
        Ok(number) => {
            let (month, day, year) = date_parts(number);
            Ok(Some(format!(in alloc; "{month} {day} {year}")?))
        }
        Err(_) => Ok(None),
    }
}
