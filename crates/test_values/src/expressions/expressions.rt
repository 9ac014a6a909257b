//! The expression that words denote, in postfix notation.

use abl_base::{Items, Kind, Value};
use bound_tree::{Binary, Expr, Link, Operator, Ternary, Unary, Variable};
use std::alloc::{AllocError, Global};
use test_words::{bytes_of, kind_of, value_of};

/// The expression that the words denote. A word without operands is a value, a variable (`i` whole,
/// `d` decimal, `t` text, `u` unknown), a field (`f0` or `f1` of buffer 0, `e1` or `e2` of that
/// buffer), a state (`available0`, `locked2`, `retry`, `error-status`, `return-value`); the others
/// take theirs from the words before them. An operator of two makes a chain with one link, and with
/// a point before it one more link of the chain that is its left operand; `many:N` adds N links of
/// `+ 1`.
pub fn expression(alloc: Global, words: &str) -> Result<Option<Expr>, AllocError> {
    let mut stack = Vec::new(alloc);
    for word in words.split_whitespace() {
        if !read(alloc, &mut stack, word)? {
            return Ok(None);
        }
    }
    match (stack.pop(), stack.pop()) {
        (Some(only), None) => Ok(Some(only)),
        _ => Ok(None),
    }
}

/// Reads a word over the expressions of those before it, and says whether it is one.
fn read(alloc: Global, stack: &mut Vec<Expr>, word: &str) -> Result<bool, AllocError> {
    if let Some(leaf) = leaf(alloc, word)? {
        stack.push(leaf)?;
        return Ok(true);
    }
    if let Some(operator) = unary(word) {
        return of_one(alloc, stack, operator);
    }
    if let Some(operator) = ternary(word) {
        return of_three(alloc, stack, operator);
    }
    if let Some(mask) = word.strip_prefix("mask:") {
        return masked(alloc, stack, mask);
    }
    if let Some(kind) = word.strip_prefix("if:") {
        return branches(alloc, stack, kind_of(kind));
    }
    chained(alloc, stack, word)
}

/// A word without operands.
fn leaf(alloc: Global, word: &str) -> Result<Option<Expr>, AllocError> {
    if let Some(value) = value_of(alloc, word)? {
        return Ok(Some(Expr::Literal(value)));
    }
    Ok(match word {
        "i" => Some(variable(0, Kind::Integer)),
        "d" => Some(variable(1, Kind::Decimal)),
        "t" => Some(variable(2, Kind::Character)),
        "u" => Some(variable(3, Kind::Logical)),
        "f0" => Some(field(0, 0, Kind::Character)),
        "f1" => Some(field(0, 1, Kind::Date)),
        "e1" => Some(field(1, 0, Kind::Character)),
        "e2" => Some(field(2, 0, Kind::Character)),
        _ => state(word),
    })
}

/// A word without operands for the state of a buffer or of the client.
fn state(word: &str) -> Option<Expr> {
    match word {
        "available0" => Some(Expr::Available(0)),
        "available1" => Some(Expr::Available(1)),
        "locked1" => Some(Expr::Locked(1)),
        "locked2" => Some(Expr::Locked(2)),
        "retry" => Some(Expr::Retry),
        "error-status" => Some(Expr::ErrorStatus),
        "return-value" => Some(Expr::ReturnValue),
        _ => None,
    }
}

/// A variable.
fn variable(number: u32, kind: Kind) -> Expr {
    Expr::Variable(Variable {
        external: false,
        undoable: true,
        number,
        kind,
    })
}

/// A field.
fn field(buffer: u32, field: u16, kind: Kind) -> Expr {
    Expr::Field {
        buffer,
        field,
        kind,
    }
}

/// The operator or function of one value.
fn unary(word: &str) -> Option<Unary> {
    match word {
        "positive" => Some(Unary::Positive),
        "negative" => Some(Unary::Negative),
        "not" => Some(Unary::Not),
        "integer" => Some(Unary::ToInteger),
        "int64" => Some(Unary::ToInt64),
        "decimal" => Some(Unary::ToDecimal),
        "string" => Some(Unary::ToText),
        "length" => Some(Unary::Length),
        "year" => Some(Unary::Year),
        "month" => Some(Unary::Month),
        "day" => Some(Unary::Day),
        _ => None,
    }
}

/// The function of three values.
fn ternary(word: &str) -> Option<Ternary> {
    match word {
        "substring" => Some(Ternary::Substring),
        "entry" => Some(Ternary::Entry),
        "date" => Some(Ternary::DateOf),
        _ => None,
    }
}

/// The operator of a link.
fn operator(word: &str) -> Option<Operator> {
    match word {
        "and" => Some(Operator::And),
        "or" => Some(Operator::Or),
        _ => Some(Operator::Binary(binary(word)?)),
    }
}

/// The operator or function of two values.
fn binary(word: &str) -> Option<Binary> {
    match word {
        "+" => Some(Binary::Add),
        "-" => Some(Binary::Subtract),
        "*" => Some(Binary::Multiply),
        "/" => Some(Binary::Divide),
        "modulo" => Some(Binary::Modulo),
        "=" => Some(Binary::Equal),
        "<>" => Some(Binary::Unequal),
        "<" => Some(Binary::Less),
        ">" => Some(Binary::Greater),
        "<=" => Some(Binary::AtMost),
        ">=" => Some(Binary::AtLeast),
        "begins" => Some(Binary::Begins),
        "num-entries" => Some(Binary::NumEntries),
        _ => None,
    }
}

/// An operator or function of the last expression.
fn of_one(alloc: Global, stack: &mut Vec<Expr>, operator: Unary) -> Result<bool, AllocError> {
    let Some(a) = stack.pop() else {
        return Ok(false);
    };
    stack.push(Expr::Unary(operator, Box::new(alloc, a)?))?;
    Ok(true)
}

/// A function of the last three expressions.
fn of_three(alloc: Global, stack: &mut Vec<Expr>, operator: Ternary) -> Result<bool, AllocError> {
    let (Some(c), Some(b), Some(a)) = (stack.pop(), stack.pop(), stack.pop()) else {
        return Ok(false);
    };
    let a = Box::new(alloc, a)?;
    let b = Box::new(alloc, b)?;
    let c = Box::new(alloc, c)?;
    stack.push(Expr::Ternary(operator, a, b, c))?;
    Ok(true)
}

/// IF over the last three expressions.
fn branches(alloc: Global, stack: &mut Vec<Expr>, kind: Option<Kind>) -> Result<bool, AllocError> {
    let (Some(other), Some(one), Some(test)) = (stack.pop(), stack.pop(), stack.pop()) else {
        return Ok(false);
    };
    let test = Box::new(alloc, test)?;
    let then_value = Box::new(alloc, one)?;
    let else_value = Box::new(alloc, other)?;
    stack.push(Expr::If {
        test,
        then_value,
        else_value,
        kind,
    })?;
    Ok(true)
}

/// STRING of the last expression under a mask.
fn masked(alloc: Global, stack: &mut Vec<Expr>, mask: &str) -> Result<bool, AllocError> {
    let Some(a) = stack.pop() else {
        return Ok(false);
    };
    let value = Box::new(alloc, a)?;
    let mask = Items::from_vec(bytes_of(alloc, mask.as_bytes())?);
    stack.push(Expr::Masked { value, mask })?;
    Ok(true)
}

/// A chain of the last expressions.
fn chained(alloc: Global, stack: &mut Vec<Expr>, word: &str) -> Result<bool, AllocError> {
    if let Some(count) = word.strip_prefix("many:") {
        return many(alloc, stack, count);
    }
    if let Some(word) = word.strip_prefix(".") {
        return one_more(stack, operator(word));
    }
    let Some(operator) = operator(word) else {
        return Ok(false);
    };
    let (Some(operand), Some(first)) = (stack.pop(), stack.pop()) else {
        return Ok(false);
    };
    let first = Box::new(alloc, first)?;
    let rest = vec![in alloc; Link { operator, operand }]?;
    stack.push(Expr::Chain { first, rest })?;
    Ok(true)
}

/// One more link of the chain that is the last expression but one.
fn one_more(stack: &mut Vec<Expr>, operator: Option<Operator>) -> Result<bool, AllocError> {
    let (Some(operator), Some(operand), Some(left)) = (operator, stack.pop(), stack.pop()) else {
        return Ok(false);
    };
    match left {
        Expr::Chain { first, mut rest } => {
            rest.push(Link { operator, operand })?;
            stack.push(Expr::Chain { first, rest })?;
            Ok(true)
        }
        _ => Ok(false),
    }
}

/// A chain of the last expression and `count` links that add 1.
fn many(alloc: Global, stack: &mut Vec<Expr>, count: &str) -> Result<bool, AllocError> {
    let (Some(first), Ok(count)) = (stack.pop(), count.parse::<u32>()) else {
        return Ok(false);
    };
    let first = Box::new(alloc, first)?;
    let mut rest = Vec::new(alloc);
    for _ in 0..count {
        let operand = Expr::Literal(Value::Int(1));
        let operator = Operator::Binary(Binary::Add);
        rest.push(Link { operator, operand })?;
    }
    stack.push(Expr::Chain { first, rest })?;
    Ok(true)
}
