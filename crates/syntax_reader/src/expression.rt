//! Expressions. The functions recurse only where the grammar nests, which rule G2 bounds; chains
//! and lists are loops.

ghost use Rattle.std.specs.Prelude.{◌≡◌, ◌<◌, ◌^◌, IfOk};
ghost use Rattle.syntax_tree.specs.Typed.{arguments_of, expression_of};
ghost use Rattle.parse_tree.specs.declared.production.TheConstants.{PRIMARY_RECORD_TEST};
ghost use Rattle.syntax_reader.specs.Nodes.{Uses};
ghost use Rattle.syntax_reader.specs.Expressions.{AreArguments, AreAdded, AreAnd, AreMultiplied, AreOr, IsCompared, IsConjunction, IsExpression, IsNegation, IsPrimary, IsProduct, IsSigned, IsSum, IsWithSign};
ghost use Rattle.syntax_reader.specs.Views.{source_of};

use crate::constant::constant;
use crate::made::{call, chain, choice, compared, grouped, negated, negative, positive, string};
use crate::nodes::{ReadFault, Reader, name, needs, place, qualified, text_there, uses};
use crate::operator::{comparison, function, plus_or_minus, product_sign, tested_name};
use parse_tree::production::{
    ADDED_OTHERS_NONE, ADDED_OTHERS_PLUS_OR_MINUS, AND_OTHERS_AND, AND_OTHERS_NONE,
    COMPARED_WITH_COMPARISON, COMPARED_WITH_NONE, CONJUNCTION_NEGATION, EXPRESSION_CONJUNCTION,
    EXPRESSION_IF, MORE_EXPRESSIONS_COMMA, MORE_EXPRESSIONS_NONE, MULTIPLIED_OTHERS_NONE,
    MULTIPLIED_OTHERS_PRODUCT_SIGN, NEGATION_NOT, NEGATION_SUM, OR_OTHERS_NONE, OR_OTHERS_OR,
    PLUS_OR_MINUS_MINUS, PLUS_OR_MINUS_PLUS, PRIMARY_ERROR_STATUS, PRIMARY_FUNCTION,
    PRIMARY_LEFT_PARENTHESIS, PRIMARY_NAME, PRIMARY_QUALIFIED_NAME, PRIMARY_RECORD_TEST,
    PRIMARY_RETRY, PRIMARY_RETURN_VALUE, PRIMARY_STRING, PRODUCT_SIGNED, RECORD_TEST_AVAILABLE,
    RECORD_TEST_LOCKED, SIGNED_PLUS_OR_MINUS, SIGNED_PRIMARY, STRING_FORMAT_COMMA,
    STRING_FORMAT_NONE, SUM_PRODUCT,
};
use std::alloc::Global;
use syntax_tree::{Expression, Link, Named, Operator};

/// An expression.
#[cycle(expressions)]
pub(crate) fn expression(
    alloc: Global,
    reader: &Reader<'_>,
    n: usize,
) -> Result<(Expression, usize), ReadFault>
    ensures is { IfOk result (λ r. IsExpression (source_of reader.now) n r.1 (expression_of r.0)) }
    ensures after { IfOk result (λ r. n < r.1) }
{
    if let Some(k) = uses(reader, n, EXPRESSION_IF) {
        let at = place(reader, k)?;
        let (test, then_at) = expression(alloc, reader, n + 1)?;
        let (one, else_at) = expression(alloc, reader, then_at)?;
        let (other, end) = expression(alloc, reader, else_at)?;
        let made = choice(alloc, at, test, one, other)?;
        return Ok((made, end));
    }
    let k = needs(reader, n, EXPRESSION_CONJUNCTION)?;
    let (first, next) = conjunction(alloc, reader, n + 1)?;
    let (all, end) = or_others(alloc, reader, next, first)?;
    Ok((all, end))
}

/// The operands of OR after the first one.
#[cycle(expressions)]
fn or_others(
    alloc: Global,
    reader: &Reader<'_>,
    begun: usize,
    first: Expression,
) -> Result<(Expression, usize), ReadFault>
    ensures is { IfOk result (λ r. AreOr (source_of reader.now) begun r.1 (expression_of first) (expression_of r.0)) }
    ensures after { IfOk result (λ r. begun < r.1) }
{
    let mut rest = Vec::new(alloc);
    let mut n = begun;
    while let Some(k) = uses(reader, n, OR_OTHERS_OR) {
        let at = place(reader, k)?;
        let (operand, end) = conjunction(alloc, reader, n + 1)?;
        rest.push(Link {
            operator: Operator::Or,
            at,
            operand,
        })?;
        n = end;
    }
    let k = needs(reader, n, OR_OTHERS_NONE)?;
    let all = chain(alloc, first, rest)?;
    Ok((all, n + 1))
}

/// Operands with AND between them.
#[cycle(expressions)]
fn conjunction(
    alloc: Global,
    reader: &Reader<'_>,
    n: usize,
) -> Result<(Expression, usize), ReadFault>
    ensures is { IfOk result (λ r. IsConjunction (source_of reader.now) n r.1 (expression_of r.0)) }
    ensures after { IfOk result (λ r. n < r.1) }
{
    let k = needs(reader, n, CONJUNCTION_NEGATION)?;
    let (first, next) = negation(alloc, reader, n + 1)?;
    let (all, end) = and_others(alloc, reader, next, first)?;
    Ok((all, end))
}

/// The operands of AND after the first one.
#[cycle(expressions)]
fn and_others(
    alloc: Global,
    reader: &Reader<'_>,
    begun: usize,
    first: Expression,
) -> Result<(Expression, usize), ReadFault>
    ensures is { IfOk result (λ r. AreAnd (source_of reader.now) begun r.1 (expression_of first) (expression_of r.0)) }
    ensures after { IfOk result (λ r. begun < r.1) }
{
    let mut rest = Vec::new(alloc);
    let mut n = begun;
    while let Some(k) = uses(reader, n, AND_OTHERS_AND) {
        let at = place(reader, k)?;
        let (operand, end) = negation(alloc, reader, n + 1)?;
        rest.push(Link {
            operator: Operator::And,
            at,
            operand,
        })?;
        n = end;
    }
    let k = needs(reader, n, AND_OTHERS_NONE)?;
    let all = chain(alloc, first, rest)?;
    Ok((all, n + 1))
}

/// NOT, or a comparison.
#[cycle(expressions)]
fn negation(alloc: Global, reader: &Reader<'_>, n: usize) -> Result<(Expression, usize), ReadFault>
    ensures is { IfOk result (λ r. IsNegation (source_of reader.now) n r.1 (expression_of r.0)) }
    ensures after { IfOk result (λ r. n < r.1) }
{
    if let Some(k) = uses(reader, n, NEGATION_NOT) {
        let at = place(reader, k)?;
        let (inner, end) = negation(alloc, reader, n + 1)?;
        let made = negated(alloc, at, inner)?;
        return Ok((made, end));
    }
    let k = needs(reader, n, NEGATION_SUM)?;
    let (first, next) = sum(alloc, reader, n + 1)?;
    let (all, end) = compared_with(alloc, reader, next, first)?;
    Ok((all, end))
}

/// The comparison after a sum, if there is one.
#[cycle(expressions)]
fn compared_with(
    alloc: Global,
    reader: &Reader<'_>,
    n: usize,
    first: Expression,
) -> Result<(Expression, usize), ReadFault>
    ensures is { IfOk result (λ r. IsCompared (source_of reader.now) n r.1 (expression_of first) (expression_of r.0)) }
    ensures after { IfOk result (λ r. n < r.1) }
{
    if let Some(k) = uses(reader, n, COMPARED_WITH_COMPARISON) {
        let (operator, at) = comparison(reader, n + 1)?;
        let (operand, end) = sum(alloc, reader, n + 2)?;
        let made = compared(alloc, first, operator, at, operand)?;
        return Ok((made, end));
    }
    let k = needs(reader, n, COMPARED_WITH_NONE)?;
    Ok((first, n + 1))
}

/// Operands with `+` and `-` between them.
#[cycle(expressions)]
fn sum(alloc: Global, reader: &Reader<'_>, n: usize) -> Result<(Expression, usize), ReadFault>
    ensures is { IfOk result (λ r. IsSum (source_of reader.now) n r.1 (expression_of r.0)) }
    ensures after { IfOk result (λ r. n < r.1) }
{
    let k = needs(reader, n, SUM_PRODUCT)?;
    let (first, next) = product(alloc, reader, n + 1)?;
    let (all, end) = added_others(alloc, reader, next, first)?;
    Ok((all, end))
}

/// The operands of `+` and `-` after the first one.
#[cycle(expressions)]
fn added_others(
    alloc: Global,
    reader: &Reader<'_>,
    begun: usize,
    first: Expression,
) -> Result<(Expression, usize), ReadFault>
    ensures is { IfOk result (λ r. AreAdded (source_of reader.now) begun r.1 (expression_of first) (expression_of r.0)) }
    ensures after { IfOk result (λ r. begun < r.1) }
{
    let mut rest = Vec::new(alloc);
    let mut n = begun;
    while let Some(k) = uses(reader, n, ADDED_OTHERS_PLUS_OR_MINUS) {
        let (operator, at) = plus_or_minus(reader, n + 1)?;
        let (operand, end) = product(alloc, reader, n + 2)?;
        rest.push(Link {
            operator: Operator::Two(operator),
            at,
            operand,
        })?;
        n = end;
    }
    let k = needs(reader, n, ADDED_OTHERS_NONE)?;
    let all = chain(alloc, first, rest)?;
    Ok((all, n + 1))
}

/// Operands with `*`, `/` and MODULO between them.
#[cycle(expressions)]
fn product(alloc: Global, reader: &Reader<'_>, n: usize) -> Result<(Expression, usize), ReadFault>
    ensures is { IfOk result (λ r. IsProduct (source_of reader.now) n r.1 (expression_of r.0)) }
    ensures after { IfOk result (λ r. n < r.1) }
{
    let k = needs(reader, n, PRODUCT_SIGNED)?;
    let (first, next) = signed(alloc, reader, n + 1)?;
    let (all, end) = multiplied_others(alloc, reader, next, first)?;
    Ok((all, end))
}

/// The operands of `*`, `/` and MODULO after the first one.
#[cycle(expressions)]
fn multiplied_others(
    alloc: Global,
    reader: &Reader<'_>,
    begun: usize,
    first: Expression,
) -> Result<(Expression, usize), ReadFault>
    ensures is { IfOk result (λ r. AreMultiplied (source_of reader.now) begun r.1 (expression_of first) (expression_of r.0)) }
    ensures after { IfOk result (λ r. begun < r.1) }
{
    let mut rest = Vec::new(alloc);
    let mut n = begun;
    while let Some(k) = uses(reader, n, MULTIPLIED_OTHERS_PRODUCT_SIGN) {
        let (operator, at) = product_sign(reader, n + 1)?;
        let (operand, end) = signed(alloc, reader, n + 2)?;
        rest.push(Link {
            operator: Operator::Two(operator),
            at,
            operand,
        })?;
        n = end;
    }
    let k = needs(reader, n, MULTIPLIED_OTHERS_NONE)?;
    let all = chain(alloc, first, rest)?;
    Ok((all, n + 1))
}

/// An operand with the signs before it.
#[cycle(expressions)]
fn signed(alloc: Global, reader: &Reader<'_>, n: usize) -> Result<(Expression, usize), ReadFault>
    ensures is { IfOk result (λ r. IsSigned (source_of reader.now) n r.1 (expression_of r.0)) }
    ensures after { IfOk result (λ r. n < r.1) }
{
    if let Some(k) = uses(reader, n, SIGNED_PLUS_OR_MINUS) {
        let (inner, end) = signed(alloc, reader, n + 2)?;
        let made = with_sign(alloc, reader, n + 1, inner)?;
        return Ok((made, end));
    }
    let k = needs(reader, n, SIGNED_PRIMARY)?;
    let (inner, end) = primary(alloc, reader, n + 1)?;
    Ok((inner, end))
}

/// An operand after the sign of a node.
fn with_sign(
    alloc: Global,
    reader: &Reader<'_>,
    n: usize,
    inner: Expression,
) -> Result<Expression, ReadFault>
    ensures { IfOk result (λ e. IsWithSign (source_of reader.now) n (expression_of inner) (expression_of e)) }
{
    if let Some(k) = uses(reader, n, PLUS_OR_MINUS_PLUS) {
        let at = place(reader, k)?;
        let made = positive(alloc, at, inner)?;
        return Ok(made);
    }
    let k = needs(reader, n, PLUS_OR_MINUS_MINUS)?;
    let at = place(reader, k)?;
    let made = negative(alloc, at, inner)?;
    Ok(made)
}

/// A name, a part in parentheses, a literal, a test or a call.
#[cycle(expressions)]
fn primary(alloc: Global, reader: &Reader<'_>, n: usize) -> Result<(Expression, usize), ReadFault>
    ensures is { IfOk result (λ r. IsPrimary (source_of reader.now) n r.1 (expression_of r.0)) }
    ensures after { IfOk result (λ r. n < r.1) }
{
    if let Some(k) = uses(reader, n, PRIMARY_NAME) {
        let word = name(reader, k)?;
        return Ok((Expression::Name(Named::Plain(word)), n + 1));
    }
    if let Some(k) = uses(reader, n, PRIMARY_QUALIFIED_NAME) {
        let named = qualified(reader, k)?;
        return Ok((Expression::Name(named), n + 1));
    }
    if let Some(k) = uses(reader, n, PRIMARY_LEFT_PARENTHESIS) {
        let at = place(reader, k)?;
        let (within, end) = expression(alloc, reader, n + 1)?;
        let made = grouped(alloc, at, within)?;
        return Ok((made, end));
    }
    if let Some(k) = uses(reader, n, PRIMARY_STRING) {
        let at = place(reader, k)?;
        let (shown, next) = expression(alloc, reader, n + 1)?;
        let mask = text_there(reader, next, STRING_FORMAT_COMMA, STRING_FORMAT_NONE)?;
        let made = string(alloc, at, shown, mask)?;
        return Ok((made, next + 1));
    }
    if let Some(k) = uses(reader, n, PRIMARY_FUNCTION) {
        let at = place(reader, k)?;
        let function = function(reader, n + 1)?;
        let (first, next) = expression(alloc, reader, n + 2)?;
        let (arguments, end) = more_arguments(alloc, reader, next, first)?;
        let made = call(function, at, arguments);
        return Ok((made, end));
    }
    other_primary(reader, n)
}

/// The arguments of a function from the first one on.
#[cycle(expressions)]
fn more_arguments(
    alloc: Global,
    reader: &Reader<'_>,
    begun: usize,
    first: Expression,
) -> Result<(Vec<Expression>, usize), ReadFault>
    ensures is { IfOk result (λ r. AreArguments (source_of reader.now) begun r.1 (expression_of first) (arguments_of r.0.items)) }
    ensures after { IfOk result (λ r. begun < r.1) }
{
    let mut found = Vec::new(alloc);
    found.push(first)?;
    let mut n = begun;
    while let Some(k) = uses(reader, n, MORE_EXPRESSIONS_COMMA) {
        let (argument, end) = expression(alloc, reader, n + 1)?;
        found.push(argument)?;
        n = end;
    }
    let k = needs(reader, n, MORE_EXPRESSIONS_NONE)?;
    Ok((found, n + 1))
}

/// A literal or a test.
fn other_primary(reader: &Reader<'_>, n: usize) -> Result<(Expression, usize), ReadFault>
    ensures is { IfOk result (λ r. IsPrimary (source_of reader.now) n r.1 (expression_of r.0)) }
    ensures after { IfOk result (λ r. n < r.1) }
{
    if let Some(k) = uses(reader, n, PRIMARY_RECORD_TEST) {
        return record_test(reader, n, k);
    }
    if let Some(k) = uses(reader, n, PRIMARY_RETRY) {
        let at = place(reader, k)?;
        return Ok((Expression::Retry { at }, n + 1));
    }
    if let Some(k) = uses(reader, n, PRIMARY_RETURN_VALUE) {
        let at = place(reader, k)?;
        return Ok((Expression::ReturnValue { at }, n + 1));
    }
    if let Some(k) = uses(reader, n, PRIMARY_ERROR_STATUS) {
        let at = place(reader, k)?;
        return Ok((Expression::ErrorStatus { at }, n + 1));
    }
    let Some((value, at)) = constant(reader, n)? else {
        return Err(ReadFault::Malformed);
    };
    Ok((Expression::Literal { value, at }, n + 1))
}

/// AVAILABLE or LOCKED.
fn record_test(reader: &Reader<'_>, n: usize, k: usize) -> Result<(Expression, usize), ReadFault>
    requires uses { Uses (source_of reader.now) n PRIMARY_RECORD_TEST k }
    requires room { n < 2 ^ 62 }
    ensures is { IfOk result (λ r. IsPrimary (source_of reader.now) n r.1 (expression_of r.0)) }
    ensures after { IfOk result (λ r. n < r.1) }
{
    let at = place(reader, k)?;
    let buffer = tested_name(reader, n + 2)?;
    if let Some(j) = uses(reader, n + 1, RECORD_TEST_AVAILABLE) {
        return Ok((Expression::Available { at, buffer }, n + 3));
    }
    let j = needs(reader, n + 1, RECORD_TEST_LOCKED)?;
    Ok((Expression::Locked { at, buffer }, n + 3))
}
