//! Expressions and statements from their parts.

ghost use Rattle.std.specs.Prelude.{◌≡◌, IfOk};
ghost use Rattle.syntax_tree.specs.Syntax as s;
ghost use Rattle.syntax_tree.specs.Typed.{arguments_of, expression_of, head_of, linked_of, statement_of, statements_of};
ghost use Rattle.syntax_reader.specs.Views.{maybe_statement_of};

use crate::nodes::ReadFault;
use abl_base::Place;
use bound_tree::Binary;
use std::alloc::Global;
use syntax_tree::{Expression, Function, Head, Link, Operator, Statement, Word};

/// A first operand with the links after it.
pub(crate) fn chain(
    alloc: Global,
    first: Expression,
    rest: Vec<Link>,
) -> Result<Expression, ReadFault>
    ensures { IfOk result (λ e. expression_of e ≡ linked_of rest.items (expression_of first)) }
{
    if rest.is_empty() {
        return Ok(first);
    }
    let first = Box::new(alloc, first)?;
    Ok(Expression::Chain { first, rest })
}

/// An operand with the comparison after it.
pub(crate) fn compared(
    alloc: Global,
    left: Expression,
    operator: Binary,
    at: Place,
    operand: Expression,
) -> Result<Expression, ReadFault>
    ensures { IfOk result (λ e. expression_of e ≡ s.Two operator at (expression_of left) (expression_of operand)) }
{
    let mut rest = Vec::new(alloc);
    rest.push(Link {
        operator: Operator::Two(operator),
        at,
        operand,
    })?;
    chain(alloc, left, rest)
}

/// IF test THEN one ELSE other.
pub(crate) fn choice(
    alloc: Global,
    at: Place,
    test: Expression,
    one: Expression,
    other: Expression,
) -> Result<Expression, ReadFault>
    ensures { IfOk result (λ e. expression_of e ≡ s.If at (expression_of test) (expression_of one) (expression_of other)) }
{
    let test = Box::new(alloc, test)?;
    let one = Box::new(alloc, one)?;
    let other = Box::new(alloc, other)?;
    Ok(Expression::If {
        at,
        test,
        one,
        other,
    })
}

/// NOT before an operand.
pub(crate) fn negated(alloc: Global, at: Place, inner: Expression) -> Result<Expression, ReadFault>
    ensures { IfOk result (λ e. expression_of e ≡ s.Not at (expression_of inner)) }
{
    let operand = Box::new(alloc, inner)?;
    Ok(Expression::Not { at, operand })
}

/// `+` before an operand.
pub(crate) fn positive(alloc: Global, at: Place, inner: Expression) -> Result<Expression, ReadFault>
    ensures { IfOk result (λ e. expression_of e ≡ s.Plus at (expression_of inner)) }
{
    let operand = Box::new(alloc, inner)?;
    Ok(Expression::Plus { at, operand })
}

/// `-` before an operand.
pub(crate) fn negative(alloc: Global, at: Place, inner: Expression) -> Result<Expression, ReadFault>
    ensures { IfOk result (λ e. expression_of e ≡ s.Minus at (expression_of inner)) }
{
    let operand = Box::new(alloc, inner)?;
    Ok(Expression::Minus { at, operand })
}

/// An expression in parentheses.
pub(crate) fn grouped(alloc: Global, at: Place, within: Expression) -> Result<Expression, ReadFault>
    ensures { IfOk result (λ e. expression_of e ≡ s.Grouped at (expression_of within)) }
{
    let inner = Box::new(alloc, within)?;
    Ok(Expression::Grouped { at, inner })
}

/// STRING of an expression.
pub(crate) fn string(
    alloc: Global,
    at: Place,
    shown: Expression,
    mask: Option<Word>,
) -> Result<Expression, ReadFault>
    ensures { IfOk result (λ e. expression_of e ≡ s.Text at (expression_of shown) mask) }
{
    let value = Box::new(alloc, shown)?;
    Ok(Expression::Text { at, value, mask })
}

/// A function with its arguments.
pub(crate) fn call(function: Function, at: Place, arguments: Vec<Expression>) -> Expression
    ensures { expression_of result ≡ s.Call function at (arguments_of arguments.items) }
{
    Expression::Call {
        function,
        at,
        arguments,
    }
}

/// IF test THEN one ELSE other, as a statement.
pub(crate) fn conditional(
    alloc: Global,
    test: Expression,
    one: Statement,
    else_it: Option<Box<Statement>>,
) -> Result<Statement, ReadFault>
    ensures { IfOk result (λ t. statement_of t ≡ s.Choose (expression_of test) (statement_of one) (maybe_statement_of else_it)) }
{
    let test = Box::new(alloc, test)?;
    let then_it = Box::new(alloc, one)?;
    Ok(Statement::If {
        test,
        then_it,
        else_it,
    })
}

/// The statement after ELSE.
pub(crate) fn alternative(
    alloc: Global,
    inner: Statement,
) -> Result<Option<Box<Statement>>, ReadFault>
    ensures { IfOk result (λ r. maybe_statement_of r ≡ s.Then (statement_of inner) s.Nothing) }
{
    let made = Box::new(alloc, inner)?;
    Ok(Some(made))
}

/// A block from its header and its statements.
pub(crate) fn block(
    alloc: Global,
    found: Head,
    body: Vec<Statement>,
) -> Result<Statement, ReadFault>
    ensures { IfOk result (λ t. statement_of t ≡ s.Block (head_of found) (statements_of body.items)) }
{
    let head = Box::new(alloc, found)?;
    Ok(Statement::Block { head, body })
}
