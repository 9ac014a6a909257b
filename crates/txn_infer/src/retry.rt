//! Which expressions and statements name RETRY.

ghost use Rattle.std.specs.Prelude.{◌≡◌, map};
ghost use Rattle.bound_tree.specs.Bound.{action_of, argument_of, assignment_of, expr_of, item_of, maybe_expr_of, reading_of, right_of, stmt_of};
ghost use Rattle.txn_infer.specs.Retry.{action_retry, any_retry, argument_retry, arguments_retry, asks_itself, asks_retry, item_retry, items_retry, maybe_retry, pairs_retry, reading_retry, right_retry};
ghost use Rattle.txn_infer.specs.Links.{any_link};

use bound_tree::{Action, Argument, Assignment, Expr, Link, PutItem, Reading, Right, Stmt};

/// Whether a statement that is no block and no IF names RETRY in its own expressions.
pub fn asks_itself(stmt: &Stmt) -> bool
    ensures { result ≡ asks_itself (stmt_of stmt.now) }
{
    match stmt {
        Stmt::If { test, .. } => asks_retry(test),
        Stmt::Assign { pairs, .. } => pairs_retry(pairs),
        Stmt::Find { reading, .. } => reading_retry(reading),
        Stmt::FindCurrent { reading, .. } => reading_retry(reading),
        Stmt::Undo { action, .. } => action_retry(action),
        Stmt::Return(value) => maybe_retry(value),
        Stmt::ReturnError { value, .. } => maybe_retry(value),
        Stmt::Run { arguments, .. } => arguments_retry(arguments),
        Stmt::Export { values, .. } => any_retry(values),
        Stmt::Put { items, .. } => items_retry(items),
        Stmt::Message(values) => any_retry(values),
        _ => false,
    }
}

/// Whether the RETURN of an action names it.
pub fn action_retry(action: &Action) -> bool
    ensures { result ≡ action_retry (action_of action.now) }
{
    match action {
        Action::Return { value, .. } => maybe_retry(value),
        _ => false,
    }
}

/// Whether WHERE names it.
pub fn reading_retry(reading: &Reading) -> bool
    ensures { result ≡ reading_retry (reading_of reading.now) }
{
    maybe_retry(&reading.test)
}

/// Whether one of the right sides names it.
fn pairs_retry(pairs: &[Assignment]) -> bool
    ensures { result ≡ pairs_retry (map assignment_of pairs.now) }
{
    for pair in pairs {
        if right_retry(&pair.right) {
            return true;
        }
    }
    false
}

/// Whether a right side names it.
fn right_retry(right: &Right) -> bool
    ensures { result ≡ right_retry (right_of right.now) }
{
    match right {
        Right::Value(value) => asks_retry(value),
        _ => false,
    }
}

/// Whether one of the arguments names it.
fn arguments_retry(arguments: &[Argument]) -> bool
    ensures { result ≡ arguments_retry (map argument_of arguments.now) }
{
    for argument in arguments {
        if argument_retry(argument) {
            return true;
        }
    }
    false
}

/// Whether an argument names it.
fn argument_retry(argument: &Argument) -> bool
    ensures { result ≡ argument_retry (argument_of argument.now) }
{
    match argument {
        Argument::Input(value) => asks_retry(value),
        _ => false,
    }
}

/// Whether one of the items names it.
fn items_retry(items: &[PutItem]) -> bool
    ensures { result ≡ items_retry (map item_of items.now) }
{
    for item in items {
        if item_retry(item) {
            return true;
        }
    }
    false
}

/// Whether an item names it.
fn item_retry(item: &PutItem) -> bool
    ensures { result ≡ item_retry (item_of item.now) }
{
    match item {
        PutItem::Shows { value, .. } => asks_retry(value),
        _ => false,
    }
}

/// Whether one of the values names it.
fn any_retry(values: &[Expr]) -> bool
    ensures { result ≡ any_retry (map expr_of values.now) }
{
    for value in values {
        if asks_retry(value) {
            return true;
        }
    }
    false
}

/// Whether an expression that may be left out names it.
pub fn maybe_retry(value: &Option<Expr>) -> bool
    ensures { result ≡ maybe_retry (maybe_expr_of value.now) }
{
    match value {
        Some(value) => asks_retry(value),
        None => false,
    }
}

/// Whether the expression names it.
#[cycle(asks)]
pub fn asks_retry(expression: &Expr) -> bool
    ensures { result ≡ asks_retry (expr_of expression.now) }
{
    match expression {
        Expr::Unary(_, a) => asks_retry(a),
        Expr::Chain { first, rest } => asks_retry(first) || any_link(rest),
        Expr::Ternary(_, a, b, c) => asks_retry(a) || asks_retry(b) || asks_retry(c),
        Expr::If {
            test,
            then_value,
            else_value,
            ..
        } => asks_retry(test) || asks_retry(then_value) || asks_retry(else_value),
        Expr::Masked { value, .. } => asks_retry(value),
        Expr::Retry => true,
        _ => false,
    }
}

/// Whether an operand of a chain names it.
#[cycle(asks)]
fn any_link(rest: &[Link]) -> bool
    ensures { result ≡ any_link rest.now }
{
    for link in rest {
        if asks_retry(&link.operand) {
            return true;
        }
    }
    false
}
