//! The arguments of a function, as they are bound.

ghost use Rattle.std.specs.Prelude.{◌≡◌, ◌++◌, ◌∷◌, [], IfOk, List, OnOk, length, unwrap_or};
ghost use Rattle.bound_tree.specs.Bound.{expr_of, maybe_expr_of};
ghost use Rattle.bound_tree.specs.Tree.{Expr, One, Three, Two};
ghost use Rattle.bound_tree.specs.declared.expression.Binary.TheVariants.{NumEntries};
ghost use Rattle.bind_expressions.specs.Expressions.{call, comma, missing, nth, the_rest};
ghost use Rattle.bind_expressions.specs.Views.{IsHolding};

use abl_base::{Items, Value};
use bind_names::BindFault;
use bound_tree::{Binary, Expr as BoundExpr, Link, Operator, Ternary, Unary};
use std::alloc::Global;
use syntax_tree::Function;

/// The first three arguments, which are the most that a function takes, and the number of all.
#[derive(Drop)]
pub struct Arguments {
    first: Option<BoundExpr>,
    second: Option<BoundExpr>,
    third: Option<BoundExpr>,
    count: usize,
}

/// No argument so far.
pub fn no_arguments() -> Arguments
    ensures { IsHolding result [] }
{
    Arguments {
        first: None,
        second: None,
        third: None,
        count: 0,
    }
}

impl Arguments {
    /// The number of all arguments.
    pub fn count(&self) -> usize
        ensures { (es : List Expr) → IsHolding self.now es → result ≡ length es }
    {
        self.count
    }

    /// One more argument.
    pub fn push(&mut self, argument: BoundExpr) -> Result<(), BindFault>
        ensures { (es : List Expr) → IsHolding self.old es → OnOk result (IsHolding self.new (es ++ expr_of argument ∷ [])) }
    {
        let Some(count) = self.count.checked_add(1) else {
            return Err(BindFault);
        };
        match self.count {
            0 => self.first = Some(argument),
            1 => self.second = Some(argument),
            2 => self.third = Some(argument),
            _ => {}
        }
        self.count = count;
        Ok(())
    }
}

/// The argument, or the other expression where it is left out.
fn or(argument: Option<BoundExpr>, other: BoundExpr) -> BoundExpr
    ensures { expr_of result ≡ unwrap_or (maybe_expr_of argument) (expr_of other) }
{
    match argument {
        Some(expr) => expr,
        None => other,
    }
}

/// `?`, which replaces a required argument that is missing.
fn missing() -> BoundExpr
    ensures { expr_of result ≡ missing }
{
    BoundExpr::Literal(Value::Unknown)
}

/// A comma, the delimiter where none is given.
fn comma(alloc: Global) -> Result<BoundExpr, BindFault>
    ensures { IfOk result (λ r. expr_of r ≡ comma) }
{
    Ok(BoundExpr::Literal(Value::Text(Items::of(alloc, b",")?)))
}

/// The count of SUBSTRING where none is given: the rest of the text.
fn the_rest() -> BoundExpr
    ensures { expr_of result ≡ the_rest }
{
    BoundExpr::Literal(Value::Int64(-1))
}

/// A function of one value.
#[tactic(auto, using(crate::proofs::Holding::first_or))]
fn one(alloc: Global, operator: Unary, a: Arguments) -> Result<BoundExpr, BindFault>
    ensures { (es : List Expr) → IsHolding a es → IfOk result (λ r. expr_of r ≡ One operator (nth es 0 missing)) }
{
    Ok(BoundExpr::Unary(operator, Box::new(alloc, or(a.first, missing()))?))
}

/// A function of three values; the third may be left out.
fn three(
    alloc: Global,
    operator: Ternary,
    a: Arguments,
    third: BoundExpr,
) -> Result<BoundExpr, BindFault>
    ensures { (es : List Expr) → IsHolding a es → IfOk result (λ r. expr_of r ≡ Three operator (nth es 0 missing) (nth es 1 missing) (nth es 2 (expr_of third))) }
{
    let first = Box::new(alloc, or(a.first, missing()))?;
    let second = Box::new(alloc, or(a.second, missing()))?;
    let third = Box::new(alloc, or(a.third, third))?;
    Ok(BoundExpr::Ternary(operator, first, second, third))
}

/// NUM-ENTRIES of a list with its delimiter.
#[tactic(auto, using(crate::proofs::Holding::first_or, crate::proofs::Holding::second_or, bound_tree::proofs::Chains::chain_expr))]
fn num_entries(alloc: Global, a: Arguments) -> Result<BoundExpr, BindFault>
    ensures { (es : List Expr) → IsHolding a es → IfOk result (λ r. expr_of r ≡ Two NumEntries (nth es 0 missing) (nth es 1 comma)) }
{
    let comma = comma(alloc)?;
    let first = Box::new(alloc, or(a.first, missing()))?;
    let mut rest = Vec::new(alloc);
    rest.push(Link {
        operator: Operator::Binary(Binary::NumEntries),
        operand: or(a.second, comma),
    })?;
    Ok(BoundExpr::Chain { first, rest })
}

/// The function of these arguments.
pub fn call_of(alloc: Global, function: Function, a: Arguments) -> Result<BoundExpr, BindFault>
    ensures { (es : List Expr) → IsHolding a es → IfOk result (λ r. expr_of r ≡ call function es) }
{
    match function {
        Function::Integer => one(alloc, Unary::ToInteger, a),
        Function::Int64 => one(alloc, Unary::ToInt64, a),
        Function::Decimal => one(alloc, Unary::ToDecimal, a),
        Function::Substring => three(alloc, Ternary::Substring, a, the_rest()),
        Function::Length => one(alloc, Unary::Length, a),
        Function::Entry => {
            let comma = comma(alloc)?;
            three(alloc, Ternary::Entry, a, comma)
        }
        Function::NumEntries => num_entries(alloc, a),
        Function::Date => three(alloc, Ternary::DateOf, a, missing()),
        Function::Year => one(alloc, Unary::Year, a),
        Function::Month => one(alloc, Unary::Month, a),
        Function::Day => one(alloc, Unary::Day, a),
    }
}
