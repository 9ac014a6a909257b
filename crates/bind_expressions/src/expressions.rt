//! What expressions are bound to.

ghost use Rattle.std.specs.Prelude.{◌≡◌, IfOk, List};
ghost use Rattle.bound_tree.specs.Tree.{Expr as BoundExpr};
ghost use Rattle.syntax_tree.specs.Syntax.{Expression as SyntaxExpression};
ghost use Rattle.bind_names.specs.declared.notes.Notes.{Notes as TheNotes};
ghost use Rattle.syntax_tree.specs.Typed.{arguments_of, expression_of, linked_of};
ghost use Rattle.bind_names.specs.Views.{IsJudged, scene_of};
ghost use Rattle.bind_expressions.specs.Expressions.{arguments, called, condition, expression};
ghost use Rattle.bind_expressions.specs.Views.{IsCalled, IsHolding, typed_of};

use crate::arguments::{Arguments, call_of, no_arguments};
use crate::functions::{argument_fits, function_sort, is_count, still_good, text};
use crate::named::{BufferTest, buffer_test, named_value};
use crate::operators::{bound_operator, chosen, joined_sort, minus, not, plus};
use crate::typed::Typed;
use abl_base::{Kind, Place, Rule};
use bind_names::functions::fewest;
use bind_names::{BindFault, Notes, Scene, Sort};
use bound_tree::Expr;
use std::alloc::Global;
use syntax_tree::{Expression, Function, Link};

/// What an expression is bound to.
#[cycle(expressions)]
#[tactic(auto, using(bind_names::proofs::Joined::first_of_append, syntax_tree::proofs::Chains::chain_is, syntax_tree::proofs::Chains::call_is))]
pub fn expression(
    alloc: Global,
    scene: &Scene<'_>,
    e: &Expression,
    notes: &mut Notes,
) -> Result<Typed, BindFault>
    ensures { IfOk result (λ r. IsJudged (expression (scene_of scene.now) (expression_of e.now)) (typed_of r) notes.old notes.new) }
{
    match e {
        Expression::Literal { value, .. } => Ok(Typed {
            expr: Expr::Literal(value.copy()?),
            sort: Sort::of_value(value),
        }),
        Expression::Name(name) => named_value(alloc, scene, name, notes),
        Expression::Grouped { inner, .. } => expression(alloc, scene, inner, notes),
        Expression::Plus { at, operand } => {
            let x = expression(alloc, scene, operand, notes)?;
            let made = plus(alloc, *at, x, notes)?;
            Ok(made)
        }
        Expression::Minus { at, operand } => {
            let x = expression(alloc, scene, operand, notes)?;
            let made = minus(alloc, *at, x, notes)?;
            Ok(made)
        }
        Expression::Not { at, operand } => {
            let x = expression(alloc, scene, operand, notes)?;
            let made = not(alloc, *at, x, notes)?;
            Ok(made)
        }
        Expression::Chain { first, rest } => {
            let x = expression(alloc, scene, first, notes)?;
            let made = links(alloc, scene, x, rest, notes)?;
            Ok(made)
        }
        Expression::If {
            at,
            test,
            one,
            other,
        } => {
            let x = condition(alloc, scene, test, notes)?;
            let y = expression(alloc, scene, one, notes)?;
            let z = expression(alloc, scene, other, notes)?;
            let made = chosen(alloc, *at, x, y, z, notes)?;
            Ok(made)
        }
        Expression::Available { buffer, .. } => {
            buffer_test(alloc, scene, BufferTest::Available, buffer, notes)
        }
        Expression::Locked { buffer, .. } => {
            buffer_test(alloc, scene, BufferTest::Locked, buffer, notes)
        }
        Expression::Retry { .. } => Ok(Typed {
            expr: Expr::Retry,
            sort: Sort::Of(Kind::Logical),
        }),
        Expression::ReturnValue { .. } => Ok(Typed {
            expr: Expr::ReturnValue,
            sort: Sort::Of(Kind::Character),
        }),
        Expression::ErrorStatus { .. } => Ok(Typed {
            expr: Expr::ErrorStatus,
            sort: Sort::Of(Kind::Logical),
        }),
        Expression::Text { value, mask, .. } => {
            let x = expression(alloc, scene, value, notes)?;
            let made = text(alloc, x, mask, notes)?;
            Ok(made)
        }
        Expression::Call {
            function,
            at,
            arguments,
        } => {
            let made = call(alloc, scene, *function, *at, arguments, notes)?;
            Ok(made)
        }
    }
}

/// Applies the links of a chain to its first operand, from the left.
#[cycle(expressions)]
#[tactic(auto, using(bound_tree::proofs::Chains::chain_expr))]
fn links(
    alloc: Global,
    scene: &Scene<'_>,
    first: Typed,
    rest: &[Link],
    notes: &mut Notes,
) -> Result<Typed, BindFault>
    ensures { (a : SyntaxExpression) (begun : TheNotes) → IsJudged (expression (scene_of scene.now) a) (typed_of first) begun notes.old
        → IfOk result (λ r. IsJudged (expression (scene_of scene.now) (linked_of rest.now a)) (typed_of r) begun notes.new) }
{
    let mut sort = first.sort;
    let mut bound = Vec::new(alloc);
    for link in rest {
        let y = expression(alloc, scene, &link.operand, notes)?;
        sort = joined_sort(link.operator, link.at, sort, y.sort, notes);
        bound.push(bound_tree::Link {
            operator: bound_operator(link.operator),
            operand: y.expr,
        })?;
    }
    Ok(Typed {
        expr: Expr::Chain {
            first: Box::new(alloc, first.expr)?,
            rest: bound,
        },
        sort,
    })
}

/// A function with its arguments: Y7 at the function where they are too few.
#[cycle(expressions)]
fn call(
    alloc: Global,
    scene: &Scene<'_>,
    function: Function,
    at: Place,
    given: &[Expression],
    notes: &mut Notes,
) -> Result<Typed, BindFault>
    ensures { IfOk result (λ r. IsJudged (called function at (arguments (scene_of scene.now) function 0 (arguments_of given.now))) (typed_of r) notes.old notes.new) }
{
    let mut bound = no_arguments();
    let mut good = true;
    for e in given {
        let x = expression(alloc, scene, e, notes)?;
        let number = bound.count();
        argument_fits(function, number, e.starts_at(), x.sort, notes);
        good = still_good(good, function, number, x.sort);
        bound.push(x.expr)?;
    }
    let made = finished(alloc, function, at, bound, good, notes)?;
    Ok(made)
}

/// A function of these arguments; `good` is whether all of them fit. Y7 at the function where they
/// are too few.
fn finished(
    alloc: Global,
    function: Function,
    at: Place,
    bound: Arguments,
    good: bool,
    notes: &mut Notes,
) -> Result<Typed, BindFault>
    ensures { (es : List BoundExpr) → IsHolding bound es → IfOk result (λ r. IsCalled function at good es (typed_of r) notes.old notes.new) }
{
    let count = bound.count();
    notes.unless(fewest(function) <= count, Rule::Y7, at);
    Ok(Typed {
        expr: call_of(alloc, function, bound)?,
        sort: function_sort(function, good && is_count(function, count)),
    })
}

/// A condition: Y6 where it is no LOGICAL.
#[cycle(expressions)]
#[tactic(auto, using(bind_names::proofs::Joined::first_of_append))]
pub fn condition(
    alloc: Global,
    scene: &Scene<'_>,
    e: &Expression,
    notes: &mut Notes,
) -> Result<Typed, BindFault>
    ensures { IfOk result (λ r. IsJudged (condition (scene_of scene.now) (expression_of e.now)) (typed_of r) notes.old notes.new) }
{
    let x = expression(alloc, scene, e, notes)?;
    notes.unless(x.sort.may_be_logical(), Rule::Y6, e.starts_at());
    Ok(x)
}
