//! UNDO, LEAVE, NEXT and RETURN, and what follows an UNDO (OpenEdge ABL Reference, each statement by
//! its first word).

ghost use Rattle.std.specs.Prelude.{◌≡◌, IfOk, Some};
ghost use Rattle.abl_base.specs.declared.value.Kind.TheVariants.{Character};
ghost use Rattle.syntax_tree.specs.Typed.{action_of, expression_of, maybe_action_of, maybe_boxed_action_of, maybe_boxed_of, maybe_expression_of};
ghost use Rattle.bound_tree.specs.Bound.{action_of as bound_action_of, maybe_expr_of, stmt_of};
ghost use Rattle.bind_names.specs.declared.notes.Notes.{Notes as TheNotes};
ghost use Rattle.bind_names.specs.Views.{IsJudged, scene_of};
ghost use Rattle.bind_expressions.specs.Expressions.{value_for};
ghost use Rattle.bind_expressions.specs.Parts.{does};
ghost use Rattle.bind_expressions.specs.Views.{typed_of};
ghost use Rattle.bind_blocks.specs.Flow.{action, leave_block, next_block, return_it, returned, returns, undo_block};

use crate::named::{Sought, block_named, first_block};
use abl_base::{Kind, Rule};
use bind_expressions::Typed;
use bind_expressions::expressions::expression;
use bind_names::{BindFault, Notes, Scene};
use bound_tree::{Action as BoundAction, Expr, Stmt};
use std::alloc::Global;
use syntax_tree::{Action, Expression, Word};

/// A text: Y5 where the value is none.
#[tactic(auto, using(bind_names::proofs::Joined::first_of_append))]
fn text_value(
    alloc: Global,
    scene: &Scene<'_>,
    e: &Expression,
    notes: &mut Notes,
) -> Result<Typed, BindFault>
    ensures { IfOk result (λ r. IsJudged (value_for (scene_of scene.now) Character (expression_of e.now)) (typed_of r) notes.old notes.new) }
{
    let x = expression(alloc, scene, e, notes)?;
    notes.unless(x.sort.fits(Kind::Character), Rule::Y5, e.starts_at());
    Ok(x)
}

/// The value of the action RETURN, where it has one.
fn value_returned(
    alloc: Global,
    scene: &Scene<'_>,
    value: &Option<Expression>,
    notes: &mut Notes,
) -> Result<Option<Expr>, BindFault>
    ensures { IfOk result (λ r. IsJudged (returned (scene_of scene.now) (maybe_expression_of value.now)) (maybe_expr_of r) notes.old notes.new) }
{
    match value {
        None => Ok(None),
        Some(e) => {
            let x = text_value(alloc, scene, e, notes)?;
            Ok(Some(x.expr))
        }
    }
}

/// What follows an UNDO of the block of this number.
fn action_given(
    alloc: Global,
    scene: &Scene<'_>,
    block: u32,
    given: &Action,
    notes: &mut Notes,
) -> Result<BoundAction, BindFault>
    ensures { IfOk result (λ r. IsJudged (action (scene_of scene.now) block (Some (action_of given.now))) (bound_action_of r) notes.old notes.new) }
{
    match given {
        Action::Retry { .. } => Ok(BoundAction::Retry),
        Action::Leave { label, .. } => {
            let number = block_named(Sought::Numbered(block), scene.around.as_slice(), label);
            Ok(BoundAction::Leave(number))
        }
        Action::Next { label, .. } => {
            let number = block_named(Sought::Numbered(block), scene.around.as_slice(), label);
            Ok(BoundAction::Next(number))
        }
        Action::Return { error, value, .. } => {
            let value = value_returned(alloc, scene, value, notes)?;
            Ok(BoundAction::Return {
                error: *error,
                value,
            })
        }
    }
}

/// What follows an UNDO of the block of this number: RETRY where nothing is given.
pub fn action(
    alloc: Global,
    scene: &Scene<'_>,
    block: u32,
    given: &Option<Action>,
    notes: &mut Notes,
) -> Result<BoundAction, BindFault>
    ensures { IfOk result (λ r. IsJudged (action (scene_of scene.now) block (maybe_action_of given.now)) (bound_action_of r) notes.old notes.new) }
{
    match given {
        None => Ok(BoundAction::Retry),
        Some(given) => action_given(alloc, scene, block, given, notes),
    }
}

/// The same, of the statement UNDO.
fn boxed_action(
    alloc: Global,
    scene: &Scene<'_>,
    block: u32,
    given: &Option<Box<Action>>,
    notes: &mut Notes,
) -> Result<BoundAction, BindFault>
    ensures { IfOk result (λ r. IsJudged (action (scene_of scene.now) block (maybe_boxed_action_of given.now)) (bound_action_of r) notes.old notes.new) }
{
    match given {
        None => Ok(BoundAction::Retry),
        Some(given) => action_given(alloc, scene, block, given, notes),
    }
}

/// UNDO: of the block with the label, else of the innermost one that can be undone.
pub fn undo(
    alloc: Global,
    scene: &Scene<'_>,
    label: &Option<Word>,
    given: &Option<Box<Action>>,
    notes: &mut Notes,
) -> Result<Stmt, BindFault>
    ensures { IfOk result (λ r. IsJudged (undo_block (scene_of scene.now) label.now (maybe_boxed_action_of given.now)) (does (scene_of scene.now) (stmt_of r)) notes.old notes.new) }
{
    let block = block_named(Sought::Undoing, scene.around.as_slice(), label);
    let action = boxed_action(alloc, scene, block, given, notes)?;
    Ok(Stmt::Undo { block, action })
}

/// LEAVE: of the block with the label, else of the innermost one that iterates. It notes nothing.
pub fn leave(scene: &Scene<'_>, label: &Option<Word>) -> Stmt
    ensures { (notes : TheNotes) → IsJudged (leave_block (scene_of scene.now) label.now) (does (scene_of scene.now) (stmt_of result)) notes notes }
{
    Stmt::Leave(block_named(Sought::Iterating, scene.around.as_slice(), label))
}

/// NEXT: of the block with the label, else of the innermost one that iterates. It notes nothing.
pub fn next(scene: &Scene<'_>, label: &Option<Word>) -> Stmt
    ensures { (notes : TheNotes) → IsJudged (next_block (scene_of scene.now) label.now) (does (scene_of scene.now) (stmt_of result)) notes notes }
{
    Stmt::Next(block_named(Sought::Iterating, scene.around.as_slice(), label))
}

/// The value of the statement RETURN, where it has one.
fn boxed_returned(
    alloc: Global,
    scene: &Scene<'_>,
    value: &Option<Box<Expression>>,
    notes: &mut Notes,
) -> Result<Option<Expr>, BindFault>
    ensures { IfOk result (λ r. IsJudged (returned (scene_of scene.now) (maybe_boxed_of value.now)) (maybe_expr_of r) notes.old notes.new) }
{
    match value {
        None => Ok(None),
        Some(e) => {
            let x = text_value(alloc, scene, e, notes)?;
            Ok(Some(x.expr))
        }
    }
}

/// RETURN, or RETURN ERROR, which undoes the innermost block that can be undone.
fn returning(scene: &Scene<'_>, error: bool, value: Option<Expr>) -> Stmt
    ensures { stmt_of result ≡ returns (scene_of scene.now) error (maybe_expr_of value) }
{
    if error {
        let block = first_block(Sought::Undoing, scene.around.as_slice());
        Stmt::ReturnError { block, value }
    } else {
        Stmt::Return(value)
    }
}

/// RETURN, with ERROR or without.
pub fn return_it(
    alloc: Global,
    scene: &Scene<'_>,
    error: bool,
    value: &Option<Box<Expression>>,
    notes: &mut Notes,
) -> Result<Stmt, BindFault>
    ensures { IfOk result (λ r. IsJudged (return_it (scene_of scene.now) error (maybe_boxed_of value.now)) (does (scene_of scene.now) (stmt_of r)) notes.old notes.new) }
{
    let value = boxed_returned(alloc, scene, value, notes)?;
    Ok(returning(scene, error, value))
}
