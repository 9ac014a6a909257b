//! Assignments, and the values and sequences on their right sides.

ghost use Rattle.std.specs.Option.{is_some};
ghost use Rattle.std.specs.Prelude.{◌≡◌, ◌++◌, IfOk, OnOk, map};
ghost use Rattle.abl_values.specs.Schema.{number_of_name};
ghost use Rattle.bound_tree.specs.Bound.{assignment_of, right_of, stmt_of};
ghost use Rattle.bound_tree.specs.Tree.{Assign};
ghost use Rattle.syntax_tree.specs.Typed.{expression_of, pair_of, right_side_of};
ghost use Rattle.bind_names.specs.Views.{IsJudged, scene_of};
ghost use Rattle.bind_expressions.specs.Expressions.{expression, value_for};
ghost use Rattle.bind_expressions.specs.Views.{typed_of};
ghost use Rattle.bind_expressions.specs.Parts.{does};
ghost use Rattle.bind_statements.specs.Assignments.{assign, assignment, pair, pairs, right_side, sequence, sequence_names, takes_number, target_kind, value_for_target};
ghost use Rattle.bind_statements.specs.Views.{assignments_of};

use crate::targets::{target, target_kind};
use abl_base::{Kind, Place, Rule};
use bind_expressions::Typed;
use bind_expressions::expressions::expression;
use bind_names::meaning::number_named;
use bind_names::sort::is_number_kind;
use bind_names::{BindFault, Notes, Scene};
use bound_tree::{Assignment, Right, Stmt};
use std::alloc::Global;
use syntax_tree::{Expression, Pair, RightSide, Word};

/// A value for a target of the kind: Y5 where it does not fit.
#[tactic(auto, using(bind_names::proofs::Joined::first_of_append))]
pub fn value_for(
    alloc: Global,
    scene: &Scene<'_>,
    kind: Kind,
    e: &Expression,
    notes: &mut Notes,
) -> Result<Typed, BindFault>
    ensures { IfOk result (λ r. IsJudged (value_for (scene_of scene.now) kind (expression_of e.now)) (typed_of r) notes.old notes.new) }
{
    let x = expression(alloc, scene, e, notes)?;
    notes.unless(x.sort.fits(kind), Rule::Y5, e.starts_at());
    Ok(x)
}

/// A value for a target; its kind is not checked if the target breaks a rule.
fn value_for_target(
    alloc: Global,
    scene: &Scene<'_>,
    kind: Option<Kind>,
    e: &Expression,
    notes: &mut Notes,
) -> Result<Typed, BindFault>
    ensures { IfOk result (λ r. IsJudged (value_for_target (scene_of scene.now) kind (expression_of e.now)) (typed_of r) notes.old notes.new) }
{
    match kind {
        None => expression(alloc, scene, e, notes),
        Some(kind) => value_for(alloc, scene, kind, e, notes),
    }
}

/// Whether a target of the kind takes a number; one that is at fault takes anything.
fn takes_number(kind: Option<Kind>) -> bool
    ensures { result ≡ takes_number kind }
{
    match kind {
        None => true,
        Some(kind) => is_number_kind(kind),
    }
}

/// The number of a sequence: Y1 where there is none of the name, Y5 where the target takes no
/// number.
#[tactic(auto, using(bind_names::proofs::Joined::first_of_append))]
fn sequence(
    scene: &Scene<'_>,
    kind: Option<Kind>,
    place: Place,
    name: &Word,
    notes: &mut Notes,
) -> Result<u16, BindFault>
    ensures { IfOk result (λ n. IsJudged (sequence (scene_of scene.now) kind place name.now) n notes.old notes.new) }
{
    let number = number_named(scene.schema.sequences(), name.spelling.as_slice());
    notes.unless(number.is_some(), Rule::Y1, name.at);
    notes.unless(takes_number(kind), Rule::Y5, place);
    match number {
        None => Ok(0),
        Some(number) => match u16::try_from(number) {
            Ok(number) => Ok(number),
            Err(_) => Err(BindFault),
        },
    }
}

/// The right side of an assignment.
fn right_side(
    alloc: Global,
    scene: &Scene<'_>,
    kind: Option<Kind>,
    right: &RightSide,
    notes: &mut Notes,
) -> Result<Right, BindFault>
    ensures { IfOk result (λ r. IsJudged (right_side (scene_of scene.now) kind (right_side_of right.now)) (right_of r) notes.old notes.new) }
{
    match right {
        RightSide::Value(e) => {
            let x = value_for_target(alloc, scene, kind, e, notes)?;
            Ok(Right::Value(x.expr))
        }
        RightSide::NextValue { at, sequence: name } => {
            let number = sequence(scene, kind, *at, name, notes)?;
            Ok(Right::NextValue(number))
        }
        RightSide::CurrentValue { at, sequence: name } => {
            let number = sequence(scene, kind, *at, name, notes)?;
            Ok(Right::CurrentValue(number))
        }
    }
}

/// A pair of an assignment; none where its target is at fault.
#[tactic(auto, using(bind_names::proofs::Joined::first_of_append))]
fn pair(
    alloc: Global,
    scene: &Scene<'_>,
    one: &Pair,
    notes: &mut Notes,
) -> Result<Option<Assignment>, BindFault>
    ensures { IfOk result (λ r. IsJudged (pair (scene_of scene.now) (pair_of one.now)) (assignments_of r) notes.old notes.new) }
{
    let target = target(alloc, scene, &one.target, notes)?;
    let right = right_side(alloc, scene, target_kind(&target), &one.right, notes)?;
    match target {
        None => Ok(None),
        Some(target) => Ok(Some(Assignment { target, right })),
    }
}

/// Adds the assignment, where there is one.
fn keep(bound: &mut Vec<Assignment>, assignment: Option<Assignment>) -> Result<(), BindFault>
    ensures { OnOk result (map assignment_of bound.new.items ≡ map assignment_of bound.old.items ++ assignments_of assignment) }
{
    if let Some(assignment) = assignment {
        bound.push(assignment)?;
    }
    Ok(())
}

/// The pairs of an assignment.
#[tactic(auto, using(bind_names::proofs::Joined::first_of_append))]
fn pairs(
    alloc: Global,
    scene: &Scene<'_>,
    all: &[Pair],
    notes: &mut Notes,
) -> Result<Vec<Assignment>, BindFault>
    ensures { IfOk result (λ r. IsJudged (pairs (scene_of scene.now) (map pair_of all.now)) (map assignment_of r.items) notes.old notes.new) }
{
    let mut bound = Vec::new(alloc);
    for one in all {
        let assignment = pair(alloc, scene, one, notes)?;
        keep(&mut bound, assignment)?;
    }
    Ok(bound)
}

/// The statement that does these assignments.
fn assigns(pairs: Vec<Assignment>, quiet: bool) -> Stmt
    ensures { stmt_of result ≡ Assign (map assignment_of pairs.items) quiet }
{
    Stmt::Assign {
        pairs,
        no_error: quiet,
    }
}

/// An assignment, or ASSIGN.
pub fn assign(
    alloc: Global,
    scene: &Scene<'_>,
    all: &[Pair],
    quiet: bool,
    notes: &mut Notes,
) -> Result<Stmt, BindFault>
    ensures { IfOk result (λ r. IsJudged (assign (scene_of scene.now) (map pair_of all.now) quiet) (does (scene_of scene.now) (stmt_of r)) notes.old notes.new) }
{
    let pairs = pairs(alloc, scene, all, notes)?;
    Ok(assigns(pairs, quiet))
}
