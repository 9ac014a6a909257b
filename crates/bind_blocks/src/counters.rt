//! variable = start TO end BY step (OpenEdge ABL Reference, DO statement).

ghost use Rattle.std.specs.Prelude.{◌≡◌, IfOk};
ghost use Rattle.bound_tree.specs.Bound.{expr_of, maybe_expr_of, to_of};
ghost use Rattle.syntax_tree.specs.Syntax.{named_at};
ghost use Rattle.syntax_tree.specs.Typed.{counting_of, expression_of, maybe_counting_of, maybe_expression_of};
ghost use Rattle.bind_names.specs.Names.{meaning};
ghost use Rattle.bind_names.specs.Sorts.{is_whole_kind};
ghost use Rattle.bind_names.specs.Views.{IsJudged, meaning_of, scene_of};
ghost use Rattle.bind_expressions.specs.Expressions.{Typed as TheTyped, number, of_meaning};
ghost use Rattle.bind_expressions.specs.Parts.{maybe, the_expr};
ghost use Rattle.bind_expressions.specs.Views.{typed_of};
ghost use Rattle.bind_blocks.specs.Headers.{counter_of, counting, counts, to_phrase};

use abl_base::{Kind, Place, Rule};
use bind_expressions::Typed;
use bind_expressions::expressions::expression;
use bind_names::meaning::{Meaning, named_meaning, names_it};
use bind_names::{BindFault, NamingKind, Notes, Scene};
use bound_tree::{Expr, ToPhrase, Variable};
use std::alloc::Global;
use syntax_tree::{Counting, Expression, Named};

/// A number: Y5 where the value is none.
#[tactic(auto, using(bind_names::proofs::Joined::first_of_append))]
fn number(
    alloc: Global,
    scene: &Scene<'_>,
    e: &Expression,
    notes: &mut Notes,
) -> Result<Typed, BindFault>
    ensures { IfOk result (λ r. IsJudged (number (scene_of scene.now) (expression_of e.now)) (typed_of r) notes.old notes.new) }
{
    let x = expression(alloc, scene, e, notes)?;
    notes.unless(x.sort.may_be_number(), Rule::Y5, e.starts_at());
    Ok(x)
}

/// The value of BY, where there is one.
fn step(
    alloc: Global,
    scene: &Scene<'_>,
    by: &Option<Expression>,
    notes: &mut Notes,
) -> Result<Option<Expr>, BindFault>
    ensures { IfOk result (λ r. IsJudged (maybe (λ e. the_expr (number (scene_of scene.now) e)) (maybe_expression_of by.now)) (maybe_expr_of r) notes.old notes.new) }
{
    match by {
        None => Ok(None),
        Some(e) => {
            let x = number(alloc, scene, e, notes)?;
            Ok(Some(x.expr))
        }
    }
}

fn is_whole_kind(kind: Kind) -> bool
    ensures { result ≡ is_whole_kind kind }
{
    matches!(kind, Kind::Integer | Kind::Int64)
}

/// The variable that a name means: Y8 unless it is an INTEGER or INT64 variable.
fn counter_of(
    alloc: Global,
    scene: &Scene<'_>,
    place: Place,
    meaning: Meaning<'_>,
    notes: &mut Notes,
) -> Result<Option<Variable>, BindFault>
    ensures { IfOk result (λ r. IsJudged (counter_of (scene_of scene.now) place (meaning_of meaning.entry)) r notes.old notes.new) }
{
    match meaning {
        Meaning::Variable { variable, .. } => {
            notes.unless(is_whole_kind(variable.kind), Rule::Y8, place);
            Ok(Some(variable))
        }
        Meaning::Field { .. } => {
            notes.broken(Rule::Y8, place);
            Ok(None)
        }
        Meaning::Buffer(buffer) => {
            notes.named(names_it(alloc, scene, buffer, NamingKind::Free, false, place)?)?;
            notes.broken(Rule::Y8, place);
            Ok(None)
        }
        Meaning::Nothing => Ok(None),
    }
}

/// The variable of a TO.
#[tactic(auto, using(bind_names::proofs::Joined::first_of_append))]
fn counter(
    alloc: Global,
    scene: &Scene<'_>,
    name: &Named,
    notes: &mut Notes,
) -> Result<Option<Variable>, BindFault>
    ensures { IfOk result (λ r. IsJudged (of_meaning (meaning (scene_of scene.now) name.now) (counter_of (scene_of scene.now) (named_at name.now))) r notes.old notes.new) }
{
    let meaning = named_meaning(alloc, scene, name, notes)?;
    counter_of(alloc, scene, name.at(), meaning, notes)
}

/// The phrase of a TO; none where its variable is at fault.
fn to_phrase(
    variable: Option<Variable>,
    start: Expr,
    end: Expr,
    by: Option<Expr>,
) -> Option<ToPhrase>
    ensures { (x y : TheTyped) → x.expr ≡ expr_of start → y.expr ≡ expr_of end → to_of result ≡ to_phrase variable x y (maybe_expr_of by) }
{
    match variable {
        None => None,
        Some(variable) => Some(ToPhrase {
            variable,
            start,
            end,
            by,
        }),
    }
}

/// variable = start TO end BY step.
fn counting(
    alloc: Global,
    scene: &Scene<'_>,
    given: &Counting,
    notes: &mut Notes,
) -> Result<Option<ToPhrase>, BindFault>
    ensures { IfOk result (λ r. IsJudged (counting (scene_of scene.now) (counting_of given.now)) (to_of r) notes.old notes.new) }
{
    let variable = counter(alloc, scene, &given.variable, notes)?;
    let start = number(alloc, scene, &given.start, notes)?;
    let end = number(alloc, scene, &given.end, notes)?;
    let by = step(alloc, scene, &given.by, notes)?;
    Ok(to_phrase(variable, start.expr, end.expr, by))
}

/// The same, where the header has one.
pub fn counts(
    alloc: Global,
    scene: &Scene<'_>,
    given: &Option<Counting>,
    notes: &mut Notes,
) -> Result<Option<ToPhrase>, BindFault>
    ensures { IfOk result (λ r. IsJudged (counts (scene_of scene.now) (maybe_counting_of given.now)) (to_of r) notes.old notes.new) }
{
    match given {
        None => Ok(None),
        Some(given) => counting(alloc, scene, given, notes),
    }
}
