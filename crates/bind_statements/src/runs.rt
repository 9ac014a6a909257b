//! RUN of an internal procedure, with its arguments.

ghost use Rattle.std.specs.Prelude.{◌≡◌, ◌<◌, ◌+◌, ◌++◌, ◌∷◌, [], Bool, IfOk, None, OnOk, Some, length, map, slice_get};
ghost use Rattle.syntax_tree.specs.Syntax.{Input as TheInput};
ghost use Rattle.syntax_tree.specs.Typed.{argument_of as syntax_argument_of, expression_of};
ghost use Rattle.bound_tree.specs.Bound.{argument_of, expr_of, stmt_of};
ghost use Rattle.bound_tree.specs.Tree.{Argument as BoundArgument, In, Run};
ghost use Rattle.bound_tree.specs.declared.expression.Variable.{Variable as TheVariable};
ghost use Rattle.bind_names.specs.Judged.{first_of};
ghost use Rattle.bind_names.specs.Names.{variable_named};
ghost use Rattle.bind_names.specs.Views.{IsJudged, scene_of};
ghost use Rattle.bind_expressions.specs.Parts.{does};
ghost use Rattle.bind_statements.specs.Runs.{argument_at, good_direction, good_kind, good_value, run, run_argument, run_arguments, run_numbered, run_unknown, same_direction, variable_for};
ghost use Rattle.bind_statements.specs.Views.{formals_of, run_arguments_of, too_many, variables_of, walk};

use abl_base::{Kind, Place, Rule};
use bind_expressions::expressions::expression;
use bind_names::known::variable_of;
use bind_names::meaning::{number_named, plain_meaning};
use bind_names::sort::same_kind;
use bind_names::{BindFault, Formal, Notes, Scene, Sort};
use bound_tree::{Argument as BoundArg, Expr, Stmt, Variable};
use std::alloc::Global;
use syntax_tree::{Argument, Direction, Expression, Word};

fn same_direction(a: Direction, b: Direction) -> bool
    ensures { result ≡ same_direction a b }
{
    matches!(
        (a, b),
        (Direction::Input, Direction::Input)
            | (Direction::Output, Direction::Output)
            | (Direction::InputOutput, Direction::InputOutput)
    )
}

/// Whether an argument may have the direction, for a parameter where there is one.
fn good_direction(formal: Option<Formal>, direction: Direction) -> bool
    ensures { result ≡ good_direction formal direction }
{
    match formal {
        None => true,
        Some(x) => same_direction(x.direction, direction),
    }
}

/// Whether an INPUT argument may have the sort.
fn good_value(formal: Option<Formal>, sort: Sort) -> bool
    ensures { result ≡ good_value formal sort }
{
    match formal {
        None => true,
        Some(x) => !same_direction(x.direction, Direction::Input) || sort.fits(x.kind),
    }
}

/// Whether a variable that is an argument may have the kind.
fn good_kind(formal: Option<Formal>, kind: Kind) -> bool
    ensures { result ≡ good_kind formal kind }
{
    match formal {
        None => true,
        Some(x) => same_kind(x.kind, kind),
    }
}

/// An INPUT argument: Y7 where its direction or its kind is wrong.
#[tactic(auto, using(bind_names::proofs::Joined::first_of_append))]
fn input_value(
    alloc: Global,
    scene: &Scene<'_>,
    formal: Option<Formal>,
    at: Place,
    e: &Expression,
    notes: &mut Notes,
) -> Result<Expr, BindFault>
    ensures { IfOk result (λ r. IsJudged (run_argument (scene_of scene.now) formal (TheInput at (expression_of e.now))) (In (expr_of r) ∷ []) notes.old notes.new) }
{
    let x = expression(alloc, scene, e, notes)?;
    notes.unless(good_direction(formal, Direction::Input), Rule::Y7, at);
    notes.unless(good_value(formal, x.sort), Rule::Y7, e.starts_at());
    Ok(x.expr)
}

/// An OUTPUT or INPUT-OUTPUT argument: Y7 where it is no variable, or its direction or its kind is
/// wrong. None where it is no variable.
#[tactic(auto, using(bind_names::proofs::Joined::first_of_append, crate::proofs::Arguments::variable_for_is))]
fn variable_argument(
    alloc: Global,
    scene: &Scene<'_>,
    formal: Option<Formal>,
    direction: Direction,
    at: Place,
    name: &Word,
    notes: &mut Notes,
) -> Result<Option<Variable>, BindFault>
    ensures { (build : TheVariable → BoundArgument) → IfOk result (λ r. IsJudged (variable_for (scene_of scene.now) build formal direction at name.now (variable_named (scene_of scene.now).known name.now.spelling)) (variables_of build r) notes.old notes.new) }
{
    match variable_of(&scene.known, name.spelling.as_slice()) {
        Some(variable) => {
            notes.unless(good_direction(formal, direction), Rule::Y7, at);
            notes.unless(good_kind(formal, variable.kind), Rule::Y7, name.at);
            Ok(Some(variable))
        }
        None => {
            plain_meaning(alloc, scene, name, notes)?;
            notes.unless(good_direction(formal, direction), Rule::Y7, at);
            notes.broken(Rule::Y7, name.at);
            Ok(None)
        }
    }
}

/// An argument, for a parameter where there is one. None where it has to be a variable and is none.
fn run_argument(
    alloc: Global,
    scene: &Scene<'_>,
    formal: Option<Formal>,
    given: &Argument,
    notes: &mut Notes,
) -> Result<Option<BoundArg>, BindFault>
    ensures { IfOk result (λ r. IsJudged (run_argument (scene_of scene.now) formal (syntax_argument_of given.now)) (run_arguments_of r) notes.old notes.new) }
{
    match given {
        Argument::Input { at, value } => {
            let value = input_value(alloc, scene, formal, *at, value, notes)?;
            Ok(Some(BoundArg::Input(value)))
        }
        Argument::Output { at, name } => {
            match variable_argument(alloc, scene, formal, Direction::Output, *at, name, notes)? {
                None => Ok(None),
                Some(variable) => Ok(Some(BoundArg::Output(variable))),
            }
        }
        Argument::InputOutput { at, name } => {
            match variable_argument(
                alloc,
                scene,
                formal,
                Direction::InputOutput,
                *at,
                name,
                notes,
            )? {
                None => Ok(None),
                Some(variable) => Ok(Some(BoundArg::InputOutput(variable))),
            }
        }
    }
}

/// Adds the argument, where there is one.
fn keep(bound: &mut Vec<BoundArg>, argument: Option<BoundArg>) -> Result<(), BindFault>
    ensures { OnOk result (map argument_of bound.new.items ≡ map argument_of bound.old.items ++ run_arguments_of argument) }
{
    if let Some(argument) = argument {
        bound.push(argument)?;
    }
    Ok(())
}

/// The parameter of this number, where there is one.
fn formal_at(formals: &[Formal], number: usize) -> Option<Formal>
    ensures { result ≡ slice_get formals.now number }
{
    if number < formals.len() {
        Some(formals[number])
    } else {
        None
    }
}

/// The arguments, each for its parameter where there is one.
fn walk(
    alloc: Global,
    scene: &Scene<'_>,
    formals: &[Formal],
    given: &[Argument],
    notes: &mut Notes,
) -> Result<Vec<BoundArg>, BindFault>
    ensures { IfOk result (λ r. IsJudged (walk (scene_of scene.now) formals.now (map syntax_argument_of given.now)) (map argument_of r.items) notes.old notes.new) }
{
    let mut bound = Vec::new(alloc);
    for (i, one) in given.iter().enumerate() {
        let argument = run_argument(alloc, scene, formal_at(formals, i), one, notes)?;
        keep(&mut bound, argument)?;
    }
    Ok(bound)
}

/// The place of an argument.
fn argument_at(given: &Argument) -> Place
    ensures { result ≡ argument_at (syntax_argument_of given.now) }
{
    match given {
        Argument::Input { at, .. } => *at,
        Argument::Output { at, .. } => *at,
        Argument::InputOutput { at, .. } => *at,
    }
}

/// Y7 at the first argument beyond the parameters.
#[tactic(auto, using(crate::proofs::Arguments::too_many_none, crate::proofs::Arguments::too_many_some))]
fn too_many(formals: &[Formal], given: &[Argument], notes: &mut Notes)
    ensures first { notes.new.first ≡ first_of notes.old.first (too_many formals.now (map syntax_argument_of given.now)) }
    ensures names { notes.new.names ≡ notes.old.names }
{
    let count = formals.len();
    if count < given.len() {
        notes.broken(Rule::Y7, argument_at(&given[count]));
    }
}

/// The arguments for these parameters: Y7 at the first one too many.
fn run_arguments(
    alloc: Global,
    scene: &Scene<'_>,
    formals: &[Formal],
    given: &[Argument],
    notes: &mut Notes,
) -> Result<Vec<BoundArg>, BindFault>
    ensures { IfOk result (λ r. IsJudged (run_arguments (scene_of scene.now) formals.now (map syntax_argument_of given.now)) (map argument_of r.items) notes.old notes.new) }
{
    let bound = walk(alloc, scene, formals, given, notes)?;
    too_many(formals, given, notes);
    Ok(bound)
}

/// RUN of an unknown procedure.
#[tactic(auto, using(bind_names::proofs::Joined::first_of_append))]
fn run_unknown(
    alloc: Global,
    scene: &Scene<'_>,
    name: &Word,
    given: &[Argument],
    notes: &mut Notes,
) -> Result<Stmt, BindFault>
    ensures { IfOk result (λ r. IsJudged (run_unknown (scene_of scene.now) name.now (map syntax_argument_of given.now)) (does (scene_of scene.now) (stmt_of r)) notes.old notes.new) }
{
    walk(alloc, scene, &[], given, notes)?;
    notes.broken(Rule::Y1, name.at);
    Ok(Stmt::Stop)
}

/// RUN of the procedure with this number among the internal ones: Y7 at the name where the
/// arguments are too few.
#[tactic(auto, using(bind_names::proofs::Joined::first_of_append))]
fn run_known(
    alloc: Global,
    scene: &Scene<'_>,
    name: &Word,
    given: &[Argument],
    quiet: bool,
    number: usize,
    notes: &mut Notes,
) -> Result<Stmt, BindFault>
    requires { number < length scene.now.procedures.now }
    ensures { IfOk result (λ r. IsJudged (run_numbered (scene_of scene.now) name.now (map syntax_argument_of given.now) quiet (Some number)) (does (scene_of scene.now) (stmt_of r)) notes.old notes.new) }
{
    let formals = formals_of(scene, number);
    let arguments = run_arguments(alloc, scene, formals, given, notes)?;
    notes.unless(formals.len() <= given.len(), Rule::Y7, name.at);
    let procedure = procedure_number(number)?;
    Ok(runs(procedure, arguments, quiet))
}

/// The parameters of the procedure with this number.
fn formals_of<'a>(scene: &'a Scene<'_>, number: usize) -> &'a [Formal]
    requires { number < length scene.now.procedures.now }
    ensures { result.now ≡ formals_of (scene_of scene.now) number }
{
    scene.procedures.as_slice()[number].formals.as_slice()
}

/// The statement RUN with these arguments.
fn runs(procedure: u32, arguments: Vec<BoundArg>, quiet: bool) -> Stmt
    ensures { stmt_of result ≡ Run procedure (map argument_of arguments.items) quiet }
{
    Stmt::Run {
        procedure,
        arguments,
        no_error: quiet,
    }
}

/// The number of an internal procedure among all, the external one first.
fn procedure_number(number: usize) -> Result<u32, BindFault>
    ensures { IfOk result (λ n. n ≡ number + 1) }
{
    let Ok(number) = u32::try_from(number) else {
        return Err(BindFault);
    };
    match number.checked_add(1) {
        Some(number) => Ok(number),
        None => Err(BindFault),
    }
}

/// RUN: Y1 at an unknown procedure.
pub fn run(
    alloc: Global,
    scene: &Scene<'_>,
    name: &Word,
    given: &[Argument],
    quiet: bool,
    notes: &mut Notes,
) -> Result<Stmt, BindFault>
    ensures { IfOk result (λ r. IsJudged (run (scene_of scene.now) name.now (map syntax_argument_of given.now) quiet) (does (scene_of scene.now) (stmt_of r)) notes.old notes.new) }
{
    match scene.procedures.find(name.spelling.as_slice()) {
        None => run_unknown(alloc, scene, name, given, notes),
        Some(number) => run_known(alloc, scene, name, given, quiet, number, notes),
    }
}
