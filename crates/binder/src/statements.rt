//! What a statement is bound to: blocks and IF with the statements inside them, and each other
//! statement by the function for it.

ghost use Rattle.std.specs.Prelude.{◌≡◌, ◌++◌, IfOk, OnOk};
ghost use Rattle.bound_tree.specs.Bound.{body_of, header_of, stmt_of};
ghost use Rattle.bound_tree.specs.Tree.{Choose, Inner, Nothing, Then};
ghost use Rattle.syntax_tree.specs.Typed.{head_of, statement_of, statements_of};
ghost use Rattle.bind_names.specs.Views.{IsJudged, scene_of};
ghost use Rattle.bind_blocks.specs.Flow.{leave_block, next_block};
ghost use Rattle.bind_blocks.specs.Headers.{head, inside};
ghost use Rattle.bind_expressions.specs.Parts.{IsAfter, does, done_with};
ghost use Rattle.bind_expressions.specs.Views.{typed_of};
ghost use Rattle.binder.specs.Statements.{block, statement, statements};

use bind_blocks::enclosing::{enter, step_out};
use bind_blocks::find::find;
use bind_blocks::flow::{leave, next, return_it, undo};
use bind_blocks::headers::head;
use bind_expressions::Typed;
use bind_expressions::expressions::condition;
use bind_names::{BindFault, Notes, Scene};
use bind_statements::assignments::assign;
use bind_statements::buffers::{Touch, touch_buffer};
use bind_statements::definitions::define;
use bind_statements::runs::run;
use bind_statements::shown::{message, put};
use bind_statements::streams::{input, output};
use bind_statements::transfers::{export, import};
use bound_tree::{Header, Stmt};
use std::alloc::Global;
use syntax_tree::{Head, Statement, Word};

/// A body of one statement.
fn one(alloc: Global, stmt: Stmt) -> Result<Vec<Stmt>, BindFault>
    ensures { IfOk result (λ r. body_of r.items ≡ Then (stmt_of stmt) Nothing) }
{
    let mut body = Vec::new(alloc);
    body.push(stmt)?;
    Ok(body)
}

/// Adds statements after those that are there.
pub fn join(bound: &mut Vec<Stmt>, more: Vec<Stmt>) -> Result<(), BindFault>
    ensures { OnOk result (bound.new.items ≡ bound.old.items ++ more.items) }
{
    let mut more = more;
    bound.append(&mut more)?;
    Ok(())
}

/// IF with its branches.
fn chooses(test: Typed, then_body: Vec<Stmt>, else_body: Vec<Stmt>) -> Stmt
    ensures { stmt_of result ≡ Choose (typed_of test).expr (body_of then_body.items) (body_of else_body.items) }
{
    Stmt::If {
        test: test.expr,
        then_body,
        else_body,
    }
}

/// A block of a header and the statements inside it.
#[tactic(auto, using(crate::proofs::Inner::inner_is))]
fn inner(header: Box<Header>, body: Vec<Stmt>) -> Stmt
    ensures { stmt_of result ≡ Inner (header_of header.value) (body_of body.items) }
{
    Stmt::Block { header, body }
}

/// LEAVE, which breaks no rule.
fn left(scene: &Scene<'_>, label: &Option<Word>, notes: &mut Notes) -> Stmt
    ensures { IsJudged (leave_block (scene_of scene.now) label.now) (does (scene_of scene.now) (stmt_of result)) notes.old notes.new }
{
    leave(scene, label)
}

/// NEXT, which breaks no rule.
fn continued(scene: &Scene<'_>, label: &Option<Word>, notes: &mut Notes) -> Stmt
    ensures { IsJudged (next_block (scene_of scene.now) label.now) (does (scene_of scene.now) (stmt_of result)) notes.old notes.new }
{
    next(scene, label)
}

/// What a statement is bound to: none for a definition.
#[cycle(statements)]
pub fn statement(
    alloc: Global,
    scene: &mut Scene<'_>,
    s: &Statement,
    notes: &mut Notes,
) -> Result<Vec<Stmt>, BindFault>
    ensures judged { IfOk result (λ r. IsJudged (statement (scene_of scene.old) (statement_of s.now)) (done_with (body_of r.items) (scene_of scene.new)) notes.old notes.new) }
    ensures scene { OnOk result (IsAfter scene.old scene.new) }
{
    match s {
        Statement::Block { head, body } => {
            let made = block(alloc, scene, head, body, notes)?;
            Ok(made)
        }
        Statement::If {
            test,
            then_it,
            else_it,
        } => {
            let x = condition(alloc, scene, test, notes)?;
            let then_body = statement(alloc, scene, then_it, notes)?;
            match else_it {
                None => {
                    let made = one(alloc, chooses(x, then_body, Vec::new(alloc)))?;
                    Ok(made)
                }
                Some(other) => {
                    let else_body = statement(alloc, scene, other, notes)?;
                    let made = one(alloc, chooses(x, then_body, else_body))?;
                    Ok(made)
                }
            }
        }
        Statement::Define(definition) => {
            define(alloc, scene, definition, notes)?;
            Ok(Vec::new(alloc))
        }
        Statement::Assign { pairs, quiet } => {
            let made = assign(alloc, scene, pairs, *quiet, notes)?;
            one(alloc, made)
        }
        Statement::Find {
            which,
            buffer,
            options,
        } => {
            let made = find(alloc, scene, *which, buffer, options, notes)?;
            one(alloc, made)
        }
        Statement::Create { buffer, quiet } => {
            let made = touch_buffer(alloc, scene, Touch::Create, buffer, *quiet, notes)?;
            one(alloc, made)
        }
        Statement::Delete { buffer, quiet } => {
            let made = touch_buffer(alloc, scene, Touch::Delete, buffer, *quiet, notes)?;
            one(alloc, made)
        }
        Statement::Release { buffer, quiet } => {
            let made = touch_buffer(alloc, scene, Touch::Release, buffer, *quiet, notes)?;
            one(alloc, made)
        }
        Statement::Undo { label, action, .. } => {
            let made = undo(alloc, scene, label, action, notes)?;
            one(alloc, made)
        }
        Statement::Leave { label, .. } => {
            let made = left(scene, label, notes);
            one(alloc, made)
        }
        Statement::Next { label, .. } => {
            let made = continued(scene, label, notes);
            one(alloc, made)
        }
        Statement::Return { error, value, .. } => {
            let made = return_it(alloc, scene, *error, value, notes)?;
            one(alloc, made)
        }
        Statement::Stop => one(alloc, Stmt::Stop),
        Statement::Run {
            procedure,
            arguments,
            quiet,
        } => {
            let made = run(alloc, scene, procedure, arguments, *quiet, notes)?;
            one(alloc, made)
        }
        Statement::Import {
            stream,
            targets,
            quiet,
        } => {
            let made = import(alloc, scene, stream, targets, *quiet, notes)?;
            one(alloc, made)
        }
        Statement::Export { stream, values } => {
            let made = export(alloc, scene, stream, values, notes)?;
            one(alloc, made)
        }
        Statement::Put {
            stream,
            plain,
            items,
        } => {
            let made = put(alloc, scene, stream, *plain, items, notes)?;
            let bound = one(alloc, made)?;
            Ok(bound)
        }
        Statement::Message(values) => {
            let made = message(alloc, scene, values, notes)?;
            one(alloc, made)
        }
        Statement::InputFrom { stream, file } => {
            let made = input(scene, stream, file, notes)?;
            one(alloc, made)
        }
        Statement::OutputTo {
            stream,
            file,
            append,
        } => {
            let made = output(scene, stream, file, *append, notes)?;
            one(alloc, made)
        }
    }
}

/// What a block is bound to.
#[cycle(statements)]
fn block(
    alloc: Global,
    scene: &mut Scene<'_>,
    given: &Head,
    all: &[Statement],
    notes: &mut Notes,
) -> Result<Vec<Stmt>, BindFault>
    ensures judged { let w = scene_of scene.old in let h = head_of given.now in
        IfOk result (λ r. IsJudged (block (head (inside h w) h) (statements (inside h w) (statements_of all.now))) (done_with (body_of r.items) (scene_of scene.new)) notes.old notes.new) }
    ensures scene { OnOk result (IsAfter scene.old scene.new) }
{
    let outer = scene.block;
    enter(alloc, scene, given)?;
    let header = head(alloc, scene, given, notes)?;
    let bound = body(alloc, scene, all, notes)?;
    step_out(alloc, scene, outer);
    let made = one(alloc, inner(header, bound))?;
    Ok(made)
}

/// What statements are bound to, one after the other.
#[cycle(statements)]
pub fn body(
    alloc: Global,
    scene: &mut Scene<'_>,
    all: &[Statement],
    notes: &mut Notes,
) -> Result<Vec<Stmt>, BindFault>
    ensures judged { IfOk result (λ r. IsJudged (statements (scene_of scene.old) (statements_of all.now)) (done_with (body_of r.items) (scene_of scene.new)) notes.old notes.new) }
    ensures scene { OnOk result (IsAfter scene.old scene.new) }
{
    let mut bound = Vec::new(alloc);
    for one in all {
        let made = statement(alloc, scene, one, notes)?;
        join(&mut bound, made)?;
    }
    Ok(bound)
}
