//! Rules U over statements and whole sources.

ghost use Rattle.std.specs.Prelude.{◌≡◌, map, [], None};
ghost use Rattle.bind_names.specs.Judged.{first_of};
ghost use Rattle.syntax_tree.specs.Typed.{definition_of, item_of, program_of, record_option_of, statement_of, statements_of};
ghost use Rattle.block_rules.specs.Around.{heads_of};
ghost use Rattle.block_rules.specs.Rules.{definition_breaks, find_breaks, first_broken, item_breaks, program_breaks, statement_breaks, statements_break};

use crate::actions::{leaves_break, nexts_break, undo_breaks};
use crate::around::Around;
use crate::headers::head_breaks;
use crate::options::{current_breaks, repeated_options, repeated_variable_options};
use bind_names::Violation;
use syntax_tree::{Definition, FindWhich, Item, Program, RecordOption, Statement};

/// The first rule U that the source breaks, and where; none exactly where it breaks none. It takes
/// no memory.
pub fn first_broken(program: &Program) -> Option<Violation>
    ensures { result ≡ first_broken (program_of program.now) }
{
    let mut first = None;
    program_breaks(&program.items, &mut first);
    first
}

/// The procedures and statements of a source, in text order.
#[tactic(auto, using(bind_names::proofs::Joined::first_of_append))]
fn program_breaks(items: &[Item], first: &mut Option<Violation>)
    ensures { first.new ≡ first_of first.old (program_breaks (map item_of items.now)) }
{
    for item in items {
        item_breaks(item, first);
    }
}

/// A procedure, or a statement of the external one.
fn item_breaks(item: &Item, first: &mut Option<Violation>)
    ensures { first.new ≡ first_of first.old (item_breaks (item_of item.now)) }
{
    match item {
        Item::Procedure { body, .. } => statements_break(body, &Around::Procedure, first),
        Item::Alone(alone) => statement_breaks(alone, &Around::Procedure, first),
    }
}

/// Statements, in the innermost block of `around`.
#[cycle(rules)]
#[tactic(auto, using(bind_names::proofs::Joined::first_of_append))]
fn statements_break(body: &[Statement], around: &Around, first: &mut Option<Violation>)
    ensures { first.new ≡ first_of first.old (statements_break (heads_of around.now) (statements_of body.now)) }
{
    for statement in body {
        statement_breaks(statement, around, first);
    }
}

/// A statement, in the innermost block of `around`.
#[cycle(rules)]
#[tactic(auto, using(bind_names::proofs::Joined::first_of_append, syntax_tree::proofs::Bodies::block_is, syntax_tree::proofs::Bodies::if_is))]
fn statement_breaks(statement: &Statement, around: &Around, first: &mut Option<Violation>)
    ensures { first.new ≡ first_of first.old (statement_breaks (heads_of around.now) (statement_of statement.now)) }
{
    match statement {
        Statement::Block { head, body } => {
            head_breaks(around, head, first);
            statements_break(body, &Around::Block(&**head, &*around), first);
        }
        Statement::If {
            then_it,
            else_it,
            ..
        } => {
            statement_breaks(then_it, around, first);
            if let Some(else_it) = else_it {
                statement_breaks(else_it, around, first);
            }
        }
        Statement::Define(definition) => definition_breaks(definition, first),
        Statement::Find { which, options, .. } => find_breaks(*which, options, first),
        Statement::Undo { label, action, .. } => undo_breaks(around, label, action, first),
        Statement::Leave { label, .. } => leaves_break(around, label, first),
        Statement::Next { at, label } => nexts_break(around, *at, label, first),
        _ => {}
    }
}

/// The options of FIND.
#[tactic(auto, using(bind_names::proofs::Joined::first_of_append, crate::proofs::Marks::marks_of_options))]
fn find_breaks(which: FindWhich, options: &[RecordOption], first: &mut Option<Violation>)
    ensures { first.new ≡ first_of first.old (find_breaks which (map record_option_of options.now)) }
{
    repeated_options(options, first);
    if which == FindWhich::Current {
        current_breaks(options, first);
    }
}

/// The options of a variable or parameter.
fn definition_breaks(definition: &Definition, first: &mut Option<Violation>)
    ensures { first.new ≡ first_of first.old (definition_breaks (definition_of definition.now)) }
{
    match definition {
        Definition::Variable { options, .. } => repeated_variable_options(options, first),
        Definition::Parameter { options, .. } => repeated_variable_options(options, first),
        _ => {}
    }
}
