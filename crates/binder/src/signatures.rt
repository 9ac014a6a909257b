//! The internal procedures of a source, with their parameters in the order of the text.

ghost use Rattle.std.specs.Prelude.{◌≡◌, ◌++◌, ◌∷◌, [], IfOk, OnOk, map};
ghost use Rattle.syntax_tree.specs.Syntax.{Define};
ghost use Rattle.syntax_tree.specs.Typed.{definition_of, item_of, program_of, statement_of, statements_of};
ghost use Rattle.binder.specs.Sources.{formals_in, formals_of, signatures};

use abl_base::Items;
use bind_names::{BindFault, Formal, Listed, Signature};
use std::alloc::Global;
use syntax_tree::{Definition, Item, Program, Statement};

/// Adds the parameters that a statement defines.
#[cycle(formals)]
#[tactic(auto, using(syntax_tree::proofs::Bodies::block_is, syntax_tree::proofs::Bodies::if_is))]
fn formals_of(statement: &Statement, found: &mut Items<Formal>) -> Result<(), BindFault>
    ensures { OnOk result (found.new ≡ found.old ++ formals_of (statement_of statement.now)) }
{
    match statement {
        Statement::Block { body, .. } => {
            formals_in(body, found)?;
            Ok(())
        }
        Statement::If {
            then_it,
            else_it,
            ..
        } => {
            formals_of(then_it, found)?;
            match else_it {
                None => Ok(()),
                Some(other) => {
                    formals_of(other, found)?;
                    Ok(())
                }
            }
        }
        Statement::Define(definition) => defined_formal(definition, found),
        Statement::Assign { .. }
        | Statement::Find { .. }
        | Statement::Create { .. }
        | Statement::Delete { .. }
        | Statement::Release { .. }
        | Statement::Undo { .. }
        | Statement::Leave { .. }
        | Statement::Next { .. }
        | Statement::Return { .. }
        | Statement::Stop
        | Statement::Run { .. }
        | Statement::Import { .. }
        | Statement::Export { .. }
        | Statement::Put { .. }
        | Statement::Message(_)
        | Statement::InputFrom { .. }
        | Statement::OutputTo { .. } => Ok(()),
    }
}

/// Adds the parameters that statements define.
#[cycle(formals)]
fn formals_in(body: &[Statement], found: &mut Items<Formal>) -> Result<(), BindFault>
    ensures { OnOk result (found.new ≡ found.old ++ formals_in (statements_of body.now)) }
{
    for statement in body {
        formals_of(statement, found)?;
    }
    Ok(())
}

/// Adds the parameter that a definition is.
fn defined_formal(definition: &Definition, found: &mut Items<Formal>) -> Result<(), BindFault>
    ensures { OnOk result (found.new ≡ found.old ++ formals_of (Define (definition_of definition.now))) }
{
    match definition {
        Definition::Parameter {
            direction,
            kind,
            ..
        } => {
            found.push(Formal {
                direction: *direction,
                kind: *kind,
            })?;
            Ok(())
        }
        Definition::Variable { .. } | Definition::Buffer { .. } | Definition::Stream(_) => Ok(()),
    }
}

/// Adds the signature of an internal procedure.
fn signature(alloc: Global, item: &Item, found: &mut Listed<Signature>) -> Result<(), BindFault>
    ensures { OnOk result (found.new ≡ found.old ++ signatures (item_of item.now ∷ [])) }
{
    match item {
        Item::Alone(_) => Ok(()),
        Item::Procedure { name, body, .. } => {
            let mut formals = Items::empty(alloc);
            formals_in(body, &mut formals)?;
            found.push(Signature {
                name: name.spelling.copy()?,
                formals,
            })?;
            Ok(())
        }
    }
}

/// The internal procedures of a source.
pub fn signatures(alloc: Global, program: &Program) -> Result<Listed<Signature>, BindFault>
    ensures { IfOk result (λ r. r ≡ signatures (program_of program.now)) }
{
    let mut found = Listed::empty(alloc);
    for item in &program.items {
        signature(alloc, item, &mut found)?;
    }
    Ok(found)
}
