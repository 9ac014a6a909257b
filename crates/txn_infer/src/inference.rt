//! The walk over the tree: each block once, its statements first.

ghost use Rattle.std.specs.Prelude.{◌≡◌, ◌||◌, map};
ghost use Rattle.bound_tree.specs.Bound.{body_of, procedure_of, source_of, stmt_of};
ghost use Rattle.txn_infer.specs.Flags.{flagged_body, flagged_procedure, flagged_stmt, with_flags};
ghost use Rattle.txn_infer.specs.Updates.{updates, updates_in};
ghost use Rattle.txn_infer.specs.Retry.{names_retry, names_retry_in};

use crate::headers::{Facts, set_flags};
use crate::retry::{asks_itself, asks_retry};
use crate::updates::is_update;
use bound_tree::{Bound, Procedure, Stmt};

/// Sets the flags of every header of the source, and changes nothing else. It takes no memory, and
/// visits each block once.
pub fn infer(bound: &mut Bound)
    ensures { source_of bound.new ≡ with_flags (source_of bound.old) }
{
    infer_procedures(&mut bound.procedures);
}

/// Sets the flags of every header of the procedures.
fn infer_procedures(procedures: &mut Vec<Procedure>)
    ensures { map procedure_of procedures.new.items ≡ map flagged_procedure (map procedure_of procedures.old.items) }
{
    for i in 0..procedures.len() {
        infer_procedure(&mut procedures[i]);
    }
}

/// Sets the flags of every header of the procedure.
fn infer_procedure(procedure: &mut Procedure)
    ensures { procedure_of procedure.new ≡ flagged_procedure (procedure_of procedure.old) }
{
    let inside = infer_body(&mut procedure.body);
    set_flags(&mut procedure.header, inside);
}

/// Sets the flags of every header in the statements, and returns what they do.
#[cycle(inference)]
fn infer_body(body: &mut Vec<Stmt>) -> Facts
    ensures body { body_of body.new.items ≡ flagged_body (body_of body.old.items) }
    ensures updates { result.updates ≡ updates_in (body_of body.old.items) }
    ensures names_retry { result.names_retry ≡ names_retry_in (body_of body.old.items) }
{
    let mut facts = Facts {
        updates: false,
        names_retry: false,
    };
    for i in 0..body.len() {
        facts = joined(facts, infer_stmt(&mut body[i]));
    }
    facts
}

/// What statements do, where those before do the first, and the next one the second.
fn joined(before: Facts, next: Facts) -> Facts
    ensures updates { result.updates ≡ before.updates || next.updates }
    ensures names_retry { result.names_retry ≡ before.names_retry || next.names_retry }
{
    Facts {
        updates: before.updates || next.updates,
        names_retry: before.names_retry || next.names_retry,
    }
}

/// What an IF does, where its condition names RETRY or not, and its branches do this.
fn of_if(asks: bool, branches: Facts) -> Facts
    ensures updates { result.updates ≡ branches.updates }
    ensures names_retry { result.names_retry ≡ asks || branches.names_retry }
{
    Facts {
        updates: branches.updates,
        names_retry: asks || branches.names_retry,
    }
}

/// Sets the flags of every header in the statement, and returns what it does.
#[cycle(inference)]
fn infer_stmt(stmt: &mut Stmt) -> Facts
    ensures stmt { stmt_of stmt.new ≡ flagged_stmt (stmt_of stmt.old) }
    ensures updates { result.updates ≡ updates (stmt_of stmt.old) }
    ensures names_retry { result.names_retry ≡ names_retry (stmt_of stmt.old) }
{
    match stmt {
        Stmt::Block { header, body } => {
            let inside = infer_body(body);
            set_flags(header, inside)
        }
        Stmt::If {
            test,
            then_body,
            else_body,
        } => {
            let asks = asks_retry(test);
            let then_facts = infer_body(then_body);
            let else_facts = infer_body(else_body);
            of_if(asks, joined(then_facts, else_facts))
        }
        _ => Facts {
            updates: is_update(stmt),
            names_retry: asks_itself(stmt),
        },
    }
}
