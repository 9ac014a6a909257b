//! The phrases of a header: WHILE, TRANSACTION, ON ERROR and ON ENDKEY.

ghost use Rattle.std.specs.List.{list_any};
ghost use Rattle.std.specs.Prelude.{◌≡◌, IfOk, Some, map, not};
ghost use Rattle.bound_tree.specs.Bound.{expr_of, maybe_expr_of, on_of};
ghost use Rattle.syntax_tree.specs.Typed.{maybe_action_of, phrase_of};
ghost use Rattle.bind_names.specs.Judged.{made};
ghost use Rattle.bind_names.specs.Names.{or_else};
ghost use Rattle.bind_names.specs.Views.{IsJudged, scene_of};
ghost use Rattle.bind_blocks.specs.Headers.{is_transaction, is_while, on_phrase, phrases};
ghost use Rattle.bind_blocks.specs.Views.{firsts, on_phrase_of, phrase, phrases_of};

use crate::flow::action;
use crate::named::{Sought, block_named};
use bind_expressions::expressions::condition;
use bind_names::{BindFault, Notes, Scene};
use bound_tree::{Expr, OnPhrase};
use std::alloc::Global;
use syntax_tree::{Action, Phrase, Word};

/// The phrases that take effect: the first of each kind.
#[derive(Drop)]
pub struct Phrases {
    pub while_test: Option<Expr>,
    pub on_error: Option<OnPhrase>,
    pub on_endkey: Option<OnPhrase>,
}

/// The first expression, where there is one.
fn first_expr(first: Option<Expr>, other: Expr) -> Option<Expr>
    ensures { maybe_expr_of result ≡ or_else (maybe_expr_of first) (Some (expr_of other)) }
{
    match first {
        Some(e) => Some(e),
        None => Some(other),
    }
}

/// The first ON phrase, where there is one.
fn first_on(first: Option<OnPhrase>, other: OnPhrase) -> Option<OnPhrase>
    ensures { on_of result ≡ or_else (on_of first) (Some (on_phrase_of other)) }
{
    match first {
        Some(on) => Some(on),
        None => Some(other),
    }
}

/// ON ERROR or ON ENDKEY.
fn on_phrase(
    alloc: Global,
    scene: &Scene<'_>,
    label: &Option<Word>,
    given: &Option<Action>,
    notes: &mut Notes,
) -> Result<OnPhrase, BindFault>
    ensures { IfOk result (λ r. IsJudged (on_phrase (scene_of scene.now) label.now (maybe_action_of given.now)) (on_phrase_of r) notes.old notes.new) }
{
    let target = block_named(Sought::Undoing, scene.around.as_slice(), label);
    let action = action(alloc, scene, target, given, notes)?;
    Ok(OnPhrase { target, action })
}

/// One more phrase.
fn phrase(
    alloc: Global,
    scene: &Scene<'_>,
    given: &Phrase,
    so_far: Phrases,
    notes: &mut Notes,
) -> Result<Phrases, BindFault>
    ensures { IfOk result (λ r. IsJudged (made (firsts (phrases_of so_far)) (phrase (scene_of scene.now) (phrase_of given.now))) (phrases_of r) notes.old notes.new) }
{
    let Phrases {
        while_test,
        on_error,
        on_endkey,
    } = so_far;
    match given {
        Phrase::While { test, .. } => {
            let x = condition(alloc, scene, test, notes)?;
            let while_test = first_expr(while_test, x.expr);
            Ok(Phrases {
                while_test,
                on_error,
                on_endkey,
            })
        }
        Phrase::Transaction { .. } => Ok(Phrases {
            while_test,
            on_error,
            on_endkey,
        }),
        Phrase::OnError { label, action, .. } => {
            let on = on_phrase(alloc, scene, label, action, notes)?;
            let on_error = first_on(on_error, on);
            Ok(Phrases {
                while_test,
                on_error,
                on_endkey,
            })
        }
        Phrase::OnEndkey { label, action, .. } => {
            let on = on_phrase(alloc, scene, label, action, notes)?;
            let on_endkey = first_on(on_endkey, on);
            Ok(Phrases {
                while_test,
                on_error,
                on_endkey,
            })
        }
    }
}

/// The phrases of a header.
pub fn all_phrases(
    alloc: Global,
    scene: &Scene<'_>,
    given: &[Phrase],
    notes: &mut Notes,
) -> Result<Phrases, BindFault>
    ensures { IfOk result (λ r. IsJudged (phrases (scene_of scene.now) (map phrase_of given.now)) (phrases_of r) notes.old notes.new) }
{
    let mut so_far = Phrases {
        while_test: None,
        on_error: None,
        on_endkey: None,
    };
    for one in given {
        so_far = phrase(alloc, scene, one, so_far, notes)?;
    }
    Ok(so_far)
}

/// Whether one of the phrases is a WHILE.
pub fn has_while(given: &[Phrase]) -> bool
    ensures { result ≡ list_any is_while (map phrase_of given.now) }
{
    for one in given {
        if matches!(one, Phrase::While { .. }) {
            return true;
        }
    }
    false
}

/// Whether one of the phrases lets the block be undone: TRANSACTION, ON ERROR or ON ENDKEY.
pub fn has_undo(given: &[Phrase]) -> bool
    ensures { result ≡ list_any (λ p. not (is_while p)) (map phrase_of given.now) }
{
    for one in given {
        if !matches!(one, Phrase::While { .. }) {
            return true;
        }
    }
    false
}

/// Whether one of the phrases is TRANSACTION.
pub fn has_transaction(given: &[Phrase]) -> bool
    ensures { result ≡ list_any is_transaction (map phrase_of given.now) }
{
    for one in given {
        if matches!(one, Phrase::Transaction { .. }) {
            return true;
        }
    }
    false
}
