//! UNDO, LEAVE and NEXT (U1, U3, U4, U5 and U7).

ghost use Rattle.std.specs.Prelude.{◌≡◌};
ghost use Rattle.bind_names.specs.Judged.{first_of};
ghost use Rattle.syntax_tree.specs.Typed.{action_of, maybe_action_of, maybe_boxed_action_of};
ghost use Rattle.block_rules.specs.Around.{heads_of};
ghost use Rattle.block_rules.specs.Rules.{action_breaks, inside_breaks, leave_breaks, leaves_break, next_breaks, nexts_break, retry_breaks, target_breaks, undo_breaks, undone_by};
ghost use Rattle.abl_base.specs.declared.place.Place.{Place as ThePlace};

use crate::around::{
    Around, first_has_undo, first_is_called, first_iterates, from_label, from_undo, is_inner,
    one_iterates,
};
use crate::violations::{broken, unless};
use abl_base::{Place, Rule};
use bind_names::Violation;
use syntax_tree::{Action, Word};

/// LEAVE, with its label if it has one.
pub fn leaves_break(around: &Around, label: &Option<Word>, first: &mut Option<Violation>)
    ensures { first.new ≡ first_of first.old (leaves_break (heads_of around.now) label.now) }
{
    if let Some(label) = label {
        leave_breaks(around, label, first);
    }
}

/// NEXT, with its label if it has one.
pub fn nexts_break(around: &Around, at: Place, label: &Option<Word>, first: &mut Option<Violation>)
    ensures { first.new ≡ first_of first.old (nexts_break (heads_of around.now) at label.now) }
{
    match label {
        None => unless(first, one_iterates(around), Rule::U4, at),
        Some(label) => next_breaks(around, label, first),
    }
}

/// LEAVE with a label.
fn leave_breaks(around: &Around, label: &Word, first: &mut Option<Violation>)
    ensures { first.new ≡ first_of first.old (leave_breaks (heads_of around.now) label.now) }
{
    unless(
        first,
        is_inner(from_label(around, label)),
        Rule::U1,
        label.at,
    );
}

/// NEXT with a label.
fn next_breaks(around: &Around, label: &Word, first: &mut Option<Violation>)
    ensures { first.new ≡ first_of first.old (next_breaks (heads_of around.now) label.now) }
{
    let named = from_label(around, label);
    if is_inner(named) {
        unless(first, first_iterates(named), Rule::U4, label.at);
    } else {
        broken(first, Rule::U1, label.at);
    }
}

/// LEAVE or NEXT after an UNDO names a block inside the undone one.
fn inside_breaks(around: &Around, undone: &Around, label: &Word, first: &mut Option<Violation>)
    ensures { first.new ≡ first_of first.old (inside_breaks (heads_of around.now) (heads_of undone.now) label.now) }
{
    if is_inner(from_label(around, label)) {
        unless(
            first,
            is_inner(from_label(undone, label)),
            Rule::U5,
            label.at,
        );
    }
}

/// RETRY with a label.
fn retry_breaks(around: &Around, undone: &Around, label: &Word, first: &mut Option<Violation>)
    ensures { first.new ≡ first_of first.old (retry_breaks (heads_of around.now) (heads_of undone.now) label.now) }
{
    if is_inner(from_label(around, label)) {
        unless(first, first_is_called(undone, label), Rule::U7, label.at);
    } else {
        broken(first, Rule::U1, label.at);
    }
}

/// What follows an UNDO of the block `undone`.
#[tactic(auto, using(bind_names::proofs::Joined::first_of_append))]
fn action_breaks(around: &Around, undone: &Around, action: &Action, first: &mut Option<Violation>)
    ensures { first.new ≡ first_of first.old (action_breaks (heads_of around.now) (heads_of undone.now) (action_of action.now)) }
{
    match action {
        Action::Leave {
            label: Some(label),
            ..
        } => {
            leave_breaks(around, label, first);
            inside_breaks(around, undone, label, first);
        }
        Action::Next { at, label: None } => unless(first, first_iterates(undone), Rule::U4, *at),
        Action::Next {
            label: Some(label),
            ..
        } => {
            next_breaks(around, label, first);
            inside_breaks(around, undone, label, first);
        }
        Action::Retry {
            label: Some(label),
            ..
        } => retry_breaks(around, undone, label, first),
        _ => {}
    }
}

/// The block that an UNDO undoes.
fn undone_by<'a>(around: &'a Around<'a>, label: &Option<Word>) -> &'a Around<'a>
    ensures { heads_of result.now ≡ undone_by (heads_of around.now) label.now }
{
    match label {
        None => from_undo(around),
        Some(label) => from_label(around, label),
    }
}

/// The label of an UNDO.
fn target_breaks(around: &Around, label: &Option<Word>, first: &mut Option<Violation>)
    ensures { first.new ≡ first_of first.old (target_breaks (heads_of around.now) label.now) }
{
    if let Some(label) = label {
        let named = from_label(around, label);
        if is_inner(named) {
            unless(first, first_has_undo(named), Rule::U3, label.at);
        } else {
            broken(first, Rule::U1, label.at);
        }
    }
}

/// The UNDO of an ON phrase.
#[tactic(auto, using(bind_names::proofs::Joined::first_of_append))]
pub fn phrase_undo_breaks(
    around: &Around,
    label: &Option<Word>,
    action: &Option<Action>,
    first: &mut Option<Violation>,
)
    ensures { first.new ≡ first_of first.old (undo_breaks (heads_of around.now) label.now (maybe_action_of action.now)) }
{
    target_breaks(around, label, first);
    if let Some(action) = action {
        action_breaks(around, undone_by(around, label), action, first);
    }
}

/// The statement UNDO.
#[tactic(auto, using(bind_names::proofs::Joined::first_of_append))]
pub fn undo_breaks(
    around: &Around,
    label: &Option<Word>,
    action: &Option<Box<Action>>,
    first: &mut Option<Violation>,
)
    ensures { first.new ≡ first_of first.old (undo_breaks (heads_of around.now) label.now (maybe_boxed_action_of action.now)) }
{
    target_breaks(around, label, first);
    if let Some(action) = action {
        action_breaks(around, undone_by(around, label), action, first);
    }
}
