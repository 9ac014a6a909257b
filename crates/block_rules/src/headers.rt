//! Headers of blocks (U2, U6, and the targets of ON phrases).

ghost use Rattle.std.specs.Prelude.{◌≡◌, map};
ghost use Rattle.bind_names.specs.Judged.{first_of};
ghost use Rattle.syntax_tree.specs.Typed.{head_of, opening_of, phrase_of};
ghost use Rattle.block_rules.specs.Around.{heads_of};
ghost use Rattle.block_rules.specs.Rules.{head_breaks, label_breaks, opening_breaks, phrase_breaks, phrases_break};

use crate::actions::phrase_undo_breaks;
use crate::around::{Around, from_label, is_inner};
use crate::options::{repeated_options, repeated_phrases};
use crate::violations::unless;
use abl_base::Rule;
use bind_names::Violation;
use syntax_tree::{Head, Opening, Phrase, Word};

/// The header of a block.
#[tactic(auto, using(bind_names::proofs::Joined::first_of_append, crate::proofs::Marks::marks_of_phrases))]
pub fn head_breaks(around: &Around, head: &Head, first: &mut Option<Violation>)
    ensures { first.new ≡ first_of first.old (head_breaks (heads_of around.now) (head_of head.now)) }
{
    label_breaks(around, &head.label, first);
    opening_breaks(&head.opening, first);
    repeated_phrases(&head.phrases, first);
    phrases_break(&Around::Block(head, around), &head.phrases, first);
}

/// The label of a block.
fn label_breaks(around: &Around, label: &Option<Word>, first: &mut Option<Violation>)
    ensures { first.new ≡ first_of first.old (label_breaks (heads_of around.now) label.now) }
{
    if let Some(label) = label {
        unless(
            first,
            !is_inner(from_label(around, label)),
            Rule::U2,
            label.at,
        );
    }
}

/// The first words of a header.
#[tactic(auto, using(crate::proofs::Marks::marks_of_options))]
fn opening_breaks(opening: &Opening, first: &mut Option<Violation>)
    ensures { first.new ≡ first_of first.old (opening_breaks (opening_of opening.now)) }
{
    match opening {
        Opening::ForRecords { options, .. } => repeated_options(options, first),
        Opening::Plainly { .. } => {}
    }
}

/// The phrases of a header; `around` begins with its block.
#[tactic(auto, using(bind_names::proofs::Joined::first_of_append))]
fn phrases_break(around: &Around, phrases: &[Phrase], first: &mut Option<Violation>)
    ensures { first.new ≡ first_of first.old (phrases_break (heads_of around.now) (map phrase_of phrases.now)) }
{
    for phrase in phrases {
        phrase_breaks(around, phrase, first);
    }
}

/// A phrase.
fn phrase_breaks(around: &Around, phrase: &Phrase, first: &mut Option<Violation>)
    ensures { first.new ≡ first_of first.old (phrase_breaks (heads_of around.now) (phrase_of phrase.now)) }
{
    match phrase {
        Phrase::OnError { label, action, .. } => phrase_undo_breaks(around, label, action, first),
        Phrase::OnEndkey { label, action, .. } => phrase_undo_breaks(around, label, action, first),
        _ => {}
    }
}
