//! The blocks around a place.

ghost use Rattle.std.specs.Prelude.{◌≡◌, map};
ghost use Rattle.syntax_tree.specs.Typed.{head_of, opening_of, phrase_of};
ghost use Rattle.block_rules.specs.Blocks.{first_has_undo, first_is_called, first_iterates, from_label, from_undo, has_undo, has_undo_phrase, has_while, is_called, is_do, is_inner, is_while, iterates, one_iterates};
ghost use Rattle.block_rules.specs.Around.{heads_of};

use abl_values::same_name;
use syntax_tree::{BlockWord, Head, Opening, Phrase, Word};

/// The block that a place is in, with the blocks around it.
#[derive(Drop)]
pub enum Around<'a> {
    /// The block of the procedure.
    Procedure,
    /// DO, REPEAT or FOR, and what is around it.
    Block(&'a Head, &'a Around<'a>),
}

/// The block with this label, or else the procedure's.
pub fn from_label<'a>(around: &'a Around<'a>, label: &Word) -> &'a Around<'a>
    ensures { heads_of result.now ≡ from_label label.now (heads_of around.now) }
{
    match around {
        Around::Procedure => around,
        Around::Block(head, outer) => {
            if is_called(&head.label, label) {
                around
            } else {
                from_label(outer, label)
            }
        }
    }
}

/// The innermost block with the undo property.
pub fn from_undo<'a>(around: &'a Around<'a>) -> &'a Around<'a>
    ensures { heads_of result.now ≡ from_undo (heads_of around.now) }
{
    match around {
        Around::Procedure => around,
        Around::Block(head, outer) => {
            if has_undo(head) {
                around
            } else {
                from_undo(outer)
            }
        }
    }
}

/// Whether the block is not the procedure's.
pub fn is_inner(around: &Around) -> bool
    ensures { result ≡ is_inner (heads_of around.now) }
{
    match around {
        Around::Procedure => false,
        Around::Block(_, _) => true,
    }
}

/// Whether the block iterates.
pub fn first_iterates(around: &Around) -> bool
    ensures { result ≡ first_iterates (heads_of around.now) }
{
    match around {
        Around::Procedure => false,
        Around::Block(head, _) => iterates(head),
    }
}

/// Whether the block has the undo property.
pub fn first_has_undo(around: &Around) -> bool
    ensures { result ≡ first_has_undo (heads_of around.now) }
{
    match around {
        Around::Procedure => true,
        Around::Block(head, _) => has_undo(head),
    }
}

/// Whether the block has the label.
pub fn first_is_called(around: &Around, label: &Word) -> bool
    ensures { result ≡ first_is_called (heads_of around.now) label.now }
{
    match around {
        Around::Procedure => false,
        Around::Block(head, _) => is_called(&head.label, label),
    }
}

/// Whether some block around iterates.
pub fn one_iterates(around: &Around) -> bool
    ensures { result ≡ one_iterates (heads_of around.now) }
{
    match around {
        Around::Procedure => false,
        Around::Block(head, outer) => iterates(head) || one_iterates(outer),
    }
}

/// Whether a block with this header iterates.
fn iterates(head: &Head) -> bool
    ensures { result ≡ iterates (head_of head.now) }
{
    !is_do(&head.opening) || head.counting.is_some() || has_while(&head.phrases)
}

/// Whether a block with this header has the undo property.
fn has_undo(head: &Head) -> bool
    ensures { result ≡ has_undo (head_of head.now) }
{
    !is_do(&head.opening) || has_undo_phrase(&head.phrases)
}

/// Whether it is a DO.
fn is_do(opening: &Opening) -> bool
    ensures { result ≡ is_do (opening_of opening.now) }
{
    match opening {
        Opening::Plainly { word, .. } => *word == BlockWord::Do,
        Opening::ForRecords { .. } => false,
    }
}

/// Whether there is a WHILE among the phrases.
fn has_while(phrases: &[Phrase]) -> bool
    ensures { result ≡ has_while (map phrase_of phrases.now) }
{
    for phrase in phrases {
        if is_while(phrase) {
            return true;
        }
    }
    false
}

/// Whether it is WHILE.
fn is_while(phrase: &Phrase) -> bool
    ensures { result ≡ is_while (phrase_of phrase.now) }
{
    match phrase {
        Phrase::While { .. } => true,
        _ => false,
    }
}

/// Whether there is a phrase that gives the undo property.
fn has_undo_phrase(phrases: &[Phrase]) -> bool
    ensures { result ≡ has_undo_phrase (map phrase_of phrases.now) }
{
    for phrase in phrases {
        if !is_while(phrase) {
            return true;
        }
    }
    false
}

/// Whether the block has this label.
fn is_called(name: &Option<Word>, label: &Word) -> bool
    ensures { result ≡ is_called name.now label.now }
{
    match name {
        None => false,
        Some(name) => same_name(name.spelling.as_slice(), label.spelling.as_slice()),
    }
}
