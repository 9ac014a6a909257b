//! FIND (OpenEdge ABL Reference, FIND statement).

ghost use Rattle.std.specs.Prelude.{◌≡◌, IfOk, map};
ghost use Rattle.bound_tree.specs.Bound.{stmt_of};
ghost use Rattle.syntax_tree.specs.Typed.{record_option_of};
ghost use Rattle.bind_names.specs.Views.{IsJudged, scene_of};
ghost use Rattle.bind_expressions.specs.Parts.{does};
ghost use Rattle.bind_blocks.specs.Records.{find, find_word_of};
ghost use Rattle.bind_blocks.specs.Views.{find_stmt, selection_of};

use crate::records::{Selection, looked_for};
use bind_names::{BindFault, NamingKind, Notes, Scene};
use bound_tree::{FindWord, Stmt};
use std::alloc::Global;
use syntax_tree::{FindWhich, RecordOption, Word};

/// The word after FIND; none for CURRENT.
fn find_word_of(which: FindWhich) -> Option<FindWord>
    ensures { result ≡ find_word_of which }
{
    match which {
        FindWhich::Only => Some(FindWord::Only),
        FindWhich::First => Some(FindWord::First),
        FindWhich::Last => Some(FindWord::Last),
        FindWhich::Next => Some(FindWord::Next),
        FindWhich::Previous => Some(FindWord::Previous),
        FindWhich::Current => None,
    }
}

/// FIND of what is selected: FIND CURRENT where there is no word.
fn stmt_for(alloc: Global, word: Option<FindWord>, selection: Selection) -> Result<Stmt, BindFault>
    ensures { IfOk result (λ r. stmt_of r ≡ find_stmt word (selection_of selection)) }
{
    let Selection {
        reading,
        wait,
        quiet,
    } = selection;
    let reading = Box::new(alloc, reading)?;
    match word {
        Some(word) => Ok(Stmt::Find {
            word,
            reading,
            wait,
            no_error: quiet,
        }),
        None => Ok(Stmt::FindCurrent {
            reading,
            wait,
            no_error: quiet,
        }),
    }
}

/// FIND: Y1 at an unknown buffer, Y6 at a WHERE that is no condition, Y10 at an index that the
/// buffer's table does not have.
pub fn find(
    alloc: Global,
    scene: &Scene<'_>,
    which: FindWhich,
    buffer: &Word,
    options: &[RecordOption],
    notes: &mut Notes,
) -> Result<Stmt, BindFault>
    ensures { IfOk result (λ r. IsJudged (find (scene_of scene.now) which buffer.now (map record_option_of options.now)) (does (scene_of scene.now) (stmt_of r)) notes.old notes.new) }
{
    let selection = looked_for(alloc, scene, NamingKind::Free, buffer, options, notes)?;
    let made = stmt_for(alloc, find_word_of(which), selection)?;
    Ok(made)
}
