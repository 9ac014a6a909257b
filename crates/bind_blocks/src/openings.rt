//! The first words of a header: DO, REPEAT or FOR, with the buffers or the record phrase.

ghost use Rattle.std.specs.Prelude.{◌≡◌, IfOk, map};
ghost use Rattle.bound_tree.specs.Bound.{fetch_of};
ghost use Rattle.syntax_tree.specs.Syntax.{ForRecords, Plainly};
ghost use Rattle.syntax_tree.specs.Typed.{opening_of, record_option_of};
ghost use Rattle.bind_names.specs.Views.{IsJudged, scene_of};
ghost use Rattle.bind_blocks.specs.Headers.{block_kind_of, is_for, is_repeat, opening};

use crate::records::looked_for;
use bind_names::meaning::wanted_buffer;
use bind_names::{BindFault, NamingKind, Notes, Scene};
use bound_tree::{BlockKind, Fetch, FetchWord};
use std::alloc::Global;
use syntax_tree::{BlockWord, Opening, RecordOption, Word};

/// The buffers after DO FOR and REPEAT FOR, which a header has no record phrase for.
fn strong(
    alloc: Global,
    scene: &Scene<'_>,
    word: BlockWord,
    buffers: &[Word],
    notes: &mut Notes,
) -> Result<Option<Fetch>, BindFault>
    ensures { IfOk result (λ r. IsJudged (opening (scene_of scene.now) (Plainly word buffers.now)) (fetch_of r) notes.old notes.new) }
{
    for buffer in buffers {
        let _found = wanted_buffer(alloc, scene, NamingKind::Strong, true, buffer, notes)?;
    }
    Ok(None)
}

/// The record phrase of a FOR.
fn weak(
    alloc: Global,
    scene: &Scene<'_>,
    which: FetchWord,
    buffer: &Word,
    options: &[RecordOption],
    notes: &mut Notes,
) -> Result<Option<Fetch>, BindFault>
    ensures { IfOk result (λ r. IsJudged (opening (scene_of scene.now) (ForRecords which buffer.now (map record_option_of options.now))) (fetch_of r) notes.old notes.new) }
{
    let selection = looked_for(alloc, scene, NamingKind::Weak, buffer, options, notes)?;
    Ok(Some(Fetch {
        word: which,
        reading: selection.reading,
    }))
}

/// The first words of a header.
pub fn opening(
    alloc: Global,
    scene: &Scene<'_>,
    given: &Opening,
    notes: &mut Notes,
) -> Result<Option<Fetch>, BindFault>
    ensures { IfOk result (λ r. IsJudged (opening (scene_of scene.now) (opening_of given.now)) (fetch_of r) notes.old notes.new) }
{
    match given {
        Opening::Plainly { word, buffers } => strong(alloc, scene, *word, buffers, notes),
        Opening::ForRecords {
            which,
            buffer,
            options,
        } => weak(alloc, scene, *which, buffer, options, notes),
    }
}

pub fn is_for(opening: &Opening) -> bool
    ensures { result ≡ is_for (opening_of opening.now) }
{
    matches!(opening, Opening::ForRecords { .. })
}

pub fn is_repeat(opening: &Opening) -> bool
    ensures { result ≡ is_repeat (opening_of opening.now) }
{
    match opening {
        Opening::Plainly { word, .. } => matches!(word, BlockWord::Repeat),
        Opening::ForRecords { .. } => false,
    }
}

/// FOR, REPEAT or DO.
pub fn kind_of(opening: &Opening) -> BlockKind
    ensures { result ≡ block_kind_of (opening_of opening.now) }
{
    if is_for(opening) {
        BlockKind::For
    } else if is_repeat(opening) {
        BlockKind::Repeat
    } else {
        BlockKind::Do
    }
}
