//! Headers of blocks (OpenEdge ABL Reference, DO, REPEAT and FOR statements; Block properties).

ghost use Rattle.std.specs.List.{list_any};
ghost use Rattle.std.specs.Prelude.{◌≡◌, IfOk, map};
ghost use Rattle.bound_tree.specs.Bound.{fetch_of, header_of, to_of};
ghost use Rattle.syntax_tree.specs.Typed.{head_of, opening_of, phrase_of};
ghost use Rattle.bind_names.specs.Views.{IsJudged, scene_of};
ghost use Rattle.bind_blocks.specs.Headers.{block_kind_of, head, header, is_transaction};
ghost use Rattle.bind_blocks.specs.Views.{phrases_of};

use crate::counters::counts;
use crate::openings::{kind_of, opening};
use crate::phrases::{Phrases, all_phrases, has_transaction};
use bind_names::{BindFault, Notes, Scene};
use bound_tree::{Fetch, Flags, Header, ToPhrase};
use std::alloc::Global;
use syntax_tree::Head;

/// The header with these parts.
fn header_with(
    alloc: Global,
    scene: &Scene<'_>,
    given: &Head,
    fetch: Option<Fetch>,
    to: Option<ToPhrase>,
    phrases: Phrases,
) -> Header
    ensures { header_of result ≡ header (scene_of scene.now) given.now.at (list_any is_transaction (map phrase_of given.now.phrases.items)) (block_kind_of (opening_of given.now.opening)) (fetch_of fetch) (to_of to) (phrases_of phrases) }
{
    let Phrases {
        while_test,
        on_error,
        on_endkey,
    } = phrases;
    Header {
        number: scene.block,
        kind: kind_of(&given.opening),
        place: given.at,
        transaction: has_transaction(&given.phrases),
        flags: Flags {
            starts: false,
            undo: false,
            retry_seen: false,
        },
        scoped: Vec::new(alloc),
        to,
        while_test,
        fetch,
        on_error,
        on_endkey,
    }
}

/// The header of the block that the scene is in: its buffers or record phrase, TO, and its phrases.
/// Its flags and the buffers scoped to it are left to later passes.
pub fn head(
    alloc: Global,
    scene: &Scene<'_>,
    given: &Head,
    notes: &mut Notes,
) -> Result<Box<Header>, BindFault>
    ensures { IfOk result (λ r. IsJudged (head (scene_of scene.now) (head_of given.now)) (header_of r.value) notes.old notes.new) }
{
    let fetch = opening(alloc, scene, &given.opening, notes)?;
    let to = counts(alloc, scene, &given.counting, notes)?;
    let phrases = all_phrases(alloc, scene, &given.phrases, notes)?;
    let header = header_with(alloc, scene, given, fetch, to, phrases);
    let made = Box::new(alloc, header)?;
    Ok(made)
}
