//! Entering a block, after which names are looked up inside it, and going out of it.

ghost use Rattle.std.specs.Option.{option_map};
ghost use Rattle.std.specs.Prelude.{◌≡◌, IfOk, OnOk};
ghost use Rattle.syntax_tree.specs.Syntax.{Head as TheHead};
ghost use Rattle.syntax_tree.specs.Typed.{head_of};
ghost use Rattle.bind_names.specs.Names.{Scene as TheScene};
ghost use Rattle.bind_names.specs.Views.{scene_of};
ghost use Rattle.bind_expressions.specs.Parts.{scene_after};
ghost use Rattle.bind_blocks.specs.Headers.{can_be_undone, inside, iterates};

use crate::openings::{is_for, is_repeat};
use crate::phrases::{has_undo, has_while};
use abl_base::{Bytes, Items};
use bind_names::{Around, BindFault, Scene};
use std::alloc::Global;
use std::mem;
use syntax_tree::{Head, Word};

/// REPEAT, FOR, and DO with TO or WHILE.
fn iterates(head: &Head) -> bool
    ensures { result ≡ iterates (head_of head.now) }
{
    is_for(&head.opening)
        || is_repeat(&head.opening)
        || head.counting.is_some()
        || has_while(&head.phrases)
}

/// REPEAT, FOR, and DO with TRANSACTION, ON ERROR or ON ENDKEY.
fn can_be_undone(head: &Head) -> bool
    ensures { result ≡ can_be_undone (head_of head.now) }
{
    is_for(&head.opening) || is_repeat(&head.opening) || has_undo(&head.phrases)
}

/// The label as a name.
fn label_of(label: &Option<Word>) -> Result<Option<Bytes>, BindFault>
    ensures { IfOk result (λ r. r ≡ option_map (λ l. l.spelling) label.now) }
{
    match label {
        None => Ok(None),
        Some(word) => Ok(Some(word.spelling.copy()?)),
    }
}

/// Enters the block of this head, which has the next number.
pub fn enter(alloc: Global, scene: &mut Scene<'_>, head: &Head) -> Result<(), BindFault>
    ensures { OnOk result (scene_of scene.new ≡ inside (head_of head.now) (scene_of scene.old)) }
{
    let number = scene.known.blocks;
    let Some(next) = number.checked_add(1) else {
        return Err(BindFault);
    };
    let block = Around {
        number,
        label: label_of(&head.label)?,
        iterates: iterates(head),
        undoes: can_be_undone(head),
    };
    let mut around = mem::replace(&mut scene.around, Items::empty(alloc)).into_vec();
    around.insert(0, block)?;
    scene.around = Items::from_vec(around);
    scene.known.blocks = next;
    scene.block = number;
    Ok(())
}

/// Goes out of the innermost block, after which the block of this number is the innermost. Only what
/// is known stays as it was inside.
pub fn step_out(alloc: Global, scene: &mut Scene<'_>, block: u32)
    ensures scene { (w : TheScene) (h : TheHead) → scene_of scene.old ≡ scene_after (inside h w) scene.old.known → block ≡ w.block → scene_of scene.new ≡ scene_after w scene.old.known }
    ensures known { scene.new.known ≡ scene.old.known }
{
    let mut around = mem::replace(&mut scene.around, Items::empty(alloc)).into_vec();
    if !around.is_empty() {
        let _ = around.remove(0);
    }
    scene.around = Items::from_vec(around);
    scene.block = block;
}
