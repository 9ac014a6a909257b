//! CREATE, DELETE and RELEASE.

ghost use Rattle.std.specs.Prelude.{◌≡◌, Bool, IfOk, true, ℕ};
ghost use Rattle.bound_tree.specs.Bound.{stmt_of};
ghost use Rattle.bound_tree.specs.Tree.{Stmt as BoundStmt};
ghost use Rattle.bind_names.specs.declared.names.NamingKind.TheVariants.{Free};
ghost use Rattle.bind_names.specs.Judged.{made};
ghost use Rattle.bind_names.specs.Names.{buffer, number_of};
ghost use Rattle.bind_names.specs.Views.{IsJudged, scene_of};
ghost use Rattle.bind_expressions.specs.Parts.{does};
ghost use Rattle.bind_statements.specs.Assignments.{record_statement};
ghost use Rattle.bind_statements.specs.Views.{touch_stmt};

use bind_names::meaning::{buffer_number, wanted_buffer};
use bind_names::{BindFault, NamingKind, Notes, Scene};
use bound_tree::Stmt;
use std::alloc::Global;
use syntax_tree::Word;

/// CREATE, DELETE or RELEASE.
#[derive(Clone, Copy, PartialEq, Eq)]
pub enum Touch {
    Create,
    Delete,
    Release,
}

/// The number of the buffer, and 0 where there is none.
fn named_buffer(
    alloc: Global,
    scene: &Scene<'_>,
    word: &Word,
    notes: &mut Notes,
) -> Result<u32, BindFault>
    ensures { IfOk result (λ n. IsJudged (made (number_of (scene_of scene.now)) (buffer (scene_of scene.now) Free true word.now)) n notes.old notes.new) }
{
    match wanted_buffer(alloc, scene, NamingKind::Free, true, word, notes)? {
        None => Ok(0),
        Some(found) => buffer_number(scene, found.name),
    }
}

/// The statement with this buffer.
fn touching(touch: Touch, buffer: u32, quiet: bool) -> Stmt
    ensures { stmt_of result ≡ touch_stmt touch buffer quiet }
{
    match touch {
        Touch::Create => Stmt::Create {
            buffer,
            no_error: quiet,
        },
        Touch::Delete => Stmt::Delete {
            buffer,
            no_error: quiet,
        },
        Touch::Release => Stmt::Release {
            buffer,
            no_error: quiet,
        },
    }
}

/// CREATE, DELETE or RELEASE of a buffer.
pub fn touch_buffer(
    alloc: Global,
    scene: &Scene<'_>,
    touch: Touch,
    word: &Word,
    quiet: bool,
    notes: &mut Notes,
) -> Result<Stmt, BindFault>
    ensures { IfOk result (λ r. IsJudged (record_statement (scene_of scene.now) (touch_stmt touch) word.now quiet) (does (scene_of scene.now) (stmt_of r)) notes.old notes.new) }
{
    let number = named_buffer(alloc, scene, word, notes)?;
    Ok(touching(touch, number, quiet))
}
