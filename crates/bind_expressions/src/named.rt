//! Names as values, and the tests of a buffer.

ghost use Rattle.std.specs.Prelude.{◌≡◌, IfOk, false};
ghost use Rattle.syntax_tree.specs.Syntax.{named_at};
ghost use Rattle.bind_names.specs.declared.names.NamingKind.TheVariants.{Free};
ghost use Rattle.bind_names.specs.Names.{buffer, meaning};
ghost use Rattle.bind_names.specs.Views.{IsJudged, meaning_of, scene_of};
ghost use Rattle.bind_expressions.specs.Expressions.{of_meaning, test_of, value_of};
ghost use Rattle.bind_expressions.specs.Views.{test_expr, typed_of};

use crate::typed::Typed;
use abl_base::{Kind, Place, Rule};
use bind_names::meaning::{Meaning, buffer_number, named_meaning, names_it, wanted_buffer};
use bind_names::{BindFault, NamingKind, Notes, Scene, Sort};
use bound_tree::Expr;
use std::alloc::Global;
use syntax_tree::{Named, Word};

/// The value that a name means: Y8 for a buffer.
fn value_of(
    alloc: Global,
    scene: &Scene<'_>,
    place: Place,
    meaning: Meaning<'_>,
    notes: &mut Notes,
) -> Result<Typed, BindFault>
    ensures { IfOk result (λ r. IsJudged (value_of (scene_of scene.now) place (meaning_of meaning.entry)) (typed_of r) notes.old notes.new) }
{
    match meaning {
        Meaning::Variable { variable, .. } => Ok(Typed {
            expr: Expr::Variable(variable),
            sort: Sort::Of(variable.kind),
        }),
        Meaning::Field {
            buffer,
            field,
            kind,
            ..
        } => Ok(Typed {
            expr: Expr::Field {
                buffer,
                field,
                kind,
            },
            sort: Sort::Of(kind),
        }),
        Meaning::Buffer(buffer) => {
            notes.named(names_it(alloc, scene, buffer, NamingKind::Free, false, place)?)?;
            notes.broken(Rule::Y8, place);
            Ok(Typed::no_value())
        }
        Meaning::Nothing => Ok(Typed::no_value()),
    }
}

/// A name as a value.
#[tactic(auto, using(bind_names::proofs::Joined::first_of_append))]
pub fn named_value(
    alloc: Global,
    scene: &Scene<'_>,
    name: &Named,
    notes: &mut Notes,
) -> Result<Typed, BindFault>
    ensures { IfOk result (λ r. IsJudged (of_meaning (meaning (scene_of scene.now) name.now) (value_of (scene_of scene.now) (named_at name.now))) (typed_of r) notes.old notes.new) }
{
    let meaning = named_meaning(alloc, scene, name, notes)?;
    value_of(alloc, scene, name.at(), meaning, notes)
}

/// AVAILABLE or LOCKED.
#[derive(Clone, Copy, PartialEq, Eq)]
pub enum BufferTest {
    Available,
    Locked,
}

/// AVAILABLE or LOCKED of a buffer.
pub fn buffer_test(
    alloc: Global,
    scene: &Scene<'_>,
    test: BufferTest,
    word: &Word,
    notes: &mut Notes,
) -> Result<Typed, BindFault>
    ensures { IfOk result (λ r. IsJudged (test_of (scene_of scene.now) (test_expr test) (buffer (scene_of scene.now) Free false word.now)) (typed_of r) notes.old notes.new) }
{
    let Some(found) = wanted_buffer(alloc, scene, NamingKind::Free, false, word, notes)? else {
        return Ok(Typed::no_value());
    };
    let number = buffer_number(scene, found.name)?;
    let expr = match test {
        BufferTest::Available => Expr::Available(number),
        BufferTest::Locked => Expr::Locked(number),
    };
    Ok(Typed {
        expr,
        sort: Sort::Of(Kind::Logical),
    })
}
