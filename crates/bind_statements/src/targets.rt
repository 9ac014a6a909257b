//! Targets: what a statement may assign to.

ghost use Rattle.std.specs.Prelude.{◌≡◌, IfOk};
ghost use Rattle.syntax_tree.specs.Syntax.{named_at};
ghost use Rattle.bind_names.specs.Names.{meaning};
ghost use Rattle.bind_names.specs.Views.{IsJudged, meaning_of, scene_of};
ghost use Rattle.bind_expressions.specs.Expressions.{of_meaning};
ghost use Rattle.bind_statements.specs.Assignments.{target_kind, target_of, the_target};

use abl_base::{Kind, Place, Rule};
use bind_names::meaning::{Meaning, named_meaning, names_it};
use bind_names::{BindFault, NamingKind, Notes, Scene};
use bound_tree::Target;
use std::alloc::Global;
use syntax_tree::Named;

/// The target that a name means: Y8 for a buffer.
fn target_of(
    alloc: Global,
    scene: &Scene<'_>,
    place: Place,
    meaning: Meaning<'_>,
    notes: &mut Notes,
) -> Result<Option<Target>, BindFault>
    ensures { IfOk result (λ r. IsJudged (target_of (scene_of scene.now) place (meaning_of meaning.entry)) r notes.old notes.new) }
{
    match meaning {
        Meaning::Variable { variable, .. } => Ok(Some(Target::Variable(variable))),
        Meaning::Field {
            buffer,
            field,
            kind,
            ..
        } => Ok(Some(Target::Field {
            buffer,
            field,
            kind,
        })),
        Meaning::Buffer(buffer) => {
            notes.named(names_it(alloc, scene, buffer, NamingKind::Free, false, place)?)?;
            notes.broken(Rule::Y8, place);
            Ok(None)
        }
        Meaning::Nothing => Ok(None),
    }
}

/// A target.
#[tactic(auto, using(bind_names::proofs::Joined::first_of_append))]
pub fn target(
    alloc: Global,
    scene: &Scene<'_>,
    name: &Named,
    notes: &mut Notes,
) -> Result<Option<Target>, BindFault>
    ensures { IfOk result (λ r. IsJudged (the_target (scene_of scene.now) name.now) r notes.old notes.new) }
{
    let meaning = named_meaning(alloc, scene, name, notes)?;
    target_of(alloc, scene, name.at(), meaning, notes)
}

/// The kind of a target, where there is one.
pub fn target_kind(target: &Option<Target>) -> Option<Kind>
    ensures { result ≡ target_kind target.now }
{
    match target {
        None => None,
        Some(Target::Variable(x)) => Some(x.kind),
        Some(Target::Field { kind, .. }) => Some(*kind),
    }
}
