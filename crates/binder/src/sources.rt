//! Whole sources: the items of a source, and the walks over it.

ghost use Rattle.std.specs.List.{list_any};
ghost use Rattle.std.specs.Prelude.{◌≡◌, ◌+◌, ◌++◌, ◌∷◌, [], IfOk, None, OnOk, length, map};
ghost use Rattle.bound_tree.specs.Bound.{body_of, procedure_of, source_of};
ghost use Rattle.abl_values.specs.Schema.{same_name};
ghost use Rattle.syntax_tree.specs.Typed.{item_of, program_of};
ghost use Rattle.bind_names.specs.Views.{IsJudged, scene_of};
ghost use Rattle.bind_expressions.specs.Parts.{IsAfter};
ghost use Rattle.binder.specs.Groups.{IsGrouped, own_namings};
ghost use Rattle.binder.specs.Items.{IsOneMore, bound_parts};
ghost use Rattle.binder.specs.Sources.{beginning, items, judged, nothing_defined, signatures, source_with};
ghost use Rattle.binder.specs.Views.{judged_from, opening};

use crate::groups::Groups;
use crate::procedures::{Position, frame_of, internal, nothing_defined, opening, procedure_with};
use crate::statements::{join, statement};
use crate::taken::TakenNames;
use abl_base::{Items, Place, Rule};
use abl_values::Schema;
use bind_names::{BindFault, Known, Listed, Naming, Notes, Scene, Signature};
use bound_tree::{Bound, Procedure, Stmt};
use std::alloc::Global;
use std::mem;
use syntax_tree::{Item, Program, Word};

/// Where the external procedure begins.
const START_OF_SOURCE: Place = Place { line: 1, column: 1 };

/// What was bound of the items of a source so far: the statements of the external procedure, and
/// the internal procedures with their names.
#[derive(Drop)]
pub struct Parts {
    pub body: Vec<Stmt>,
    pub procedures: Vec<Procedure>,
    pub names: TakenNames,
}

/// What is known at the beginning of a source, where the external procedure's block has number 0.
fn known_first(alloc: Global) -> Known
    ensures { result ≡ record { own = nothing_defined; outer = None; variables = 0; streams = 0; blocks = 1; inputs = []; outputs = [] } }
{
    Known {
        own: nothing_defined(alloc),
        outer: None,
        variables: 0,
        streams: 0,
        blocks: 1,
        inputs: Items::empty(alloc),
        outputs: Items::empty(alloc),
    }
}

/// The place at the beginning of a source, where this is its position.
fn beginning<'a>(
    alloc: Global,
    schema: &'a Schema,
    said: &'a [Naming],
    procedures: &'a Listed<Signature>,
    position: Position,
) -> Scene<'a>
    ensures { position ≡ opening 0 0 said.now → scene_of result ≡ beginning (record { schema = schema.now; namings = said.now; procedures = procedures.now }) }
{
    let Position {
        procedure,
        buffers,
        named,
        around,
        block,
    } = position;
    Scene {
        schema,
        namings: said,
        procedures,
        known: known_first(alloc),
        procedure,
        buffers,
        named,
        around,
        block,
    }
}

/// The number of the next internal procedure.
fn next_number(parts: &Parts) -> Result<u32, BindFault>
    ensures { IfOk result (λ n. n ≡ length parts.now.procedures.items + 1) }
{
    let Ok(number) = u32::try_from(parts.procedures.len()) else {
        return Err(BindFault);
    };
    match number.checked_add(1) {
        None => Err(BindFault),
        Some(next) => Ok(next),
    }
}

/// Adds an internal procedure.
fn add_procedure(
    alloc: Global,
    parts: &mut Parts,
    made: Procedure,
    name: &Word,
) -> Result<(), BindFault>
    ensures body { OnOk result (parts.new.body ≡ parts.old.body) }
    ensures procedures { OnOk result (parts.new.procedures.items ≡ parts.old.procedures.items ++ made ∷ []) }
    ensures names { OnOk result (parts.new.names ≡ parts.old.names ++ name.now.spelling ∷ []) }
{
    parts.procedures.push(made)?;
    let names = mem::replace(&mut parts.names, TakenNames::empty(alloc));
    parts.names = names.with(&name.spelling)?;
    Ok(())
}

/// One more item, where these are the namings of the source: Y3 at the name of an internal
/// procedure that an earlier one has.
fn item(
    alloc: Global,
    scene: &mut Scene<'_>,
    groups: &Groups,
    parts: &mut Parts,
    item: &Item,
    notes: &mut Notes,
) -> Result<(), BindFault>
    ensures judged { IsGrouped scene.old.namings.now groups.now → OnOk result (IsOneMore (scene_of scene.old) (item_of item.now) parts.old parts.new scene.new.known notes.old notes.new) }
    ensures scene { OnOk result (IsAfter scene.old scene.new) }
{
    match item {
        Item::Alone(one) => {
            let more = statement(alloc, scene, one, notes)?;
            join(&mut parts.body, more)?;
            Ok(())
        }
        Item::Procedure { at, name, body } => {
            let taken = parts.names.has(name.spelling.as_slice());
            notes.unless(!taken, Rule::Y3, name.at);
            let number = next_number(parts)?;
            let own = groups.in_procedure(number);
            let made = internal(alloc, scene, own, number, *at, name, body, notes)?;
            add_procedure(alloc, parts, made, name)?;
            Ok(())
        }
    }
}

/// The items of a source, one after the other, where these are its namings.
fn all_items(
    alloc: Global,
    scene: &mut Scene<'_>,
    groups: &Groups,
    all: &[Item],
    notes: &mut Notes,
) -> Result<Parts, BindFault>
    ensures judged { IsGrouped scene.old.namings.now groups.now → IfOk result (λ r. IsJudged (items (scene_of scene.old) [] (map item_of all.now)) (bound_parts r scene.new.known) notes.old notes.new) }
    ensures scene { OnOk result (IsAfter scene.old scene.new) }
{
    let mut parts = Parts {
        body: Vec::new(alloc),
        procedures: Vec::new(alloc),
        names: TakenNames::empty(alloc),
    };
    for one in all {
        item(alloc, scene, groups, &mut parts, one, notes)?;
    }
    Ok(parts)
}

/// The source as it is judged where these are the namings of buffers in it.
pub fn judged(
    alloc: Global,
    schema: &Schema,
    program: &Program,
    said: &[Naming],
    procedures: &Listed<Signature>,
    notes: &mut Notes,
) -> Result<Bound, BindFault>
    ensures { procedures.now ≡ signatures (program_of program.now) → IfOk result (λ r. IsJudged (judged schema.now (program_of program.now) said.now) (source_of r) notes.old notes.new) }
{
    let groups = Groups::of(alloc, said)?;
    let position = opening(alloc, 0, 0, groups.in_procedure(0))?;
    let mut scene = beginning(alloc, schema, said, procedures, position);
    judged_from(alloc, &mut scene, &groups, &program.items, notes)
}

/// The source with these items, from its beginning on, where these are its namings.
fn judged_from(
    alloc: Global,
    scene: &mut Scene<'_>,
    groups: &Groups,
    all: &[Item],
    notes: &mut Notes,
) -> Result<Bound, BindFault>
    ensures { IsGrouped scene.old.namings.now groups.now → IfOk result (λ r. IsJudged (judged_from (scene_of scene.old) (map item_of all.now)) (source_of r) notes.old notes.new) }
{
    let own = groups.in_procedure(scene.procedure);
    let parts = all_items(alloc, scene, groups, all, notes)?;
    let made = source(alloc, scene, own, parts)?;
    Ok(made)
}

/// The external procedure with the internal ones after it.
fn all_procedures(
    alloc: Global,
    main: Procedure,
    internal: Vec<Procedure>,
) -> Result<Vec<Procedure>, BindFault>
    ensures { IfOk result (λ r. r.items ≡ main ∷ internal.items) }
{
    let mut all = Vec::new(alloc);
    all.push(main)?;
    let mut internal = internal;
    all.append(&mut internal)?;
    Ok(all)
}

/// The source with its external procedure first, whose own namings these are. What the procedure has
/// defined, and the files, are taken from the scene.
fn source(
    alloc: Global,
    scene: &mut Scene<'_>,
    own: &[Naming],
    parts: Parts,
) -> Result<Bound, BindFault>
    ensures { own.now ≡ own_namings scene.old.procedure scene.old.namings.now → IfOk result (λ r. source_of r ≡ source_with (scene_of scene.old) (record { body = body_of parts.body.items; procedures = map procedure_of parts.procedures.items; after = scene.old.known })) }
{
    let frame = frame_of(alloc, scene, own)?;
    let defined = mem::replace(&mut scene.known.own, nothing_defined(alloc));
    let outputs = mem::replace(&mut scene.known.outputs, Items::empty(alloc));
    let inputs = mem::replace(&mut scene.known.inputs, Items::empty(alloc));
    let streams = scene.known.streams;
    let Parts {
        body,
        procedures,
        ..
    } = parts;
    let main = procedure_with(
        alloc,
        frame,
        START_OF_SOURCE,
        Items::empty(alloc),
        defined,
        body,
    )?;
    let procedures = all_procedures(alloc, main, procedures)?;
    Ok(Bound {
        procedures,
        streams,
        outputs: outputs.into_vec(),
        inputs: inputs.into_vec(),
    })
}
