//! IMPORT and EXPORT.

ghost use Rattle.std.specs.Option.{option_map};
ghost use Rattle.std.specs.Prelude.{◌≡◌, ◌≤◌, IfOk, length, MatchOption, None, Some, map};
ghost use Rattle.abl_base.specs.declared.limits.TheConstants.{MAX_FIELDS};
ghost use Rattle.syntax_tree.specs.Typed.{expression_of};
ghost use Rattle.abl_values.specs.Schema.{fields_of};
ghost use Rattle.bound_tree.specs.Bound.{expr_of, stmt_of};
ghost use Rattle.bound_tree.specs.Tree.{Export};
ghost use Rattle.bound_tree.specs.declared.statement.Target.TheVariants.{Field};
ghost use Rattle.bind_names.specs.Names.{from};
ghost use Rattle.bind_names.specs.Views.{IsJudged, buffer_of, maybe_buffer_of, scene_of};
ghost use Rattle.bind_expressions.specs.Parts.{does, listed};
ghost use Rattle.bind_statements.specs.Streams.{export, exported, field_targets, import, import_alone, import_target, import_targets, lone_buffer, named_alone};
ghost use Rattle.bind_statements.specs.Views.{IsExported, target_alone};

use crate::shown::{expressions, name_in};
use crate::streams::stream;
use crate::targets::target;
use abl_base::Place;
use abl_values::{FieldDef, Schema};
use bind_names::known::variable_of;
use bind_names::meaning::{Buffer, buffer_named, buffer_number, names_it};
use bind_names::{BindFault, NamingKind, Notes, Scene};
use bound_tree::{Expr, Stmt, Target};
use std::alloc::Global;
use syntax_tree::{Expression, Named, Word};

/// The buffer that a name alone names, unless it is a variable.
fn lone_buffer<'a>(scene: &'a Scene<'_>, name: &Named) -> Option<Buffer<'a>>
    ensures { maybe_buffer_of result ≡ lone_buffer (scene_of scene.now) name.now }
{
    match name {
        Named::Plain(word) => {
            if variable_of(&scene.known, word.spelling.as_slice()).is_some() {
                None
            } else {
                buffer_named(scene, word.spelling.as_slice())
            }
        }
        Named::Qualified { .. } => None,
    }
}

/// The field of the buffer as a target, and none where its kind is not supported.
fn field_target(buffer: u32, field: u16, def: &FieldDef) -> Option<Target>
    ensures { result ≡ option_map (Field buffer field) def.now.kind }
{
    match def.kind {
        Some(kind) => Some(Target::Field {
            buffer,
            field,
            kind,
        }),
        None => None,
    }
}

/// These fields of a buffer as targets.
fn targets_of(
    alloc: Global,
    buffer: u32,
    fields: &[FieldDef],
) -> Result<Vec<Option<Target>>, BindFault>
    requires { length fields.now ≤ MAX_FIELDS }
    ensures { IfOk result (λ r. r.items ≡ field_targets buffer 0 fields.now) }
{
    let mut bound = Vec::new(alloc);
    for (i, field) in fields.iter().enumerate() {
        let number = i as u16;
        let target = field_target(buffer, number, field);
        bound.push(target)?;
    }
    Ok(bound)
}

/// The fields of a buffer of the table as targets; none where there is no such table.
fn buffer_targets(
    alloc: Global,
    schema: &Schema,
    buffer: u32,
    table: u16,
) -> Result<Vec<Option<Target>>, BindFault>
    ensures { IfOk result (λ r. r.items ≡ field_targets buffer 0 (fields_of schema.now table)) }
{
    if table >= schema.tables() {
        return Ok(Vec::new(alloc));
    }
    schema.soundness();
    targets_of(alloc, buffer, schema.fields(table))
}

/// IMPORT of the fields of a buffer.
fn import_buffer(
    alloc: Global,
    scene: &Scene<'_>,
    name: &Named,
    buffer: Buffer<'_>,
    notes: &mut Notes,
) -> Result<Vec<Option<Target>>, BindFault>
    ensures { IfOk result (λ r. IsJudged (import_alone (scene_of scene.now) name.now (Some (buffer_of buffer.entry))) r.items notes.old notes.new) }
{
    let number = buffer_number(scene, buffer.name)?;
    let targets = buffer_targets(alloc, scene.schema, number, buffer.table)?;
    notes.named(names_it(alloc, scene, buffer, NamingKind::Free, true, name.at())?)?;
    Ok(targets)
}

/// IMPORT of one target.
fn import_one(
    alloc: Global,
    scene: &Scene<'_>,
    name: &Named,
    notes: &mut Notes,
) -> Result<Vec<Option<Target>>, BindFault>
    ensures { IfOk result (λ r. IsJudged (import_alone (scene_of scene.now) name.now None) r.items notes.old notes.new) }
{
    let target = target(alloc, scene, name, notes)?;
    let mut bound = Vec::new(alloc);
    bound.push(target)?;
    Ok(bound)
}

/// IMPORT of a name alone: of a buffer or of a target.
fn import_alone(
    alloc: Global,
    scene: &Scene<'_>,
    name: &Named,
    notes: &mut Notes,
) -> Result<Vec<Option<Target>>, BindFault>
    ensures { IfOk result (λ r. IsJudged (import_alone (scene_of scene.now) name.now (lone_buffer (scene_of scene.now) name.now)) r.items notes.old notes.new) }
{
    match lone_buffer(scene, name) {
        Some(buffer) => import_buffer(alloc, scene, name, buffer, notes),
        None => import_one(alloc, scene, name, notes),
    }
}

/// A target of IMPORT, and none for `^`.
fn import_target(
    alloc: Global,
    scene: &Scene<'_>,
    name: &Option<Named>,
    notes: &mut Notes,
) -> Result<Option<Target>, BindFault>
    ensures { IfOk result (λ r. IsJudged (import_target (scene_of scene.now) name.now) r notes.old notes.new) }
{
    match name {
        None => Ok(None),
        Some(name) => target(alloc, scene, name, notes),
    }
}

/// IMPORT of several targets.
fn import_listed(
    alloc: Global,
    scene: &Scene<'_>,
    names: &[Option<Named>],
    notes: &mut Notes,
) -> Result<Vec<Option<Target>>, BindFault>
    ensures { IfOk result (λ r. IsJudged (listed (import_target (scene_of scene.now)) names.now) r.items notes.old notes.new) }
{
    let mut bound = Vec::new(alloc);
    for one in names {
        let target = import_target(alloc, scene, one, notes)?;
        bound.push(target)?;
    }
    Ok(bound)
}

/// The one target that is there alone and is no `^`.
#[tactic(auto, using(crate::proofs::Alone::target_one, crate::proofs::Alone::target_not_alone))]
fn target_alone(names: &[Option<Named>]) -> Option<&Named>
    ensures { MatchOption result (target_alone names.now ≡ None) (λ n. target_alone names.now ≡ Some n.now) }
{
    if names.len() != 1 {
        return None;
    }
    match &names[0] {
        None => None,
        Some(name) => Some(name),
    }
}

/// The targets of IMPORT.
#[tactic(auto, using(crate::proofs::Alone::import_of_one, crate::proofs::Alone::import_of_several))]
fn import_targets(
    alloc: Global,
    scene: &Scene<'_>,
    names: &[Option<Named>],
    notes: &mut Notes,
) -> Result<Vec<Option<Target>>, BindFault>
    ensures { IfOk result (λ r. IsJudged (import_targets (scene_of scene.now) names.now) r.items notes.old notes.new) }
{
    match target_alone(names) {
        Some(name) => import_alone(alloc, scene, name, notes),
        None => import_listed(alloc, scene, names, notes),
    }
}

/// IMPORT.
#[tactic(auto, using(bind_names::proofs::Joined::first_of_append))]
pub fn import(
    alloc: Global,
    scene: &Scene<'_>,
    name: &Option<Word>,
    names: &[Option<Named>],
    quiet: bool,
    notes: &mut Notes,
) -> Result<Stmt, BindFault>
    ensures { IfOk result (λ r. IsJudged (import (scene_of scene.now) name.now names.now quiet) (does (scene_of scene.now) (stmt_of r)) notes.old notes.new) }
{
    let number = stream(scene, name, notes);
    let targets = import_targets(alloc, scene, names, notes)?;
    Ok(Stmt::Import {
        stream: number,
        targets,
        no_error: quiet,
    })
}

/// The name that an EXPORT has alone.
#[tactic(auto, using(crate::proofs::Alone::named_is, crate::proofs::Alone::named_not_alone))]
fn named_alone(es: &[Expression]) -> Option<&Named>
    ensures { MatchOption result (named_alone (map expression_of es.now) ≡ None) (λ n. named_alone (map expression_of es.now) ≡ Some n.now) }
{
    if es.len() != 1 {
        return None;
    }
    name_in(&es[0])
}

/// The buffer that an EXPORT names alone, and where.
#[tactic(auto, using(crate::proofs::Alone::exported_alone))]
fn export_alone<'a>(scene: &'a Scene<'_>, es: &[Expression]) -> Option<(Buffer<'a>, Place)>
    ensures { MatchOption result (from (named_alone (map expression_of es.now)) (lone_buffer (scene_of scene.now)) ≡ None) (λ x. IsExported (scene_of scene.now) (map expression_of es.now) (buffer_of x.0) x.1) }
{
    let name = named_alone(es)?;
    match lone_buffer(scene, name) {
        None => None,
        Some(buffer) => Some((buffer, name.at())),
    }
}

/// The statement EXPORT with these values.
fn exports(stream: u32, values: Vec<Expr>) -> Stmt
    ensures { stmt_of result ≡ Export stream (map expr_of values.items) }
{
    Stmt::Export { stream, values }
}

/// EXPORT of the fields of a buffer, or of values.
#[tactic(auto, using(crate::proofs::Alone::export_of_values, crate::proofs::Alone::export_of_record))]
fn exported(
    alloc: Global,
    scene: &Scene<'_>,
    number: u32,
    es: &[Expression],
    notes: &mut Notes,
) -> Result<Stmt, BindFault>
    ensures { IfOk result (λ r. IsJudged (exported (scene_of scene.now) number (map expression_of es.now)) (stmt_of r) notes.old notes.new) }
{
    match export_alone(scene, es) {
        None => {
            let values = expressions(alloc, scene, es, notes)?;
            Ok(exports(number, values))
        }
        Some((buffer, at)) => {
            notes.named(names_it(alloc, scene, buffer, NamingKind::Free, true, at)?)?;
            let buffer = buffer_number(scene, buffer.name)?;
            Ok(Stmt::ExportRecord {
                stream: number,
                buffer,
            })
        }
    }
}

/// EXPORT.
#[tactic(auto, using(bind_names::proofs::Joined::first_of_append))]
pub fn export(
    alloc: Global,
    scene: &Scene<'_>,
    name: &Option<Word>,
    es: &[Expression],
    notes: &mut Notes,
) -> Result<Stmt, BindFault>
    ensures { IfOk result (λ r. IsJudged (export (scene_of scene.now) name.now (map expression_of es.now)) (does (scene_of scene.now) (stmt_of r)) notes.old notes.new) }
{
    let number = stream(scene, name, notes);
    let made = exported(alloc, scene, number, es, notes)?;
    Ok(made)
}
