//! What names mean at a place.

ghost use Rattle.std.specs.Option.{is_some, option_map};
ghost use Rattle.std.specs.Prelude.{◌≡◌, ◌<◌, ℕ, length, map, slice_get, slice_index_or, IfOk, IfSome, MatchOption, None, Some};
ghost use Rattle.abl_values.specs.Schema.{field_named, fields_of, no_field, number_of_name};
ghost use Rattle.bind_names.specs.declared.names.NamingKind.TheVariants.{Free};
ghost use Rattle.bind_names.specs.Judged.{Judged, broken, fine, naming};
ghost use Rattle.bind_names.specs.Names.{buffer, buffer_named, buffer_number, buffer_or_field, defined_buffer, field_among, field_as, field_of, from_outside, has_field, meaning, names_it, plain, qualified, stream_named, the_field, variable_named, with_field};
ghost use Rattle.syntax_tree.specs.declared.name.Named.TheVariants.{Plain, Qualified};
ghost use Rattle.bind_names.specs.Views.{IsHaving, IsJudged, buffer_of, maybe_buffer_of, maybe_meaning_of, meaning_of, scene_of, variable_meaning};

use crate::among::{Having, with_field};
use crate::fault::BindFault;
use crate::known::{stream_number, variable_in};
use crate::names::{Defined, Known, NamedBuffer, Naming, NamingKind};
use crate::notes::Notes;
use crate::scene::Scene;
use abl_base::{Items, Kind, Place, Rule};
use abl_values::{FieldDef, HasName, Schema, same_name};
use bound_tree::Variable;
use std::alloc::Global;
use syntax_tree::{Named, Word};

/// A buffer: its name as its definition or the schema spells it, and its table.
#[derive(Clone, Copy)]
pub struct Buffer<'a> {
    pub name: &'a [u8],
    pub table: u16,
}

/// What a name means.
#[derive(Clone, Copy)]
pub enum Meaning<'a> {
    Variable {
        variable: Variable,
        mask: &'a [u8],
    },
    Field {
        buffer: u32,
        field: u16,
        kind: Kind,
        mask: &'a [u8],
    },
    Buffer(Buffer<'a>),
    /// It breaks a rule.
    Nothing,
}

/// The number of the first of the items that has the name, in any case.
pub fn number_named<T: HasName>(items: &[T], name: &[u8]) -> Option<usize>
    ensures number { result ≡ number_of_name 0 (map T.name_of items.now) name.now }
    ensures within { IfSome result (λ number. number < length items.now) }
{
    for (i, item) in items.iter().enumerate() {
        if same_name(item.name(), name) {
            return Some(i);
        }
    }
    None
}

fn defined_buffer<'a>(defined: &'a Defined, name: &[u8]) -> Option<&'a NamedBuffer>
    ensures { MatchOption result (defined_buffer defined.now name.now ≡ None) (λ v. defined_buffer defined.now name.now ≡ Some v.now) }
{
    let number = defined.buffers.find(name)?;
    Some(&defined.buffers.as_slice()[number])
}

/// The variable of this name: of the procedure, else of the external one.
fn variable_named<'a>(known: &'a Known, name: &[u8]) -> Option<Meaning<'a>>
    ensures { maybe_meaning_of result ≡ option_map variable_meaning (variable_named known.now name.now) }
{
    if let Some(v) = variable_in(&known.own, name) {
        return Some(Meaning::Variable {
            variable: v.variable,
            mask: v.mask.as_slice(),
        });
    }
    let outer = known.outer.as_ref()?;
    let v = variable_in(outer, name)?;
    let mut variable = v.variable;
    variable.external = true;
    Some(Meaning::Variable {
        variable,
        mask: v.mask.as_slice(),
    })
}

/// The number of the table's field of this name, in any case; none where there is no such table.
#[tactic(auto, unfolding(abl_values::specs::Schema::field_named))]
pub fn field_named(schema: &Schema, table: u16, name: &[u8]) -> Option<u16>
    ensures { result ≡ field_named schema.now table name.now }
{
    if table >= schema.tables() {
        return None;
    }
    schema.field(table, name)
}

/// The buffer of this name: one that the procedure has defined, else that of a table.
#[tactic(auto, unfolding(abl_values::specs::Schema::table_named), using(crate::proofs::Numbers::number_is_within))]
pub fn buffer_named<'a>(scene: &'a Scene<'_>, name: &[u8]) -> Option<Buffer<'a>>
    ensures { maybe_buffer_of result ≡ buffer_named (scene_of scene.now) name.now }
{
    if let Some(b) = defined_buffer(&scene.known.own, name) {
        return Some(Buffer {
            name: b.name.as_slice(),
            table: b.table,
        });
    }
    let table = scene.schema.table(name)?;
    Some(Buffer {
        name: scene.schema.table_name(table),
        table,
    })
}

/// The number of a buffer of the procedure.
pub fn buffer_number(scene: &Scene<'_>, name: &[u8]) -> Result<u32, BindFault>
    ensures { IfOk result (λ n. n ≡ buffer_number (scene_of scene.now) name.now) }
{
    match scene.buffers.find(name) {
        None => Ok(0),
        Some(number) => match u32::try_from(number) {
            Ok(number) => Ok(number),
            Err(_) => Err(BindFault),
        },
    }
}

/// A naming of the buffer at this place.
pub fn names_it(
    alloc: Global,
    scene: &Scene<'_>,
    buffer: Buffer<'_>,
    kind: NamingKind,
    explicit: bool,
    place: Place,
) -> Result<Naming, BindFault>
    ensures { IfOk result (λ n. n ≡ names_it (scene_of scene.now) (buffer_of buffer.entry) kind explicit place) }
{
    Ok(Naming {
        procedure: scene.procedure,
        name: Items::of(alloc, buffer.name)?,
        table: buffer.table,
        kind,
        explicit,
        block: scene.block,
        place,
    })
}

/// The buffer with this name that is required here, with its naming: Y1 where there is none.
pub fn wanted_buffer<'a>(
    alloc: Global,
    scene: &'a Scene<'_>,
    kind: NamingKind,
    explicit: bool,
    word: &Word,
    notes: &mut Notes,
) -> Result<Option<Buffer<'a>>, BindFault>
    ensures { IfOk result (λ found. IsJudged (buffer (scene_of scene.now) kind explicit word.now) (maybe_buffer_of found) notes.old notes.new) }
{
    let Some(found) = buffer_named(scene, word.spelling.as_slice()) else {
        notes.broken(Rule::Y1, word.at);
        return Ok(None);
    };
    notes.named(names_it(alloc, scene, found, kind, explicit, word.at)?)?;
    Ok(Some(found))
}

/// The kind and the mask of the field with this number of a table; none where there is none.
fn field_at(schema: &Schema, table: u16, field: u16) -> (Option<Kind>, &[u8])
    ensures kind { result.0 ≡ (slice_index_or (fields_of schema.now table) field no_field).kind }
    ensures mask { result.1.now ≡ (slice_index_or (fields_of schema.now table) field no_field).mask }
{
    if table >= schema.tables() {
        return (None, &[]);
    }
    match schema.fields(table).get(usize::from(field)) {
        None => (None, &[]),
        Some(def) => (def.kind, def.mask.as_slice()),
    }
}

/// A field by its definition: Y9 where its kind is not supported.
fn field_as<'a>(
    buffer: u32,
    field: u16,
    mask: &'a [u8],
    kind: Option<Kind>,
    place: Place,
    notes: &mut Notes,
) -> Meaning<'a>
    ensures { IsJudged (field_as buffer field mask.now kind place) (meaning_of result) notes.old notes.new }
{
    match kind {
        Some(kind) => Meaning::Field {
            buffer,
            field,
            kind,
            mask,
        },
        None => {
            notes.broken(Rule::Y9, place);
            Meaning::Nothing
        }
    }
}

/// The field with this number of the buffer.
fn the_field<'a>(
    alloc: Global,
    scene: &'a Scene<'_>,
    buffer: Buffer<'_>,
    field: u16,
    explicit: bool,
    place: Place,
    notes: &mut Notes,
) -> Result<Meaning<'a>, BindFault>
    ensures { IfOk result (λ m. IsJudged (the_field (scene_of scene.now) (buffer_of buffer.entry) field explicit place) (meaning_of m) notes.old notes.new) }
{
    let number = buffer_number(scene, buffer.name)?;
    let (kind, mask) = field_at(scene.schema, buffer.table, field);
    notes.named(names_it(alloc, scene, buffer, NamingKind::Free, explicit, place)?)?;
    Ok(field_as(number, field, mask, kind, place, notes))
}

/// The field with this name of the buffer: Y1 where it has none.
fn field_of<'a>(
    alloc: Global,
    scene: &'a Scene<'_>,
    buffer: Buffer<'_>,
    name: &[u8],
    explicit: bool,
    place: Place,
    notes: &mut Notes,
) -> Result<Meaning<'a>, BindFault>
    ensures { IfOk result (λ m. IsJudged (field_of (scene_of scene.now) (buffer_of buffer.entry) name.now explicit place) (meaning_of m) notes.old notes.new) }
{
    match field_named(scene.schema, buffer.table, name) {
        None => {
            notes.broken(Rule::Y1, place);
            Ok(Meaning::Nothing)
        }
        Some(field) => the_field(alloc, scene, buffer, field, explicit, place, notes),
    }
}

/// A field of the one buffer that has it: Y2 where two have it, Y8 for a stream, and else Y1.
fn field_among<'a>(
    alloc: Global,
    scene: &'a Scene<'_>,
    word: &Word,
    notes: &mut Notes,
) -> Result<Meaning<'a>, BindFault>
    ensures { IfOk result (λ m. IsJudged (field_among (scene_of scene.now) word.now (with_field (scene_of scene.now) word.now.spelling)) (meaning_of m) notes.old notes.new) }
{
    let name = word.spelling.as_slice();
    match with_field(scene, name) {
        Having::None => {
            if stream_number(&scene.known, name).is_some() {
                notes.broken(Rule::Y8, word.at);
                return Ok(Meaning::Nothing);
            }
            notes.broken(Rule::Y1, word.at);
            Ok(Meaning::Nothing)
        }
        Having::One(buffer) => field_of(alloc, scene, buffer, name, false, word.at, notes),
        Having::Several => {
            notes.broken(Rule::Y2, word.at);
            Ok(Meaning::Nothing)
        }
    }
}

/// The meaning of a name alone: a variable, else a buffer, else a field.
pub fn plain_meaning<'a>(
    alloc: Global,
    scene: &'a Scene<'_>,
    word: &Word,
    notes: &mut Notes,
) -> Result<Meaning<'a>, BindFault>
    ensures { IfOk result (λ m. IsJudged (meaning (scene_of scene.now) (Plain word.now)) (meaning_of m) notes.old notes.new) }
{
    let name = word.spelling.as_slice();
    if let Some(variable) = variable_named(&scene.known, name) {
        return Ok(variable);
    }
    if let Some(buffer) = buffer_named(scene, name) {
        return Ok(Meaning::Buffer(buffer));
    }
    field_among(alloc, scene, word, notes)
}

/// A field of the buffer before the point.
fn qualified<'a>(
    alloc: Global,
    scene: &'a Scene<'_>,
    buffer: &[u8],
    field: &[u8],
    place: Place,
    notes: &mut Notes,
) -> Result<Meaning<'a>, BindFault>
    ensures { IfOk result (λ m. IsJudged (meaning (scene_of scene.now) (Qualified buffer.now field.now place)) (meaning_of m) notes.old notes.new) }
{
    match buffer_named(scene, buffer) {
        None => {
            notes.broken(Rule::Y1, place);
            Ok(Meaning::Nothing)
        }
        Some(buffer) => field_of(alloc, scene, buffer, field, true, place, notes),
    }
}

/// What a name means.
pub fn named_meaning<'a>(
    alloc: Global,
    scene: &'a Scene<'_>,
    name: &Named,
    notes: &mut Notes,
) -> Result<Meaning<'a>, BindFault>
    ensures { IfOk result (λ m. IsJudged (meaning (scene_of scene.now) name.now) (meaning_of m) notes.old notes.new) }
{
    match name {
        Named::Plain(word) => plain_meaning(alloc, scene, word, notes),
        Named::Qualified { buffer, field, at } => {
            qualified(
                alloc,
                scene,
                buffer.as_slice(),
                field.as_slice(),
                *at,
                notes,
            )
        }
    }
}
