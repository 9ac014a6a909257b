//! Which of the buffers that a procedure names have a field.

ghost use Rattle.std.specs.List.{All, filter};
ghost use Rattle.std.specs.Prelude.{◌++◌, ◌∷◌, List};
ghost use Rattle.bind_names.specs.Among.{IsFinding, is_known};
ghost use Rattle.bind_names.specs.ByTable.{IsOfItsTable, all_of};
ghost use Rattle.bind_names.specs.declared.by_table.TableGroup.{TableGroup as TheGroup};
ghost use Rattle.bind_names.specs.declared.names.NamedBuffer.{NamedBuffer as TheBuffer};
ghost use Rattle.bind_names.specs.Names.{has_field, with_field};
ghost use Rattle.bind_names.specs.Views.{IsHaving, scene_of};

use crate::by_table::TableGroup;
use crate::meaning::{Buffer, buffer_named, field_named};
use crate::names::NamedBuffer;
use crate::scene::Scene;

/// How many of the buffers that the procedure names have a field.
#[derive(Clone, Copy)]
pub enum Having<'a> {
    None,
    One(Buffer<'a>),
    Several,
}

/// Those of two lists together.
fn joined<'a>(one: Having<'a>, other: Having<'a>) -> Having<'a>
    ensures { (xs ys : List TheBuffer) → IsHaving xs one.entry → IsHaving ys other.entry → IsHaving (xs ++ ys) result }
{
    match one {
        Having::None => other,
        Having::One(buffer) => match other {
            Having::None => Having::One(buffer),
            Having::One(_) => Having::Several,
            Having::Several => Having::Several,
        },
        Having::Several => Having::Several,
    }
}

/// Those of the buffers that are known here.
fn known_among<'a>(scene: &Scene<'_>, buffers: &'a [NamedBuffer]) -> Having<'a>
    ensures { IsHaving (filter (is_known (scene_of scene.now)) buffers.now) result }
{
    let mut first: Option<Buffer<'a>> = None;
    for buffer in buffers {
        if buffer_named(scene, buffer.name.as_slice()).is_some() {
            if first.is_some() {
                return Having::Several;
            }
            first = Some(Buffer {
                name: buffer.name.as_slice(),
                table: buffer.table,
            });
        }
    }
    match first {
        None => Having::None,
        Some(buffer) => Having::One(buffer),
    }
}

/// Those of one table's buffers that are known here, where it has the field.
#[tactic(auto, using(crate::proofs::ByTables::without_the_field))]
fn of_group<'a>(scene: &Scene<'_>, name: &[u8], group: &'a TableGroup) -> Having<'a>
    ensures { IsOfItsTable group.now → IsHaving (filter (has_field (scene_of scene.now) name.now) group.now.buffers) result }
{
    match field_named(scene.schema, group.table, name) {
        None => Having::None,
        Some(_) => known_among(scene, group.buffers.as_slice()),
    }
}

/// What was found, and those of one table's buffers that have the field.
fn found_more<'a>(
    scene: &Scene<'_>,
    name: &[u8],
    found: Having<'a>,
    group: &'a TableGroup,
) -> Having<'a>
    ensures { (wanted : List TheBuffer) (left : List TheGroup) → IsFinding (has_field (scene_of scene.now) name.now) wanted (group.now ∷ left) found.entry → IsFinding (has_field (scene_of scene.now) name.now) wanted left result }
{
    joined(found, of_group(scene, name, group))
}

/// Those of the buffers in groups that have the field.
#[tactic(auto, using(crate::proofs::ByTables::nothing_found, crate::proofs::ByTables::all_found))]
fn among_groups<'a>(scene: &Scene<'_>, name: &[u8], groups: &'a [TableGroup]) -> Having<'a>
    requires { All IsOfItsTable groups.now }
    ensures { IsHaving (filter (has_field (scene_of scene.now) name.now) (all_of groups.now)) result }
{
    let mut found = Having::None;
    for group in groups {
        found = found_more(scene, name, found, group);
    }
    found
}

/// The buffers that have the field, among those that the procedure names. A table is asked for the
/// field once, and only buffers of tables that have it are looked at, until two are known here.
pub fn with_field<'a>(scene: &'a Scene<'_>, name: &[u8]) -> Having<'a>
    ensures { IsHaving (with_field (scene_of scene.now) name.now) result }
{
    among_groups(scene, name, scene.named.groups())
}
