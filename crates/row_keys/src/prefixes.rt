//! The leading values that a search asks for, as the first bytes of a key.

ghost use Rattle.std.specs.Prelude.{◌≡◌, ◌↔◌, ◌++◌, slice_get, IfOk, IsTrue, MatchOption, OnOk};
ghost use Rattle.std.specs.Option.{option_copied};
ghost use Rattle.abl_values.specs.Schema.{field_kinds};
ghost use Rattle.database_meaning.specs.Setting.{HasTable, parts_of};
ghost use Rattle.database_meaning.specs.Search.{kind_at};
ghost use Rattle.row_keys.specs.Numbers.{HasOrder};
ghost use Rattle.row_keys.specs.Prefixes.{FitsParts, FitsPrefix, leading_bytes, prefix_bytes};

use crate::codec::part;
use crate::numbers::def_at;
use abl_base::{Bytes, Items, Kind, Row, Value};
use abl_values::{FieldDef, KeyPart, Schema};
use row_store::answers::rows::is_of_field;
use std::alloc::AllocError;

/// The first bytes of the keys of the rows with these leading values; none where no row of the table
/// can have them. An error means out of memory.
pub(crate) fn prefix_bytes(
    schema: &Schema,
    table: u16,
    index: Option<u16>,
    prefix: &Row,
) -> Result<Option<Bytes>, AllocError>
    requires table { HasTable schema.now table }
    requires order { HasOrder schema.now table index }
    ensures { IfOk result (λ found. MatchOption found (¬ FitsPrefix schema.now table index prefix.now)
        (λ bytes. FitsPrefix schema.now table index prefix.now × (bytes ≡ prefix_bytes schema.now table index prefix.now))) }
{
    match index {
        None => {
            if prefix.as_slice().is_empty() {
                Ok(Some(Items::empty(prefix.allocator())))
            } else {
                Ok(None)
            }
        }
        Some(index) => leading(
            schema.fields(table),
            def_at(schema, table, usize::from(index)).parts.as_slice(),
            prefix,
        ),
    }
}

/// The bytes of the values as leading components; none where they do not fit them.
fn leading(
    fields: &[FieldDef],
    parts: &[KeyPart],
    prefix: &Row,
) -> Result<Option<Bytes>, AllocError>
    ensures { IfOk result (λ found. MatchOption found (¬ FitsParts (field_kinds fields.now) parts.now prefix.now)
        (λ bytes. FitsParts (field_kinds fields.now) parts.now prefix.now × (bytes ≡ leading_bytes parts.now prefix.now))) }
{
    if !fit_parts(fields, parts, prefix.as_slice()) {
        return Ok(None);
    }
    let mut bytes = Items::empty(prefix.allocator());
    push_leading(&mut bytes, parts, prefix.as_slice())?;
    Ok(Some(bytes))
}

/// Whether each value is one that the field of its component holds, and there are no more of them.
fn fit_parts(fields: &[FieldDef], parts: &[KeyPart], values: &[Value]) -> bool
    ensures { IsTrue result ↔ FitsParts (field_kinds fields.now) parts.now values.now }
{
    match values.split_first() {
        None => true,
        Some((value, later)) => match parts.split_first() {
            None => false,
            Some((part, rest)) => {
                is_of_field(kind_at(fields, part.field), value) && fit_parts(fields, rest, later)
            }
        },
    }
}

/// Adds the bytes of the values as leading components.
fn push_leading(bytes: &mut Bytes, parts: &[KeyPart], values: &[Value]) -> Result<(), AllocError>
    ensures { OnOk result (bytes.new ≡ bytes.old ++ leading_bytes parts.now values.now) }
{
    match values.split_first() {
        None => Ok(()),
        Some((value, later)) => match parts.split_first() {
            None => Ok(()),
            Some((first, rest)) => {
                let one = part(bytes.allocator(), value, first.descending)?;
                bytes.extend_from_slice(one.as_slice())?;
                push_leading(bytes, rest, later)?;
                Ok(())
            }
        },
    }
}

/// The kind of a field, none where there is no such field.
fn kind_at(fields: &[FieldDef], field: u16) -> Option<Kind>
    ensures { result ≡ kind_at (field_kinds fields.now) field }
{
    match field_at(fields, field) {
        None => None,
        Some(field) => field.kind,
    }
}

/// The field with this number.
fn field_at(fields: &[FieldDef], field: u16) -> Option<&FieldDef>
    ensures { option_copied result ≡ slice_get fields.now field }
{
    fields.get(usize::from(field))
}
