//! A schema as it is stored at creation.

ghost use Rattle.std.specs.Prelude.{◌≡◌, ◌≤◌, All, length, IfOk};
ghost use Rattle.abl_base.specs.declared.limits.TheConstants.{MAX_FIELDS};
ghost use Rattle.abl_values.specs.Held.{IsHeld};
ghost use Rattle.abl_values.specs.Schema.{canonical_text};
ghost use Rattle.abl_values.specs.Sound.{IsSound};
ghost use Rattle.stored_schema.specs.Laid.{laid, laid_from, stored_as};
ghost use Rattle.stored_schema.specs.Stored.{IsOwn};

use crate::stored::{StoredFields, StoredSchema};
use abl_base::Items;
use abl_values::{FieldDef, Schema, TableDef};
use std::alloc::{AllocError, Global};
use stored_fields::StoredField;

/// The schema as it is stored at creation: all its fields are live, in its order, and its stored text
/// is its canonical text. Out of memory is the only error. (This project's choice.)
pub fn laid_out(schema: Schema) -> Result<StoredSchema, AllocError>
    requires sound { IsSound schema }
    requires held { IsHeld schema }
    ensures schema { IfOk result (λ stored. stored.schema ≡ schema) }
    ensures fields { IfOk result (λ stored. stored.fields ≡ laid schema.tables) }
    ensures text { IfOk result (λ stored. stored.text ≡ canonical_text schema) }
    ensures own { IfOk result IsOwn }
{
    let fields = laid(schema.allocator(), schema.table_defs())?;
    let stored = StoredSchema::of(schema, fields)?;
    Ok(stored)
}

/// The stored fields of each table.
fn laid(alloc: Global, tables: &[TableDef]) -> Result<Items<StoredFields>, AllocError>
    requires { All (λ t. length t.fields ≤ MAX_FIELDS) tables.now }
    ensures { IfOk result (λ fields. fields ≡ laid tables.now) }
{
    let mut fields = Items::empty(alloc);
    for table in tables {
        fields.push(laid_fields(alloc, table.fields.as_slice())?)?;
    }
    Ok(fields)
}

/// The stored fields of a table.
fn laid_fields(alloc: Global, fields: &[FieldDef]) -> Result<StoredFields, AllocError>
    requires { length fields.now ≤ MAX_FIELDS }
    ensures { IfOk result (λ stored. stored ≡ laid_from 0 fields.now) }
{
    let mut stored = Items::empty(alloc);
    for number in 0..fields.len() {
        stored.push(stored_as(number as u16, &fields[number])?)?;
    }
    Ok(stored)
}

/// A field as it is stored.
fn stored_as(number: u16, field: &FieldDef) -> Result<StoredField, AllocError>
    ensures { IfOk result (λ stored. stored ≡ stored_as number field.now) }
{
    Ok(StoredField {
        name: field.name.copy()?,
        kind: field.kind,
        initial: field.initial.copy()?,
        live: Some(number),
    })
}
