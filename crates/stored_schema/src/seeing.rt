//! A stored schema as a given schema sees it.

ghost use Rattle.std.specs.Prelude.{◌≡◌, ◌<◌, ◌≤◌, [], ℕ, All, IfOk, IfSome, IsFalse, MatchOption, length, option_map, slice_index_or};
ghost use Rattle.abl_base.specs.declared.limits.TheConstants.{MAX_FIELDS};
ghost use Rattle.abl_values.specs.Schema.{no_table};
ghost use Rattle.stored_fields.specs.Changes.{relived};
ghost use Rattle.stored_schema.specs.Agreement.{agree};
ghost use Rattle.stored_schema.specs.Seen.{IsSeen, number_in};
ghost use Rattle.stored_schema.specs.Stored.{IsOwn};

use crate::agreement::{agree, name_at};
use crate::stored::{StoredFields, StoredSchema};
use abl_base::Items;
use abl_values::{FieldDef, Named, Schema, TableDef};
use std::alloc::{AllocError, Global};
use stored_fields::StoredField;

/// The schema that a database has, as the given one sees it: its stored fields keep their places, and
/// each live one has the number of its name in the given schema. `None` exactly where the two schemas
/// do not agree. Out of memory is the only error. (This project's choice.)
pub fn seen_by(given: Schema, own: &StoredSchema) -> Result<Option<StoredSchema>, AllocError>
    requires { IsOwn own.now }
    ensures { IfOk result (λ seen. MatchOption seen (IsFalse (agree given own.now.schema)) (λ stored. IsSeen given own.now stored)) }
{
    given.soundness();
    let own_schema = own.schema();
    if !agree(&given, own_schema) {
        return Ok(None);
    }
    let given_tables = given.table_defs();
    let own_tables = own_schema.table_defs();
    let stored = own.fields.as_slice();
    let fields = seen_tables(given.allocator(), given_tables, own_tables, stored)?;
    let text = Items::of(given.allocator(), own.text())?;
    Ok(Some(StoredSchema {
        schema: given,
        fields,
        text,
    }))
}

/// The stored fields of each table, with the numbers of the given schema.
fn seen_tables(
    alloc: Global,
    given: &[TableDef],
    own: &[TableDef],
    fields: &[StoredFields],
) -> Result<Items<StoredFields>, AllocError>
    requires given { length given.now ≡ length fields.now }
    requires own { length own.now ≡ length fields.now }
    requires few { All (λ t. length t.fields ≤ MAX_FIELDS) given.now }
    requires small { All (λ fs. All (λ f. IfSome f.live (λ n. n ≤ MAX_FIELDS)) fs) fields.now }
    ensures as_many { IfOk result (λ seen. length seen ≡ length fields.now) }
    ensures each { IfOk result (λ seen. (t : ℕ) → t < length fields.now → slice_index_or seen t [] ≡ relived (option_map (number_in (slice_index_or given.now t no_table).fields (slice_index_or own.now t no_table).fields)) (slice_index_or fields.now t [])) }
{
    let mut seen = Items::empty(alloc);
    for table in 0..fields.len() {
        let own_fields = own[table].fields.as_slice();
        seen.push(seen_fields(
            alloc,
            &given[table].fields,
            own_fields,
            fields[table].as_slice(),
        )?)?;
    }
    Ok(seen)
}

/// The stored fields of a table, with the numbers of these fields.
fn seen_fields(
    alloc: Global,
    given: &Named<FieldDef>,
    own: &[FieldDef],
    fields: &[StoredField],
) -> Result<StoredFields, AllocError>
    requires few { length given.now ≤ MAX_FIELDS }
    requires small { All (λ f. IfSome f.live (λ n. n ≤ MAX_FIELDS)) fields.now }
    ensures { IfOk result (λ seen. seen ≡ relived (option_map (number_in given.now own.now)) fields.now) }
{
    let mut seen = Items::empty(alloc);
    for field in fields {
        seen.push(field.with_live(seen_number(given, own, field.live))?)?;
    }
    Ok(seen)
}

/// The number of a live field among these fields.
fn seen_number(given: &Named<FieldDef>, own: &[FieldDef], live: Option<u16>) -> Option<u16>
    requires few { length given.now ≤ MAX_FIELDS }
    requires small { IfSome live (λ n. n ≤ MAX_FIELDS) }
    ensures { result ≡ option_map (number_in given.now own.now) live }
{
    let number = live?;
    match given.find(name_at(own, number)) {
        Some(place) => Some(place as u16),
        None => Some(given.len() as u16 + number),
    }
}
