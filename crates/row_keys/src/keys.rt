//! The keys of one row.

ghost use Rattle.std.specs.Prelude.{◌≡◌, ◌↔◌, ◌<◌, ℕ, length, IfOk, IsTrue, MatchOption};
ghost use Rattle.abl_values.specs.Keys.{component, has_unknown, is_unknown, unique_key};
ghost use Rattle.database_meaning.specs.Setting.{HasIndex, HasTable, key_in};
ghost use Rattle.abl_base.specs.declared.limits.TheConstants.{MAX_KEY_BYTES};
ghost use Rattle.row_store.specs.Questions.{IsLongKey};

use crate::codec::{KeyFault, key};
use crate::numbers::{def_at, numbered};
use abl_base::{Bytes, Row, Value};
use abl_values::{IndexDef, KeyPart, Schema, key_bytes};
use std::alloc::AllocError;

/// The least index of the table in which the key of these values is too long. An error means out of
/// memory.
pub fn long_key(schema: &Schema, table: u16, values: &Row) -> Result<Option<u16>, AllocError>
    requires table { HasTable schema.now table }
    ensures { IfOk result (λ found. MatchOption found ((index : ℕ) → ¬ IsLongKey schema.now table values.now index)
        (λ index. IsLongKey schema.now table values.now index)) }
{
    for index in 0..schema.indexes(table).len() {
        if is_long(schema, table, index, values)? {
            return Ok(Some(numbered(index)?));
        }
    }
    Ok(None)
}

/// Whether the key of these values in an index of the table is too long.
fn is_long(schema: &Schema, table: u16, index: usize, values: &Row) -> Result<bool, AllocError>
    requires table { HasTable schema.now table }
    requires index { HasIndex schema.now table index }
    ensures { IfOk result (λ long. IsTrue long ↔ (MAX_KEY_BYTES < length (key_in schema.now table index values.now))) }
{
    match key(def_at(schema, table, index), values) {
        Ok(_) => Ok(false),
        Err(KeyFault::TooLong) => Ok(true),
        Err(KeyFault::NoMemory) => Err(AllocError),
    }
}

/// The unique key of the row in an index, where it has one. An error means out of memory.
#[tactic(auto, unfolding(abl_values::specs::Keys::unique_key))]
pub(crate) fn unique_key_of(def: &IndexDef, row: &Row) -> Result<Option<Bytes>, AllocError>
    ensures { IfOk result (λ key. key ≡ unique_key def.now.unique def.now.parts row.now) }
{
    if !def.unique || has_unknown(def.parts.as_slice(), row.as_slice()) {
        return Ok(None);
    }
    let bytes = key_bytes(row.allocator(), def.parts.as_slice(), row)?;
    Ok(Some(bytes))
}

/// Whether some component of the row is `?`.
pub(crate) fn has_unknown(parts: &[KeyPart], values: &[Value]) -> bool
    ensures { result ≡ has_unknown parts.now values.now }
{
    match parts.split_first() {
        None => false,
        Some((part, rest)) => is_unknown_at(*part, values) || has_unknown(rest, values),
    }
}

/// Whether the component of the row is `?`.
fn is_unknown_at(part: KeyPart, values: &[Value]) -> bool
    ensures { result ≡ is_unknown (component part values.now) }
{
    match values.get(usize::from(part.field)) {
        Some(value) => is_unknown(value),
        None => true,
    }
}

/// Whether the value is `?`.
fn is_unknown(value: &Value) -> bool
    ensures { result ≡ is_unknown value.now }
{
    match value {
        Value::Unknown => true,
        Value::Text(_)
        | Value::Int(_)
        | Value::Int64(_)
        | Value::Dec(_)
        | Value::Logical(_)
        | Value::Date(_) => false,
    }
}
