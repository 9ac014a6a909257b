//! Rows as bytes.

ghost use Rattle.std.specs.Prelude.{◌≡◌, ◌≤◌, ◌+◌, ◌++◌, ◌∷◌, [], length, drop, take, IfOk, OnOk, List, Option, Some, None};
ghost use Rattle.std.specs.Int.{w32, w64, w128, cast_unsigned, cast_signed};
ghost use Rattle.abl_values.specs.Rows.{bytes_of_row, field_bytes, FitsFields, IsShort, number_bytes};
ghost use Rattle.abl_values.specs.Schema.{field_kinds};

use crate::schema::FieldDef;
use abl_base::{Bytes, Items, MAX_TEXT_BYTES, Row, Value};
use byteorder::{BigEndian, ByteOrder};
use std::alloc::{AllocError, Global};

/// The bytes of a row: its fields in order, each a byte 0 for `?` or 1 and the value. Numbers
/// have the highest byte first, and a text follows its length in two bytes. Out of memory is the
/// only error. (This project's choice.)
#[tactic(auto, unfolding(crate::specs::Rows::bytes_of_row))]
pub fn row_bytes(alloc: Global, fields: &[FieldDef], row: &Row) -> Result<Bytes, AllocError>
    requires { FitsFields (field_kinds fields.now) row.now }
    ensures { IfOk result (λ bytes. bytes ≡ bytes_of_row row.now) }
{
    let mut bytes = Vec::with_capacity(alloc, room_of(row.as_slice()))?;
    for value in row.as_slice() {
        push_field(&mut bytes, value)?;
    }
    Ok(Items::from_vec(bytes))
}

/// How much room the bytes of these values take.
fn room_of(values: &[Value]) -> usize {
    let mut room = 0usize;
    for value in values {
        room = room.saturating_add(field_room(value));
    }
    room
}

/// How much room the bytes of this value take.
fn field_room(value: &Value) -> usize {
    match value {
        Value::Unknown => 1,
        Value::Logical(_) => 2,
        Value::Int(_) | Value::Date(_) => 5,
        Value::Int64(_) => 9,
        Value::Dec(_) => 17,
        Value::Text(text) => text.len().saturating_add(3),
    }
}

/// Writes the bytes of a field to the end of the vector. Out of memory is the only error. (This
/// project's choice.)
pub fn push_field(bytes: &mut Vec<u8>, value: &Value) -> Result<(), AllocError>
    requires { IsShort value.now }
    ensures { OnOk result (bytes.new.items ≡ bytes.old.items ++ field_bytes value.now) }
{
    match value {
        Value::Unknown => Ok(bytes.push(0)?),
        Value::Text(text) => push_text(bytes, text.as_slice()),
        Value::Int(n) => push_known(bytes, &small_bytes(*n)),
        Value::Int64(n) => push_known(bytes, &whole_bytes(*n)),
        Value::Dec(n) => push_known(bytes, &decimal_bytes(*n)),
        Value::Logical(b) => push_known(bytes, &[u8::from(*b)]),
        Value::Date(day) => push_known(bytes, &small_bytes(*day)),
    }
}

/// Writes 1 and the bytes of a value.
fn push_known(bytes: &mut Vec<u8>, value: &[u8]) -> Result<(), AllocError>
    ensures { OnOk result (bytes.new.items ≡ bytes.old.items ++ 1 ∷ value.now) }
{
    bytes.push(1)?;
    bytes.extend_from_slice(value)
}

/// Writes 1, the text's length in two bytes, and the text.
fn push_text(bytes: &mut Vec<u8>, text: &[u8]) -> Result<(), AllocError>
    requires { length text.now ≤ MAX_TEXT_BYTES }
    ensures { OnOk result (bytes.new.items
        ≡ bytes.old.items ++ 1 ∷ number_bytes 2 (length text.now) ++ text.now) }
{
    push_known(bytes, &length_bytes(text.len() as u16))?;
    bytes.extend_from_slice(text)
}

/// The two bytes of a length.
#[tactic(auto, unfolding(crate::specs::Rows::number_bytes))]
fn length_bytes(n: u16) -> [u8; 2]
    ensures { result ≡ number_bytes 2 n }
{
    let mut bytes = [0u8; 2];
    BigEndian::write_u16(&mut bytes, n);
    bytes
}

/// The four bytes of a number.
#[tactic(auto, unfolding(crate::specs::Rows::number_bytes))]
fn small_bytes(n: i32) -> [u8; 4]
    ensures { result ≡ number_bytes 4 (cast_unsigned w32 n) }
{
    let mut bytes = [0u8; 4];
    BigEndian::write_i32(&mut bytes, n);
    bytes
}

/// The eight bytes of a number.
#[tactic(auto, unfolding(crate::specs::Rows::number_bytes))]
fn whole_bytes(n: i64) -> [u8; 8]
    ensures { result ≡ number_bytes 8 (cast_unsigned w64 n) }
{
    let mut bytes = [0u8; 8];
    BigEndian::write_i64(&mut bytes, n);
    bytes
}

/// The sixteen bytes of a number.
#[tactic(auto, unfolding(crate::specs::Rows::number_bytes))]
fn decimal_bytes(n: i128) -> [u8; 16]
    ensures { result ≡ number_bytes 16 (cast_unsigned w128 n) }
{
    let mut bytes = [0u8; 16];
    BigEndian::write_i128(&mut bytes, n);
    bytes
}
