//! Rows read from their bytes.

ghost use Rattle.std.specs.Prelude.{◌≡◌, ◌≤◌, drop, length, nat_le, if◌then◌else◌, IfOk};
ghost use Rattle.std.specs.Int.{w32, w64, w128, cast_signed};
ghost use Rattle.abl_values.specs.Rows.{field_in, number_at_head, row_in, value_in};
ghost use Rattle.abl_values.specs.Schema.{field_kinds};
ghost use Rattle.abl_values.specs.Reads.{IsReadAs};

use crate::dates::is_day;
use crate::schema::FieldDef;
use abl_base::{Items, Kind, MAX_TEXT_BYTES, Row, Value};
use byteorder::{BigEndian, ByteOrder};
use std::alloc::{AllocError, Global};

/// A value, and how many bytes it was read from.
#[derive(Drop)]
pub struct FieldRead {
    pub value: Value,
    pub used: usize,
}

/// The row of these fields that has these bytes: `None` exactly where the bytes are those of no
/// row. Out of memory is the only error. (This project's choice.)
pub fn row_of(alloc: Global, fields: &[FieldDef], bytes: &[u8]) -> Result<Option<Row>, AllocError>
    ensures { IfOk result (λ row. row ≡ row_in (field_kinds fields.now) bytes.now) }
{
    let mut values = Vec::with_capacity(alloc, fields.len())?;
    let mut rest = bytes;
    for field in fields {
        match read_field(alloc, field.kind, rest)? {
            None => return Ok(None),
            Some(read) => {
                rest = bytes_from(rest, read.used);
                values.push(read.value)?;
            }
        }
    }
    if rest.is_empty() {
        Ok(Some(Items::from_vec(values)))
    } else {
        Ok(None)
    }
}

/// The bytes from a place on.
fn bytes_from(bytes: &[u8], place: usize) -> &[u8]
    requires { place ≤ length bytes.now }
    ensures { result.now ≡ drop place bytes.now }
{
    &bytes[place..]
}

/// Reads what a field of the kind holds at the head of the bytes: `None` exactly where they begin
/// with no value of the field. Out of memory is the only error. (This project's choice.)
pub fn read_field(
    alloc: Global,
    kind: Option<Kind>,
    bytes: &[u8],
) -> Result<Option<FieldRead>, AllocError>
    ensures { IfOk result (λ read. IsReadAs read bytes.now (field_in kind bytes.now)) }
{
    let Some((first, rest)) = bytes.split_first() else {
        return Ok(None);
    };
    match (*first, kind) {
        (0, _) => Ok(Some(FieldRead {
            value: Value::Unknown,
            used: 1,
        })),
        (1, Some(kind)) => match read_value(alloc, kind, rest)? {
            Some(read) => Ok(Some(FieldRead {
                value: read.value,
                used: read.used + 1,
            })),
            None => Ok(None),
        },
        _ => Ok(None),
    }
}

/// Reads a value of the kind at the head of the bytes.
fn read_value(alloc: Global, kind: Kind, bytes: &[u8]) -> Result<Option<FieldRead>, AllocError>
    ensures { IfOk result (λ read. IsReadAs read bytes.now (value_in kind bytes.now)) }
{
    match kind {
        Kind::Character => read_text(alloc, bytes),
        Kind::Integer => match small_at_head(bytes) {
            Some(n) => Ok(Some(FieldRead {
                value: Value::Int(n),
                used: 4,
            })),
            None => Ok(None),
        },
        Kind::Int64 => match whole_at_head(bytes) {
            Some(n) => Ok(Some(FieldRead {
                value: Value::Int64(n),
                used: 8,
            })),
            None => Ok(None),
        },
        Kind::Decimal => match decimal_at_head(bytes) {
            Some(n) => Ok(Some(FieldRead {
                value: Value::Dec(n),
                used: 16,
            })),
            None => Ok(None),
        },
        Kind::Logical => Ok(read_logical(bytes)),
        Kind::Date => Ok(read_date(bytes)),
    }
}

/// Reads a text after its length.
fn read_text(alloc: Global, bytes: &[u8]) -> Result<Option<FieldRead>, AllocError>
    ensures { IfOk result (λ read. IsReadAs read bytes.now (value_in Kind.Character bytes.now)) }
{
    if bytes.len() < 2 {
        return Ok(None);
    }
    let length = usize::from(length_at_head(bytes));
    if length > MAX_TEXT_BYTES || bytes.len() - 2 < length {
        return Ok(None);
    }
    let end = length + 2;
    let text = Items::of(alloc, &bytes[2..end])?;
    Ok(Some(FieldRead {
        value: Value::Text(text),
        used: end,
    }))
}

/// Reads no or yes.
fn read_logical(bytes: &[u8]) -> Option<FieldRead>
    ensures { IsReadAs result bytes.now (value_in Kind.Logical bytes.now) }
{
    match bytes {
        [0, ..] => Some(FieldRead {
            value: Value::Logical(false),
            used: 1,
        }),
        [1, ..] => Some(FieldRead {
            value: Value::Logical(true),
            used: 1,
        }),
        _ => None,
    }
}

/// Reads a day of the years 1 to 9999.
fn read_date(bytes: &[u8]) -> Option<FieldRead>
    ensures { IsReadAs result bytes.now (value_in Kind.Date bytes.now) }
{
    match small_at_head(bytes) {
        Some(day) if is_day(i64::from(day)) => Some(FieldRead {
            value: Value::Date(day),
            used: 4,
        }),
        _ => None,
    }
}

/// The length in the first two bytes.
#[tactic(auto, unfolding(crate::specs::Rows::number_at_head))]
fn length_at_head(bytes: &[u8]) -> u16
    requires { 2 ≤ length bytes.now }
    ensures { result ≡ number_at_head 2 bytes.now }
{
    BigEndian::read_u16(bytes)
}

/// The number of 32 bits in the first four bytes; None where there are fewer.
#[tactic(auto, unfolding(crate::specs::Rows::number_at_head))]
fn small_at_head(bytes: &[u8]) -> Option<i32>
    ensures { result ≡ (if nat_le 4 (length bytes.now) then Some (cast_signed w32 (number_at_head 4 bytes.now)) else None) }
{
    if bytes.len() < 4 {
        return None;
    }
    Some(BigEndian::read_i32(bytes))
}

/// The number of 64 bits in the first eight bytes; None where there are fewer.
#[tactic(auto, unfolding(crate::specs::Rows::number_at_head))]
fn whole_at_head(bytes: &[u8]) -> Option<i64>
    ensures { result ≡ (if nat_le 8 (length bytes.now) then Some (cast_signed w64 (number_at_head 8 bytes.now)) else None) }
{
    if bytes.len() < 8 {
        return None;
    }
    Some(BigEndian::read_i64(bytes))
}

/// The number of 128 bits in the first sixteen bytes; None where there are fewer.
#[tactic(auto, unfolding(crate::specs::Rows::number_at_head))]
fn decimal_at_head(bytes: &[u8]) -> Option<i128>
    ensures { result ≡ (if nat_le 16 (length bytes.now) then Some (cast_signed w128 (number_at_head 16 bytes.now)) else None) }
{
    if bytes.len() < 16 {
        return None;
    }
    Some(BigEndian::read_i128(bytes))
}
