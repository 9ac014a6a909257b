//! Key bytes of rows in an index.

ghost use Rattle.std.specs.Prelude.{◌≡◌, ◌++◌, ◌∷◌, [], length, map, OnOk, IfOk, pos};
ghost use Rattle.abl_values.specs.Order.{compared_text, folded};
ghost use Rattle.abl_values.specs.Keys.{ascending_bytes, component, component_bytes, escaped, escaped_byte, key_bytes, turned_byte, turned_over};
ghost use Rattle.abl_values.specs.Rows.{number_bytes};

use crate::order::{folded_byte, trimmed};
use crate::schema::KeyPart;
use abl_base::{Bytes, Items, Row, Value};
use byteorder::{BigEndian, ByteOrder};
use std::alloc::{AllocError, Global};

/// The key bytes of a row in an index with these components: the bytes of the components one after
/// the other, in an order of bytes that is the order of the keys. A component whose field the row
/// lacks is `?`. Out of memory is the only error. (This project's choice.)
#[tactic(auto, unfolding(crate::specs::Keys::key_bytes))]
pub fn key_bytes(alloc: Global, parts: &[KeyPart], row: &Row) -> Result<Bytes, AllocError>
    ensures { IfOk result (λ bytes. bytes ≡ key_bytes parts.now row.now) }
{
    let values = row.as_slice();
    let mut bytes = Vec::with_capacity(alloc, room_of(parts, values))?;
    for part in parts {
        push_part(&mut bytes, *part, values)?;
    }
    Ok(Items::from_vec(bytes))
}

/// How much room the bytes of these components take at most, where no text has a zero byte.
fn room_of(parts: &[KeyPart], values: &[Value]) -> usize {
    let mut room = 0usize;
    for part in parts {
        let more = match values.get(usize::from(part.field)) {
            Some(Value::Text(text)) => text.len().saturating_add(3),
            _ => 17,
        };
        room = room.saturating_add(more);
    }
    room
}

/// Writes the bytes of a component of the row.
fn push_part(bytes: &mut Vec<u8>, part: KeyPart, values: &[Value]) -> Result<(), AllocError>
    ensures { OnOk result (bytes.new.items
        ≡ bytes.old.items ++ component_bytes part.descending (component part values.now)) }
{
    match values.get(usize::from(part.field)) {
        Some(value) => push_component(bytes, part.descending, value),
        None => push_component(bytes, part.descending, &Value::Unknown),
    }
}

/// Writes the bytes of a component with this value.
fn push_component(bytes: &mut Vec<u8>, descending: bool, value: &Value) -> Result<(), AllocError>
    ensures { OnOk result (bytes.new.items ≡ bytes.old.items ++ component_bytes descending value.now) }
{
    match value {
        Value::Unknown => push_bytes(bytes, descending, &[2]),
        Value::Text(text) => push_text(bytes, descending, text.as_slice()),
        Value::Int(n) => push_known(bytes, descending, &whole_key(i64::from(*n))),
        Value::Int64(n) => push_known(bytes, descending, &whole_key(*n)),
        Value::Dec(n) => push_known(bytes, descending, &decimal_key(*n)),
        Value::Logical(b) => push_known(bytes, descending, &[u8::from(*b)]),
        Value::Date(day) => push_known(bytes, descending, &day_key(*day)),
    }
}

/// Writes 1 and these bytes.
fn push_known(bytes: &mut Vec<u8>, descending: bool, value: &[u8]) -> Result<(), AllocError>
    ensures { OnOk result (bytes.new.items
        ≡ bytes.old.items ++ map (turned_byte descending) (1 ∷ value.now)) }
{
    push_bytes(bytes, descending, &[1])?;
    push_bytes(bytes, descending, value)
}

/// Writes 1, the bytes of a text, and two zero bytes.
fn push_text(bytes: &mut Vec<u8>, descending: bool, text: &[u8]) -> Result<(), AllocError>
    ensures { OnOk result (bytes.new.items
        ≡ bytes.old.items ++ map (turned_byte descending) (1 ∷ escaped (compared_text text.now) ++ 0 ∷ 0 ∷ [])) }
{
    push_bytes(bytes, descending, &[1])?;
    push_escaped(bytes, descending, trimmed(text, b' '))?;
    push_bytes(bytes, descending, &[0, 0])
}

/// Writes the bytes of a text, folded and with each zero byte as 0 and 255.
fn push_escaped(bytes: &mut Vec<u8>, descending: bool, text: &[u8]) -> Result<(), AllocError>
    ensures { OnOk result (bytes.new.items
        ≡ bytes.old.items ++ map (turned_byte descending) (escaped (folded text.now))) }
{
    for byte in text {
        push_letter(bytes, descending, folded_byte(*byte))?;
    }
    Ok(())
}

/// Writes a byte of a text, a zero byte as 0 and 255.
fn push_letter(bytes: &mut Vec<u8>, descending: bool, byte: u8) -> Result<(), AllocError>
    ensures { OnOk result (bytes.new.items
        ≡ bytes.old.items ++ map (turned_byte descending) (escaped_byte byte)) }
{
    if byte == 0 {
        push_bytes(bytes, descending, &[0, 255])
    } else {
        push_bytes(bytes, descending, &[byte])
    }
}

/// Writes these bytes, each turned over in a descending component.
fn push_bytes(bytes: &mut Vec<u8>, descending: bool, value: &[u8]) -> Result<(), AllocError>
    ensures { OnOk result (bytes.new.items ≡ bytes.old.items ++ map (turned_byte descending) value.now) }
{
    for byte in value {
        bytes.push(turned_byte(descending, *byte))?;
    }
    Ok(())
}

/// A byte of a component, turned over where it is descending.
fn turned_byte(descending: bool, byte: u8) -> u8
    ensures { result ≡ turned_byte descending byte }
{
    if descending { 255 - byte } else { byte }
}

/// The key bytes of a whole number.
#[tactic(auto, unfolding(crate::specs::Rows::number_bytes))]
fn whole_key(n: i64) -> [u8; 8]
    ensures { result ≡ number_bytes 8 (turned_over 64 n) }
{
    let mut bytes = [0u8; 8];
    BigEndian::write_u64(&mut bytes, (i128::from(n) + (1i128 << 63)) as u64);
    bytes
}

/// The key bytes of a day.
#[tactic(auto, unfolding(crate::specs::Rows::number_bytes))]
fn day_key(day: i32) -> [u8; 4]
    ensures { result ≡ number_bytes 4 (turned_over 32 day) }
{
    let mut bytes = [0u8; 4];
    BigEndian::write_u32(&mut bytes, (i64::from(day) + (1i64 << 31)) as u32);
    bytes
}

/// The key bytes of a decimal as it is stored.
#[tactic(auto, unfolding(crate::specs::Rows::number_bytes))]
fn decimal_key(n: i128) -> [u8; 16]
    ensures { result ≡ number_bytes 16 (turned_over 128 n) }
{
    let mut bytes = [0u8; 16];
    BigEndian::write_u128(&mut bytes, turned_decimal(n));
    bytes
}

/// A decimal with its highest bit turned over.
fn turned_decimal(n: i128) -> u128
    ensures { result ≡ turned_over 128 n }
{
    if n < 0 {
        (n - i128::MIN) as u128
    } else {
        n as u128 + (1u128 << 127)
    }
}
