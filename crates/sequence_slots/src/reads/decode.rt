//! The values that slots in memory hold.

ghost use Rattle.std.specs.Prelude.{◌≡◌, ◌≤◌, ◌<◌, ◌*◌, ◌↔◌, ℕ, [], length, get_or, IfOk, IsTrue};
ghost use Rattle.std.specs.Int.{w64, cast_signed};
ghost use Rattle.std.specs.List.{flat_map};
ghost use Rattle.abl_values.specs.Rows.{number_at_head};
ghost use Rattle.row_fragments.specs.Fragments.{content_in};
ghost use Rattle.sequence_slots.specs.Values.{part, slot_bytes, values_of};

use crate::slot_of;
use byteorder::{BigEndian, ByteOrder};
use row_fragments::fragment::used;
use std::alloc::{AllocError, Global};

/// The number of values in a slot.
const VALUES: usize = 30;

/// The contents of the slots, one after the other.
pub(crate) fn contents(slots: &[[u8; 256]], alloc: Global) -> Result<Vec<u8>, AllocError>
    ensures { IfOk result (λ bytes. bytes.items ≡ flat_map content_in slots.now) }
{
    let mut bytes = Vec::new(alloc);
    for slot in slots {
        let many = used(slot);
        bytes.extend_from_slice(&slot[16..16 + many])?;
    }
    Ok(bytes)
}

/// The value in the first eight of the bytes.
#[tactic(auto, unfolding(abl_values::specs::Rows::number_at_head))]
fn value_in(bytes: &[u8]) -> i64
    requires { 8 ≤ length bytes.now }
    ensures { result ≡ cast_signed w64 (number_at_head 8 bytes.now) }
{
    BigEndian::read_i64(bytes)
}

/// The first values in these bytes, eight for each, this many.
pub(crate) fn values_from(bytes: &[u8], count: usize, alloc: Global) -> Result<Vec<i64>, AllocError>
    requires { 8 * count ≤ length bytes.now }
    ensures { IfOk result (λ values. values.items ≡ values_of count bytes.now) }
{
    let mut values = Vec::new(alloc);
    for number in 0..count {
        values.push(value_in(&bytes[8 * number..]))?;
    }
    Ok(values)
}

/// The values of the slot with this number, counted from the first one.
fn part_of(values: &[i64], number: u32) -> &[i64]
    requires { number < 9 }
    ensures is { result.now ≡ part number values.now }
    ensures short { length result.now ≤ 30 }
{
    let from = values.len().min(VALUES * number as usize);
    let rest = &values[from..];
    &rest[..rest.len().min(VALUES)]
}

/// Whether these are the nine slots of the values.
pub(crate) fn are_of(slots: &[[u8; 256]], values: &[i64]) -> bool
    requires { length slots.now ≡ 9 }
    ensures { IsTrue result ↔ ((i : ℕ) → i < 9 → get_or slots.now i [] ≡ slot_bytes (part i values.now)) }
{
    for number in 0..9u32 {
        let part = part_of(values, number);
        if slots[number as usize] != slot_of(part) {
            return false;
        }
    }
    true
}
