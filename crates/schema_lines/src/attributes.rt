//! What the attribute lines of an item give. Of several lines of one attribute the last counts.

ghost use Rattle.std.specs.Prelude.{◌≡◌, IfOk};
ghost use Rattle.schema_lines.specs.Attributes.{extent_after, extent_of, field_def, format_of, has, increment_after, increment_of, initial_of, is_mandatory, is_primary, is_unique, is_word, kind_of, order_after, order_of, sequence_number, start_after, start_of};

use crate::initials::{initial_given, mask_of};
use crate::item::{Attribute, Attributed, Given};
use crate::numbers::long_number;
use abl_base::{Bytes, Items, Kind, Value};
use abl_values::{FieldDef, default_initial};
use std::alloc::{AllocError, Global};

/// The number of a field without ORDER, above all that an ORDER has.
pub const NO_ORDER: u32 = 2_147_483_648;

pub fn is_mandatory(attributes: &[Attributed]) -> bool
    ensures { result ≡ has is_mandatory attributes.now }
{
    attributes
        .iter()
        .any(|line| matches!(line.attribute, Attribute::Mandatory))
}

pub fn is_unique(attributes: &[Attributed]) -> bool
    ensures { result ≡ has is_unique attributes.now }
{
    attributes
        .iter()
        .any(|line| matches!(line.attribute, Attribute::Unique))
}

pub fn is_primary(attributes: &[Attributed]) -> bool
    ensures { result ≡ has is_primary attributes.now }
{
    attributes
        .iter()
        .any(|line| matches!(line.attribute, Attribute::Primary))
}

pub fn is_word(attributes: &[Attributed]) -> bool
    ensures { result ≡ has is_word attributes.now }
{
    attributes
        .iter()
        .any(|line| matches!(line.attribute, Attribute::Word))
}

/// The text of FORMAT, empty without one.
pub fn format_of(attributes: &[Attributed]) -> &[u8]
    ensures { result.now ≡ format_of attributes.now }
{
    let mut format: &[u8] = &[];
    for line in attributes {
        if let Attribute::Format(text) = &line.attribute {
            format = text.as_slice();
        }
    }
    format
}

/// The number of EXTENT, 0 without one.
fn extent_of(attributes: &[Attributed]) -> u32
    ensures { result ≡ extent_of attributes.now }
{
    attributes
        .iter()
        .fold(0, |extent, line| extent_after(extent, &line.attribute))
}

/// The extent after an attribute.
fn extent_after(extent: u32, attribute: &Attribute) -> u32
    ensures { result ≡ extent_after extent attribute.now }
{
    match attribute {
        Attribute::Extent(Some(n)) => *n,
        _ => extent,
    }
}

/// The number of ORDER.
pub fn order_of(attributes: &[Attributed]) -> u32
    ensures { result ≡ order_of attributes.now }
{
    attributes.iter().fold(NO_ORDER, |order, line| order_after(order, &line.attribute))
}

/// The order after an attribute.
fn order_after(order: u32, attribute: &Attribute) -> u32
    ensures { result ≡ order_after order attribute.now }
{
    match attribute {
        Attribute::Order(Some(n)) => *n,
        _ => order,
    }
}

/// The kind of a field; none where EXTENT is above 0.
pub fn kind_of(kind: Option<Kind>, attributes: &[Attributed]) -> Option<Kind>
    ensures { result ≡ kind_of kind attributes.now }
{
    if extent_of(attributes) > 0 {
        None
    } else {
        kind
    }
}

/// The initial value of a field of this kind and mask.
fn initial_of(
    alloc: Global,
    kind: Option<Kind>,
    mask: &[u8],
    attributes: &[Attributed],
) -> Result<Value, AllocError>
    ensures { IfOk result (λ value. value ≡ initial_of kind mask.now attributes.now) }
{
    let Some(kind) = kind else {
        return Ok(Value::Unknown);
    };
    let mut value = default_initial(alloc, kind);
    for line in attributes {
        if let Attribute::Initial(given) = &line.attribute {
            if let Some(said) = initial_given(kind, mask, given)? {
                value = said;
            }
        }
    }
    Ok(value)
}

/// The field with this name, kind and attributes.
pub fn field_def(
    alloc: Global,
    name: &Bytes,
    kind: Option<Kind>,
    attributes: &[Attributed],
) -> Result<FieldDef, AllocError>
    ensures { IfOk result (λ field. field ≡ field_def name.now kind attributes.now) }
{
    let mask = mask_of(kind, format_of(attributes));
    Ok(FieldDef {
        name: name.copy()?,
        kind,
        initial: initial_of(alloc, kind, mask, attributes)?,
        mandatory: is_mandatory(attributes),
        mask: Items::of(alloc, mask)?,
    })
}

/// The number that a text gives a sequence.
pub fn sequence_number(given: &Option<Given>) -> Option<i64>
    ensures { result ≡ sequence_number given.now }
{
    match given {
        None => long_number(b""),
        Some(given) => long_number(given.text.as_slice()),
    }
}

/// INITIAL of a sequence, 0 without one.
pub fn start_of(attributes: &[Attributed]) -> i64
    ensures { result ≡ start_of attributes.now }
{
    let mut start = 0;
    for line in attributes {
        start = start_after(start, &line.attribute);
    }
    start
}

/// The start of a sequence after an attribute.
fn start_after(start: i64, attribute: &Attribute) -> i64
    ensures { result ≡ start_after start attribute.now }
{
    match attribute {
        Attribute::Initial(given) => sequence_number(given).unwrap_or(start),
        _ => start,
    }
}

/// INCREMENT of a sequence, 1 without one.
pub fn increment_of(attributes: &[Attributed]) -> i64
    ensures { result ≡ increment_of attributes.now }
{
    let mut increment = 1;
    for line in attributes {
        increment = increment_after(increment, &line.attribute);
    }
    increment
}

/// The increment of a sequence after an attribute.
fn increment_after(increment: i64, attribute: &Attribute) -> i64
    ensures { result ≡ increment_after increment attribute.now }
{
    match attribute {
        Attribute::Increment(Some(n)) => *n,
        _ => increment,
    }
}
