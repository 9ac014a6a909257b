//! How many bytes an item adds to the canonical text.

ghost use Rattle.std.specs.Prelude.{◌≡◌, min, not, length, sum, IfOk};
ghost use Rattle.std.specs.List.{list_any};
ghost use Rattle.abl_values.specs.Schema.{field_line, kind_text, sequence_line};
ghost use Rattle.schema_lines.specs.Attributes.{field_def, increment_of, kind_of, start_of};
ghost use Rattle.schema_reader.specs.Census.{index_bytes, item_bytes, line_bytes, line_is_supported};

use crate::census::{Census, TableCensus};
use abl_base::{Bytes, Kind, Value};
use abl_values::export_value;
use schema_lines::attributes::{field_def, increment_of, is_word, kind_of, start_of};
use schema_lines::item::{Attribute, Attributed, Head, Item};
use std::alloc::{AllocError, Global};

/// How many bytes the item's line in the canonical text has; 0 for an index that is not usable. A
/// number above all that a `usize` holds counts as the largest.
pub fn canonical_bytes(alloc: Global, census: &Census, item: &Item) -> Result<usize, AllocError>
    ensures { IfOk result (λ bytes. bytes ≡ min (item_bytes census.now item.now.attributes item.now.head) usize.MAX) }
{
    let attributes = item.attributes.as_slice();
    match &item.head {
        Head::Malformed => Ok(0),
        // `T name`
        Head::Table { name } => Ok(total(&[name.len(), 3])),
        Head::Field {
            name,
            table: _,
            kind,
        } => field_bytes(alloc, name, *kind, attributes),
        Head::Index { name, table } => match census.table(table.as_slice()) {
            None => Ok(0),
            Some(counted) => Ok(index_bytes(counted, name, attributes)),
        },
        Head::Sequence { name } => sequence_bytes(alloc, name, attributes),
    }
}

/// The sum of these numbers, or the largest `usize` where it is more.
fn total(parts: &[usize]) -> usize
    ensures { result ≡ min (sum parts.now) usize.MAX }
{
    let mut bytes: usize = 0;
    for part in parts {
        bytes = bytes.saturating_add(*part);
    }
    bytes
}

/// How many bytes the name of a kind has.
fn kind_bytes(kind: Option<Kind>) -> usize
    ensures { result ≡ length (kind_text kind) }
{
    match kind {
        None => 1,
        Some(Kind::Date) => 4,
        Some(Kind::Int64) => 5,
        Some(Kind::Integer | Kind::Decimal | Kind::Logical) => 7,
        Some(Kind::Character) => 9,
    }
}

/// `F name kind M initial`
fn field_bytes(
    alloc: Global,
    name: &Bytes,
    kind: Option<Kind>,
    attributes: &[Attributed],
) -> Result<usize, AllocError>
    ensures { IfOk result (λ bytes. bytes ≡ min (length (field_line (field_def name.now (kind_of kind attributes.now) attributes.now))) usize.MAX) }
{
    let kept = kind_of(kind, attributes);
    let field = field_def(alloc, name, kept, attributes)?;
    let initial = export_value(alloc, &field.initial)?;
    Ok(total(&[name.len(), kind_bytes(kept), initial.len(), 7]))
}

/// `I name U P` and ` field A` for each component
fn index_bytes(table: &TableCensus, name: &Bytes, attributes: &[Attributed]) -> usize
    ensures { result ≡ min (index_bytes table.now.fields name.now attributes.now) usize.MAX }
{
    if is_word(attributes) || names_unsupported(table, attributes) {
        return 0;
    }
    let mut bytes = total(&[name.len(), 7]);
    for line in attributes {
        bytes = bytes.saturating_add(line_bytes(table, &line.attribute));
    }
    bytes
}

/// Says whether an INDEX-FIELD line names a field of an unsupported kind.
fn names_unsupported(table: &TableCensus, attributes: &[Attributed]) -> bool
    ensures { result ≡ list_any (λ a. not (line_is_supported table.now.fields a.attribute)) attributes.now }
{
    attributes
        .iter()
        .any(|line| !line_is_supported(table, &line.attribute))
}

fn line_is_supported(table: &TableCensus, attribute: &Attribute) -> bool
    ensures { result ≡ line_is_supported table.now.fields attribute.now }
{
    match attribute {
        Attribute::IndexField(Some(component)) => {
            match table.fields.find(component.field.as_slice()) {
                None => true,
                Some(number) => table.fields.as_slice()[number].supported,
            }
        }
        _ => true,
    }
}

/// How many bytes an INDEX-FIELD line adds to that of its index.
fn line_bytes(table: &TableCensus, attribute: &Attribute) -> usize
    ensures { result ≡ min (line_bytes table.now.fields attribute.now) usize.MAX }
{
    match attribute {
        Attribute::IndexField(Some(component)) => {
            if table.fields.find(component.field.as_slice()).is_some() {
                total(&[component.field.len(), 3])
            } else {
                0
            }
        }
        _ => 0,
    }
}

/// `S name initial increment`
#[tactic(auto, unfolding(abl_values::specs::Texts::export_text, abl_values::specs::Texts::plain_text))]
fn sequence_bytes(
    alloc: Global,
    name: &Bytes,
    attributes: &[Attributed],
) -> Result<usize, AllocError>
    ensures { IfOk result (λ bytes. bytes ≡ min (length (sequence_line (record { name = name.now; initial = start_of attributes.now; increment = increment_of attributes.now }))) usize.MAX) }
{
    let start = export_value(alloc, &Value::Int64(start_of(attributes)))?;
    let increment = export_value(alloc, &Value::Int64(increment_of(attributes)))?;
    Ok(total(&[name.len(), start.len(), increment.len(), 5]))
}
