//! The schema that a file without violation means.

ghost use Rattle.std.specs.Prelude.{◌≡◌, ◌≤◌, [], ◌∷◌, ◌++◌, length, map, if◌then◌else◌, IfOk, None, OnOk, Some, option_to_list, is_some, slice_index_or};
ghost use Rattle.std.specs.List.{flat_map};
ghost use Rattle.abl_values.specs.Schema.{no_field, number_of_name};
ghost use Rattle.abl_values.specs.Sound.{IsSound};
ghost use Rattle.abl_base.specs.declared.limits.TheConstants.{MAX_FIELDS, MAX_NAME_BYTES};
ghost use Rattle.schema_lines.specs.Attributes.{increment_of, start_of};
ghost use Rattle.schema_reader.specs.Meaning.{are_supported, by_order, field_said, fields_in_text, fields_of, index_said, indexes_of, order_said, part_said, parts_of, placed, primary_of, schema_of, sequence_said, table_def, table_said};
ghost use Rattle.schema_reader.specs.InOrder.{as_ordered, AreApart, AreShort, field_of, place_of};
ghost use Rattle.schema_reader.specs.Rules.{first_after};

use abl_base::{Bytes, Items};
use abl_values::{
    FieldDef, HasName, IndexDef, KeyPart, KeyParts, NameFault, Named, Schema, SequenceDef,
    TableDef, same_name,
};
use schema_lines::attributes::{
    field_def, increment_of, is_primary, is_unique, is_word, kind_of, order_of, start_of,
};
use schema_lines::item::{Attribute, Attributed, Head, Item};
use std::alloc::{AllocError, Global};

/// A field and the number of its ORDER.
#[derive(Drop)]
pub struct OrderedField {
    pub order: u32,
    pub field: FieldDef,
}

/// The usable indexes of a table, and the number of the primary one.
#[derive(Drop)]
pub struct TableIndexes {
    pub indexes: Named<IndexDef>,
    pub primary: Option<u16>,
}

/// Adds an item whose name is not too long and not there.
fn add<T: HasName>(items: &mut Named<T>, item: T) -> Result<(), AllocError>
    requires short { length (T.name_of item) ≤ MAX_NAME_BYTES }
    requires free { number_of_name 0 (map T.name_of items.old) (T.name_of item) ≡ None }
    ensures { OnOk result (items.new ≡ items.old ++ item ∷ []) }
{
    match items.push(item) {
        Ok(()) => Ok(()),
        Err(NameFault::NoMemory) => Err(AllocError),
        Err(NameFault::TooLong) | Err(NameFault::Taken) => unreachable!(),
    }
}

/// The schema that the items of a file without violation mean.
pub fn schema_of(alloc: Global, items: &[Item]) -> Result<Schema, AllocError>
    requires clean { first_after [] items.now ≡ None }
    requires sound { IsSound (schema_of items.now) }
    ensures { IfOk result (λ schema. schema ≡ schema_of items.now) }
{
    let tables = tables_of(alloc, items)?;
    let sequences = sequences_of(alloc, items)?;
    let order = order_in(alloc, items)?;
    Ok(Schema::of(tables, sequences, order))
}

/// The tables in the order of the file.
fn tables_of(alloc: Global, items: &[Item]) -> Result<Named<TableDef>, AllocError>
    requires { first_after [] items.now ≡ None }
    ensures { IfOk result (λ tables. tables ≡ flat_map (λ i. table_said items.now i.head) items.now) }
{
    let mut tables = Named::empty(alloc);
    for item in items {
        if let Head::Table { name } = &item.head {
            add(&mut tables, table_def(alloc, items, name)?)?;
        }
    }
    Ok(tables)
}

/// The sequences in the order of the file.
fn sequences_of(alloc: Global, items: &[Item]) -> Result<Named<SequenceDef>, AllocError>
    requires { first_after [] items.now ≡ None }
    ensures { IfOk result (λ sequences. sequences ≡ flat_map (λ i. sequence_said i.attributes i.head) items.now) }
{
    let mut sequences = Named::empty(alloc);
    for item in items {
        if let Head::Sequence { name } = &item.head {
            let sequence = sequence_def(name, item.attributes.as_slice())?;
            add(&mut sequences, sequence)?;
        }
    }
    Ok(sequences)
}

/// The order of tables, true, and sequences, false, in the file.
fn order_in(alloc: Global, items: &[Item]) -> Result<Items<bool>, AllocError>
    ensures { IfOk result (λ order. order ≡ flat_map (λ i. order_said i.head) items.now) }
{
    let mut order = Items::empty(alloc);
    for item in items {
        match &item.head {
            Head::Table { .. } => order.push(true)?,
            Head::Sequence { .. } => order.push(false)?,
            _ => {}
        }
    }
    Ok(order)
}

fn sequence_def(name: &Bytes, attributes: &[Attributed]) -> Result<SequenceDef, AllocError>
    ensures { IfOk result (λ sequence. sequence ≡ record { name = name.now; initial = start_of attributes.now; increment = increment_of attributes.now }) }
{
    Ok(SequenceDef {
        name: name.copy()?,
        initial: start_of(attributes),
        increment: increment_of(attributes),
    })
}

/// The table with this name.
fn table_def(alloc: Global, items: &[Item], name: &Bytes) -> Result<TableDef, AllocError>
    requires { first_after [] items.now ≡ None }
    ensures { IfOk result (λ table. table ≡ table_def items.now name.now) }
{
    let fields = fields_of(alloc, items, name.as_slice())?;
    let TableIndexes { indexes, primary } = indexes_of(alloc, items, &fields, name.as_slice())?;
    Ok(TableDef {
        name: name.copy()?,
        fields,
        indexes,
        primary,
    })
}

/// The fields of a table: by ORDER, and fields of the same ORDER in the order of the file.
fn fields_of(alloc: Global, items: &[Item], table: &[u8]) -> Result<Named<FieldDef>, AllocError>
    requires { first_after [] items.now ≡ None }
    ensures { IfOk result (λ fields. fields ≡ fields_of items.now table.now) }
{
    let text = fields_in_text(alloc, items, table)?;
    named(alloc, ordered(alloc, text)?)
}

/// The fields of a table in the order of the file.
fn fields_in_text(
    alloc: Global,
    items: &[Item],
    table: &[u8],
) -> Result<Vec<OrderedField>, AllocError>
    ensures { IfOk result (λ fields. map as_ordered fields.items ≡ fields_in_text items.now table.now) }
{
    let mut fields = Vec::new(alloc);
    for item in items {
        if let Some(field) = field_said(alloc, table, item)? {
            fields.push(field)?;
        }
    }
    Ok(fields)
}

/// The fields by ORDER, and fields of the same ORDER in the order of the file.
fn ordered(alloc: Global, text: Vec<OrderedField>) -> Result<Vec<OrderedField>, AllocError>
    ensures { IfOk result (λ fields. map as_ordered fields.items ≡ by_order (map as_ordered text.items)) }
{
    let mut rest = text;
    let mut fields = Vec::new(alloc);
    while let Some(field) = rest.pop() {
        place(&mut fields, field)?;
    }
    Ok(fields)
}

/// Adds a field before the first whose ORDER is not less.
fn place(fields: &mut Vec<OrderedField>, field: OrderedField) -> Result<(), AllocError>
    ensures { OnOk result (map as_ordered fields.new.items ≡ placed (as_ordered field) (map as_ordered fields.old.items)) }
{
    let order = field.order;
    let place = place_of(fields.as_slice(), order);
    fields.insert(place, field)?;
    Ok(())
}

/// The place of the first field whose ORDER is not less, else the end.
fn place_of(fields: &[OrderedField], order: u32) -> usize
    ensures place { result ≡ place_of order fields.now }
    ensures within { result ≤ length fields.now }
{
    for (place, field) in fields.iter().enumerate() {
        if order <= field.order {
            return place;
        }
    }
    fields.len()
}

/// The fields in this order, each to be found by its name.
fn named(alloc: Global, fields: Vec<OrderedField>) -> Result<Named<FieldDef>, AllocError>
    requires short { AreShort (map (λ f. f.name) (map field_of fields.items)) }
    requires apart { AreApart (map (λ f. f.name) (map field_of fields.items)) }
    ensures { IfOk result (λ list. list ≡ map field_of fields.items) }
{
    let mut rest = fields;
    rest.reverse();
    let mut list = Named::empty(alloc);
    while let Some(next) = rest.pop() {
        let OrderedField { order: _, field } = next;
        add(&mut list, field)?;
    }
    Ok(list)
}

/// The item as a field of this table, where it is one.
fn field_said(alloc: Global, t: &[u8], item: &Item) -> Result<Option<OrderedField>, AllocError>
    ensures { IfOk result (λ field. map as_ordered (option_to_list field) ≡ field_said t.now item.now.attributes item.now.head) }
{
    let Head::Field { name, table, kind } = &item.head else {
        return Ok(None);
    };
    if !same_name(table.as_slice(), t) {
        return Ok(None);
    }
    let attributes = item.attributes.as_slice();
    Ok(Some(OrderedField {
        order: order_of(attributes),
        field: field_def(alloc, name, kind_of(*kind, attributes), attributes)?,
    }))
}

/// The usable indexes of a table with these fields. The primary one is the first with PRIMARY, else
/// the first.
fn indexes_of(
    alloc: Global,
    items: &[Item],
    fields: &Named<FieldDef>,
    t: &[u8],
) -> Result<TableIndexes, AllocError>
    requires clean { first_after [] items.now ≡ None }
    requires few { length fields.now ≤ MAX_FIELDS }
    ensures indexes { IfOk result (λ found. found.indexes ≡ map (λ i. i.index) (indexes_of items.now fields.now t.now)) }
    ensures primary { IfOk result (λ found. found.primary ≡ primary_of (indexes_of items.now fields.now t.now)) }
{
    let mut indexes = Named::empty(alloc);
    let mut with_primary = None;
    for item in items {
        if let Some(index) = index_said(alloc, fields, t, item)? {
            let number = indexes.len() as u16;
            let primary = is_primary(item.attributes.as_slice());
            with_primary = first_number(with_primary, primary, number);
            add(&mut indexes, index)?;
        }
    }
    let primary = match with_primary {
        None if indexes.len() > 0 => Some(0),
        _ => with_primary,
    };
    Ok(TableIndexes { indexes, primary })
}

/// The number that was found, else this one where it passes.
fn first_number(found: Option<u16>, passes: bool, number: u16) -> Option<u16>
    ensures { result ≡ (if is_some found then found else if passes then Some number else None) }
{
    if found.is_some() {
        found
    } else if passes {
        Some(number)
    } else {
        None
    }
}

/// The item as a usable index of this table, where it is one.
fn index_said(
    alloc: Global,
    fields: &Named<FieldDef>,
    t: &[u8],
    item: &Item,
) -> Result<Option<IndexDef>, AllocError>
    requires { length fields.now ≤ MAX_FIELDS }
    ensures { IfOk result (λ index. option_to_list index ≡ map (λ i. i.index) (index_said fields.now t.now item.now.attributes item.now.head)) }
{
    let Head::Index { name, table } = &item.head else {
        return Ok(None);
    };
    let attributes = item.attributes.as_slice();
    if !same_name(table.as_slice(), t) || is_word(attributes) {
        return Ok(None);
    }
    let parts = parts_of(alloc, fields, attributes)?;
    if !are_supported(fields.as_slice(), parts.as_slice()) {
        return Ok(None);
    }
    Ok(Some(IndexDef {
        name: name.copy()?,
        unique: is_unique(attributes),
        parts,
    }))
}

/// The components of an index, by the numbers of their fields.
fn parts_of(
    alloc: Global,
    fields: &Named<FieldDef>,
    attributes: &[Attributed],
) -> Result<KeyParts, AllocError>
    requires { length fields.now ≤ MAX_FIELDS }
    ensures { IfOk result (λ parts. parts ≡ parts_of fields.now attributes.now) }
{
    let mut parts = Items::empty(alloc);
    for line in attributes {
        if let Some(part) = part_said(fields, &line.attribute) {
            parts.push(part)?;
        }
    }
    Ok(parts)
}

/// The component that a line names, where it is a field.
fn part_said(fields: &Named<FieldDef>, attribute: &Attribute) -> Option<KeyPart>
    requires { length fields.now ≤ MAX_FIELDS }
    ensures { option_to_list result ≡ part_said fields.now attribute.now }
{
    match attribute {
        Attribute::IndexField(Some(component)) => {
            let number = fields.find(component.field.as_slice())?;
            Some(KeyPart {
                field: number as u16,
                descending: component.descending,
            })
        }
        _ => None,
    }
}

/// Says whether every component is of a supported kind.
fn are_supported(fields: &[FieldDef], parts: &[KeyPart]) -> bool
    ensures { result ≡ are_supported fields.now parts.now }
{
    parts.iter().all(|part| is_supported(fields, part.field))
}

/// Says whether the field with this number is of a supported kind.
fn is_supported(fields: &[FieldDef], number: u16) -> bool
    ensures { result ≡ is_some (slice_index_or fields.now number no_field).kind }
{
    match fields.get(usize::from(number)) {
        None => false,
        Some(field) => field.kind.is_some(),
    }
}
