//! The lines of a schema's canonical text.

ghost use Rattle.std.specs.Prelude.{◌≡◌, ◌++◌, ◌∷◌, ◌<◌, [], codes, IfOk, OnOk};
ghost use Rattle.std.specs.Fmt.{signed_decimal};
ghost use Rattle.std.specs.List.{flat_map};
ghost use Rattle.abl_values.specs.Order.{folded};
ghost use Rattle.abl_values.specs.Schema.{field_line, index_line, index_lines, is_number, kind_text, letter, lines_in_order, part_text, sequence_line, table_lines};

use crate::order::folded_byte;
use crate::schema::{FieldDef, IndexDef, KeyPart, SequenceDef, TableDef};
use crate::texts::{push_export, push_number};
use abl_base::Kind;
use std::alloc::{AllocError, Global};

/// The lines of tables and sequences in the order of the file.
#[tactic(auto, unfolding(crate::specs::Schema::lines_in_order))]
pub(crate) fn lines_in_order(
    alloc: Global,
    order: &[bool],
    tables: &[TableDef],
    sequences: &[SequenceDef],
) -> Result<Vec<u8>, AllocError>
    ensures { IfOk result (λ text. text.items ≡ lines_in_order order.now tables.now sequences.now) }
{
    let mut text = Vec::new(alloc);
    let mut table = 0;
    let mut sequence = 0;
    for is_table in order {
        if *is_table {
            if table < tables.len() {
                push_table(alloc, &mut text, &tables[table])?;
                table += 1;
            }
        } else if sequence < sequences.len() {
            push_sequence(alloc, &mut text, &sequences[sequence])?;
            sequence += 1;
        }
    }
    Ok(text)
}

/// Writes the lines of a table.
fn push_table(alloc: Global, text: &mut Vec<u8>, table: &TableDef) -> Result<(), AllocError>
    ensures { OnOk result (text.new.items ≡ text.old.items ++ table_lines table.now) }
{
    text.extend_from_slice(b"T ")?;
    push_folded(text, table.name.as_slice())?;
    text.push(b'\n')?;
    push_fields(alloc, text, table.fields.as_slice())?;
    push_indexes(text, table)
}

/// Writes the lines of the fields.
fn push_fields(alloc: Global, text: &mut Vec<u8>, fields: &[FieldDef]) -> Result<(), AllocError>
    ensures { OnOk result (text.new.items ≡ text.old.items ++ flat_map field_line fields.now) }
{
    for field in fields {
        push_field(alloc, text, field)?;
    }
    Ok(())
}

/// Writes the line of a field.
pub fn push_field(alloc: Global, text: &mut Vec<u8>, field: &FieldDef) -> Result<(), AllocError>
    ensures { OnOk result (text.new.items ≡ text.old.items ++ field_line field.now) }
{
    text.extend_from_slice(b"F ")?;
    push_folded(text, field.name.as_slice())?;
    text.push(b' ')?;
    text.extend_from_slice(kind_text(field.kind))?;
    text.push(b' ')?;
    push_letter(text, field.mandatory, b'M', b'O')?;
    text.push(b' ')?;
    push_export(alloc, text, &field.initial)?;
    text.push(b'\n')?;
    Ok(())
}

/// The name of a kind, `-` for an unsupported one.
pub fn kind_text(kind: Option<Kind>) -> &'static [u8]
    ensures { result.now ≡ kind_text kind }
{
    match kind {
        None => b"-",
        Some(Kind::Character) => b"CHARACTER",
        Some(Kind::Integer) => b"INTEGER",
        Some(Kind::Int64) => b"INT64",
        Some(Kind::Decimal) => b"DECIMAL",
        Some(Kind::Logical) => b"LOGICAL",
        Some(Kind::Date) => b"DATE",
    }
}

/// Writes the lines of a table's indexes.
pub fn push_indexes(text: &mut Vec<u8>, table: &TableDef) -> Result<(), AllocError>
    ensures { OnOk result (text.new.items
        ≡ text.old.items ++ index_lines table.now.fields table.now.primary 0 table.now.indexes) }
{
    let fields = table.fields.as_slice();
    let indexes = table.indexes.as_slice();
    for i in 0..indexes.len() {
        push_index(text, fields, is_number(table.primary, i), &indexes[i])?;
    }
    Ok(())
}

/// Says whether the primary index is the one with this number.
fn is_number(primary: Option<u16>, number: usize) -> bool
    ensures { result ≡ is_number primary number }
{
    match primary {
        None => false,
        Some(primary) => usize::from(primary) == number,
    }
}

/// Writes the line of an index.
fn push_index(
    text: &mut Vec<u8>,
    fields: &[FieldDef],
    primary: bool,
    index: &IndexDef,
) -> Result<(), AllocError>
    ensures { OnOk result (text.new.items ≡ text.old.items ++ index_line fields.now primary index.now) }
{
    text.extend_from_slice(b"I ")?;
    push_folded(text, index.name.as_slice())?;
    text.push(b' ')?;
    push_letter(text, index.unique, b'U', b'N')?;
    text.push(b' ')?;
    push_letter(text, primary, b'P', b'N')?;
    push_parts(text, fields, index.parts.as_slice())?;
    text.push(b'\n')?;
    Ok(())
}

/// Writes the components of an index.
fn push_parts(text: &mut Vec<u8>, fields: &[FieldDef], parts: &[KeyPart]) -> Result<(), AllocError>
    ensures { OnOk result (text.new.items ≡ text.old.items ++ flat_map (part_text fields.now) parts.now) }
{
    for part in parts {
        push_part(text, fields, *part)?;
    }
    Ok(())
}

/// Writes a component of an index.
fn push_part(text: &mut Vec<u8>, fields: &[FieldDef], part: KeyPart) -> Result<(), AllocError>
    ensures { OnOk result (text.new.items ≡ text.old.items ++ part_text fields.now part) }
{
    text.push(b' ')?;
    if let Some(field) = fields.get(usize::from(part.field)) {
        push_folded(text, field.name.as_slice())?;
    }
    text.push(b' ')?;
    push_letter(text, part.descending, b'D', b'A')
}

/// Writes the line of a sequence.
pub fn push_sequence(
    alloc: Global,
    text: &mut Vec<u8>,
    sequence: &SequenceDef,
) -> Result<(), AllocError>
    ensures { OnOk result (text.new.items ≡ text.old.items ++ sequence_line sequence.now) }
{
    text.extend_from_slice(b"S ")?;
    push_folded(text, sequence.name.as_slice())?;
    push_spaced(alloc, text, sequence.initial)?;
    push_spaced(alloc, text, sequence.increment)?;
    text.push(b'\n')?;
    Ok(())
}

/// Writes a blank and a number.
fn push_spaced(alloc: Global, text: &mut Vec<u8>, n: i64) -> Result<(), AllocError>
    ensures { OnOk result (text.new.items ≡ text.old.items ++ 32 ∷ signed_decimal n) }
{
    text.push(b' ')?;
    push_number(alloc, text, n)
}

/// Writes one of two letters.
fn push_letter(text: &mut Vec<u8>, choice: bool, on: u8, off: u8) -> Result<(), AllocError>
    ensures { OnOk result (text.new.items ≡ text.old.items ++ letter choice on off) }
{
    text.push(if choice { on } else { off })?;
    Ok(())
}

/// Writes a name with its ASCII letters small.
pub fn push_folded(text: &mut Vec<u8>, name: &[u8]) -> Result<(), AllocError>
    ensures { OnOk result (text.new.items ≡ text.old.items ++ folded name.now) }
{
    for byte in name {
        text.push(folded_byte(*byte))?;
    }
    Ok(())
}
