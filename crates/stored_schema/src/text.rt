//! The stored text of a schema.

ghost use Rattle.std.specs.Prelude.{◌≡◌, ◌++◌, IfOk, OnOk};
ghost use Rattle.std.specs.List.{flat_map};
ghost use Rattle.stored_schema.specs.Text.{dropped_line, line_at, stored_line, stored_lines, stored_table_lines, stored_text};

use crate::stored::StoredFields;
use abl_base::{Bytes, Items};
use abl_values::canonical::{kind_text, push_field, push_folded, push_indexes, push_sequence};
use abl_values::{FieldDef, Schema, SequenceDef, TableDef};
use std::alloc::{AllocError, Global};
use stored_fields::StoredField;

/// The stored text of a schema whose tables have these stored fields: its canonical text, with a
/// line `D name kind` at the place of each dropped field. Out of memory is the only error. (This
/// project's choice.)
#[tactic(auto, unfolding(crate::specs::Text::stored_text))]
pub fn stored_text(schema: &Schema, fields: &[StoredFields]) -> Result<Bytes, AllocError>
    ensures { IfOk result (λ text. text ≡ stored_text schema.now fields.now) }
{
    let lines = stored_lines(
        schema.allocator(),
        schema.order(),
        schema.table_defs(),
        fields,
        schema.sequences(),
    )?;
    Ok(Items::from_vec(lines))
}

/// The lines of tables and sequences in order.
#[tactic(auto, unfolding(crate::specs::Text::stored_lines))]
fn stored_lines(
    alloc: Global,
    order: &[bool],
    tables: &[TableDef],
    fields: &[StoredFields],
    sequences: &[SequenceDef],
) -> Result<Vec<u8>, AllocError>
    ensures { IfOk result (λ text. text.items ≡ stored_lines order.now tables.now fields.now sequences.now) }
{
    let mut text = Vec::new(alloc);
    let mut table = 0;
    let mut sequence = 0;
    for is_table in order {
        if *is_table {
            if table < tables.len() && table < fields.len() {
                push_table(alloc, &mut text, &tables[table], fields[table].as_slice())?;
                table += 1;
            }
        } else if sequence < sequences.len() {
            push_sequence(alloc, &mut text, &sequences[sequence])?;
            sequence += 1;
        }
    }
    Ok(text)
}

/// Writes the lines of a table.
fn push_table(
    alloc: Global,
    text: &mut Vec<u8>,
    table: &TableDef,
    stored: &[StoredField],
) -> Result<(), AllocError>
    ensures { OnOk result (text.new.items ≡ text.old.items ++ stored_table_lines table.now stored.now) }
{
    text.extend_from_slice(b"T ")?;
    push_folded(text, table.name.as_slice())?;
    text.push(b'\n')?;
    push_stored(alloc, text, table.fields.as_slice(), stored)?;
    push_indexes(text, table)
}

/// Writes the lines of the stored fields.
fn push_stored(
    alloc: Global,
    text: &mut Vec<u8>,
    fields: &[FieldDef],
    stored: &[StoredField],
) -> Result<(), AllocError>
    ensures { OnOk result (text.new.items ≡ text.old.items ++ flat_map (stored_line fields.now) stored.now) }
{
    for field in stored {
        push_one(alloc, text, fields, field)?;
    }
    Ok(())
}

/// Writes the line of a stored field.
fn push_one(
    alloc: Global,
    text: &mut Vec<u8>,
    fields: &[FieldDef],
    stored: &StoredField,
) -> Result<(), AllocError>
    ensures { OnOk result (text.new.items ≡ text.old.items ++ stored_line fields.now stored.now) }
{
    match stored.live {
        None => push_dropped(text, stored),
        Some(number) => match fields.get(usize::from(number)) {
            Some(field) => push_field(alloc, text, field),
            None => Ok(()),
        },
    }
}

/// Writes the line of a dropped field.
fn push_dropped(text: &mut Vec<u8>, stored: &StoredField) -> Result<(), AllocError>
    ensures { OnOk result (text.new.items ≡ text.old.items ++ dropped_line stored.now) }
{
    text.extend_from_slice(b"D ")?;
    push_folded(text, stored.name.as_slice())?;
    text.push(b' ')?;
    text.extend_from_slice(kind_text(stored.kind))?;
    text.push(b'\n')?;
    Ok(())
}
