//! Names as the schema and the source spell them.

ghost use Rattle.std.specs.Prelude.{◌≡◌, slice_index_or};
ghost use Rattle.abl_values.specs.Schema.{fields_of, indexes_of, name_of, no_field, no_index};
ghost use Rattle.block_meaning.specs.Program.{no_buffer_def};

use abl_values::{FieldDef, IndexDef, Schema};
use bound_tree::BufferDef;

/// The fields of the table in order, and none where there is no such table.
pub fn fields_of(schema: &Schema, table: u16) -> &[FieldDef]
    ensures { result.now ≡ fields_of schema.now table }
{
    if table < schema.tables() {
        schema.fields(table)
    } else {
        &[]
    }
}

/// The indexes of the table in order, and none where there is no such table.
pub fn indexes_of(schema: &Schema, table: u16) -> &[IndexDef]
    ensures { result.now ≡ indexes_of schema.now table }
{
    if table < schema.tables() {
        schema.indexes(table)
    } else {
        &[]
    }
}

/// The name of the table, and an empty one where there is no such table.
pub fn table_name(schema: &Schema, table: u16) -> &[u8]
    ensures { result.now ≡ name_of schema.now table }
{
    if table < schema.tables() {
        schema.table_name(table)
    } else {
        b""
    }
}

/// The name of a field of the table, and an empty one where there is no such field.
pub fn field_name(schema: &Schema, table: u16, field: usize) -> &[u8]
    ensures { result.now ≡ (slice_index_or (fields_of schema.now table) field no_field).name }
{
    match fields_of(schema, table).get(field) {
        Some(field) => field.name.as_slice(),
        None => b"",
    }
}

/// The name of an index of the table, and an empty one where there is no such index.
pub fn index_name(schema: &Schema, table: u16, index: u16) -> &[u8]
    ensures { result.now ≡ (slice_index_or (indexes_of schema.now table) index no_index).name }
{
    match indexes_of(schema, table).get(usize::from(index)) {
        Some(index) => index.name.as_slice(),
        None => b"",
    }
}

/// The name of a buffer, and an empty one where there is no such buffer.
pub fn buffer_name(buffers: &[BufferDef], buffer: u32) -> &[u8]
    ensures { result.now ≡ (slice_index_or buffers.now buffer no_buffer_def).name }
{
    match buffers.get(buffer as usize) {
        Some(buffer) => buffer.name.as_slice(),
        None => b"",
    }
}
