//! A schema and its stored fields.

ghost use Rattle.std.specs.Prelude.{◌≡◌, ◌<◌, ◌≤◌, length, IfOk};
ghost use Rattle.abl_base.specs.declared.limits.TheConstants.{MAX_FIELDS};
ghost use Rattle.abl_values.specs.Schema.{field_kinds, fields_of};
ghost use Rattle.stored_fields.specs.Rows.{AreStoredFor};
ghost use Rattle.stored_schema.specs.Seen.{IsLaid};
ghost use Rattle.stored_schema.specs.Stored.{IsOwn, stored_of};
ghost use Rattle.stored_schema.specs.Text.{stored_text};

use crate::text::stored_text;
use abl_base::{Bytes, Items};
use abl_values::Schema;
use std::alloc::AllocError;
use std::marker::Model;
use stored_fields::StoredField;

/// The stored fields of a table, in stored order.
pub type StoredFields = Items<StoredField>;

/// A schema, and how the rows of its tables are stored. The schema is the one that a database has,
/// with the fields of each table in stored order, or one that agrees with it and may have them in
/// another order.
#[derive(Drop)]
pub struct StoredSchema {
    pub(crate) schema: Schema,
    pub(crate) fields: Items<StoredFields>,
    pub(crate) text: Bytes,
}

impl Model for StoredSchema {
    ghost use Rattle.stored_schema.specs.Stored.{Stored};
    ghost use Rattle.stored_schema.specs.Seen.{IsLaid};

    ghost Value = { Stored };

    ghost view = { λ s. record { schema = s.schema; fields = s.fields; text = s.text } };

    ghost invariant = { λ s. IsLaid (record { schema = s.schema; fields = s.fields; text = s.text }) };
}

impl StoredSchema {
    /// The schema with these stored fields, and its stored text. Out of memory is the only error.
    pub fn of(schema: Schema, fields: Items<StoredFields>) -> Result<StoredSchema, AllocError>
        requires { IsOwn (record { schema = schema; fields = fields; text = stored_text schema fields }) }
        ensures { IfOk result (λ stored. stored ≡ record { schema = schema; fields = fields; text = stored_text schema fields }) }
    {
        let text = stored_text(&schema, fields.as_slice())?;
        Ok(StoredSchema {
            schema,
            fields,
            text,
        })
    }

    /// The schema: rows are rows of its tables.
    pub fn schema(&self) -> &Schema
        ensures { result.now ≡ self.now.schema }
    {
        &self.schema
    }

    /// The stored fields of a table, in stored order. They hold the rows of the schema's table.
    pub fn stored(&self, table: u16) -> &[StoredField]
        requires { table < length self.now.schema.tables }
        ensures fields { result.now ≡ stored_of self.now table }
        ensures few { length result.now ≤ MAX_FIELDS }
        ensures holds { AreStoredFor (field_kinds (fields_of self.now.schema table)) result.now }
    {
        self.fields.as_slice()[usize::from(table)].as_slice()
    }

    /// The text by which a database keeps the schema: the canonical text of the schema in stored
    /// order, with a line `D name kind` at the place of each dropped field. (This project's choice.)
    pub fn text(&self) -> &[u8]
        ensures { result.now ≡ self.now.text }
    {
        self.text.as_slice()
    }

    /// What every stored schema has.
    pub fn laid(&self)
        ensures { IsLaid self.now }
    {
        let _ = &self.text;
    }

    /// The schema alone.
    pub fn into_schema(self) -> Schema
        ensures { result ≡ self.schema }
    {
        let StoredSchema { schema, .. } = self;
        schema
    }
}
