//! Tables with their fields and indexes, and sequences.

ghost use Rattle.std.specs.Prelude.{◌≡◌, ◌<◌, ◌≤◌, length, IfOk};

use crate::canonical::lines_in_order;
use crate::named::{HasName, Named};
use abl_base::{Bytes, Items, Kind, Value};
use std::alloc::{AllocError, Global};
use std::marker::Model;

/// A field of a table. A field of an unsupported kind has none, and always holds `?`.
#[derive(Drop)]
pub struct FieldDef {
    pub name: Bytes,
    pub kind: Option<Kind>,
    pub initial: Value,
    pub mandatory: bool,
    pub mask: Bytes,
}

/// A component of an index: a field, by its number in the table, and its direction.
#[derive(Clone, Copy, Debug, PartialEq, Eq)]
pub struct KeyPart {
    pub field: u16,
    pub descending: bool,
}

/// The components of an index, the leading one first.
pub type KeyParts = Items<KeyPart>;

/// An index of a table.
#[derive(Drop)]
pub struct IndexDef {
    pub name: Bytes,
    pub unique: bool,
    pub parts: KeyParts,
}

/// A table: its fields in order, its usable indexes, and which of them is the primary one.
#[derive(Drop)]
pub struct TableDef {
    pub name: Bytes,
    pub fields: Named<FieldDef>,
    pub indexes: Named<IndexDef>,
    pub primary: Option<u16>,
}

/// A sequence. Its first value is `initial` plus `increment`.
#[derive(Drop)]
pub struct SequenceDef {
    pub name: Bytes,
    pub initial: i64,
    pub increment: i64,
}

impl HasName for FieldDef {
    ghost name_of = { λ item. item.name };

    fn name(&self) -> &[u8] {
        self.name.as_slice()
    }
}

impl HasName for IndexDef {
    ghost name_of = { λ item. item.name };

    fn name(&self) -> &[u8] {
        self.name.as_slice()
    }
}

impl HasName for TableDef {
    ghost name_of = { λ item. item.name };

    fn name(&self) -> &[u8] {
        self.name.as_slice()
    }
}

impl HasName for SequenceDef {
    ghost name_of = { λ item. item.name };

    fn name(&self) -> &[u8] {
        self.name.as_slice()
    }
}

/// The tables and sequences of a database, in the order of its schema file. Names are spelt as there,
/// and found in any case.
#[derive(Drop)]
pub struct Schema {
    tables: Named<TableDef>,
    sequences: Named<SequenceDef>,
    order: Items<bool>,
}

impl Model for Schema {
    ghost use Rattle.abl_values.specs.Schema.{SchemaData};
    ghost use Rattle.abl_values.specs.Sound.{IsSound};

    ghost Value = { SchemaData };

    ghost view = { λ s. record { tables = s.tables; sequences = s.sequences; order = s.order } };

    ghost invariant = { λ s. IsSound (record { tables = s.tables; sequences = s.sequences; order = s.order }) };
}

impl Schema {
    ghost use Rattle.abl_values.specs.Schema.{canonical_text, fields_of, field_named, indexes_of, name_of, primary_of, table_named};
    ghost use Rattle.abl_values.specs.Sound.{IsSound};

    /// The schema with these tables and sequences, each in the order of the file. `order` has true
    /// for a table and false for a sequence, in the order of the file. It must be sound, as every
    /// schema is: within the limits, each name a name, each value within its range, each number of
    /// a field or an index that of an existing one.
    pub fn of(tables: Named<TableDef>, sequences: Named<SequenceDef>, order: Items<bool>) -> Schema
        requires { IsSound (record { tables = tables; sequences = sequences; order = order }) }
        ensures { result ≡ record { tables = tables; sequences = sequences; order = order } }
    {
        Schema {
            tables,
            sequences,
            order,
        }
    }

    /// Every schema is sound: within the limits, its names are names, its values are within their
    /// ranges, and what refers to another part finds it.
    pub fn soundness(&self)
        ensures { IsSound self.now }
    {
        let _ = &self.tables;
    }

    /// The number of tables.
    pub fn tables(&self) -> u16
        ensures { result ≡ length self.now.tables }
    {
        self.tables.len() as u16
    }

    /// The number of the table with this name, in any case.
    #[tactic(auto, unfolding(crate::specs::Schema::table_named))]
    pub fn table(&self, name: &[u8]) -> Option<u16>
        ensures { result ≡ table_named self.now name.now }
    {
        let number = self.tables.find(name)?;
        Some(number as u16)
    }

    /// The number of the table's field with this name, in any case.
    #[tactic(auto, unfolding(crate::specs::Schema::field_named))]
    pub fn field(&self, table: u16, name: &[u8]) -> Option<u16>
        requires { table < length self.now.tables }
        ensures { result ≡ field_named self.now table name.now }
    {
        let number = self.tables.as_slice()[usize::from(table)]
            .fields
            .find(name)?;
        Some(number as u16)
    }

    /// The table's name as it is spelt.
    pub fn table_name(&self, table: u16) -> &[u8]
        requires { table < length self.now.tables }
        ensures { result.now ≡ name_of self.now table }
    {
        self.tables.as_slice()[usize::from(table)].name.as_slice()
    }

    /// The table's fields in order.
    pub fn fields(&self, table: u16) -> &[FieldDef]
        requires { table < length self.now.tables }
        ensures { result.now ≡ fields_of self.now table }
    {
        self.tables.as_slice()[usize::from(table)].fields.as_slice()
    }

    /// The table's usable indexes in order.
    pub fn indexes(&self, table: u16) -> &[IndexDef]
        requires { table < length self.now.tables }
        ensures { result.now ≡ indexes_of self.now table }
    {
        self.tables.as_slice()[usize::from(table)]
            .indexes
            .as_slice()
    }

    /// The number of the table's primary index, where it has one.
    pub fn primary(&self, table: u16) -> Option<u16>
        requires { table < length self.now.tables }
        ensures { result ≡ primary_of self.now table }
    {
        self.tables.as_slice()[usize::from(table)].primary
    }

    /// The canonical text, with names folded: a line `T name` for a table, then `F name kind M|O
    /// initial` for each field, with `-` for an unsupported kind, M for a mandatory field and the
    /// initial value as EXPORT writes it, then `I name U|N P|N` for each index, with U for a unique
    /// and P for the primary one and each of its fields with A or D; `S name initial increment` for
    /// a sequence. Out of memory is the only error. (This project's choice.)
    #[tactic(auto, unfolding(crate::specs::Schema::canonical_text))]
    pub fn canonical(&self) -> Result<Bytes, AllocError>
        ensures { IfOk result (λ text. text ≡ canonical_text self.now) }
    {
        let lines = lines_in_order(
            self.tables.allocator(),
            self.order.as_slice(),
            self.tables.as_slice(),
            self.sequences.as_slice(),
        )?;
        Ok(Items::from_vec(lines))
    }

    /// The tables in order.
    pub fn table_defs(&self) -> &[TableDef]
        ensures { result.now ≡ self.now.tables }
    {
        self.tables.as_slice()
    }

    /// For each table true and for each sequence false, in the order of the file.
    pub fn order(&self) -> &[bool]
        ensures { result.now ≡ self.now.order }
    {
        self.order.as_slice()
    }

    /// The allocator that the schema takes its memory from.
    pub fn allocator(&self) -> Global {
        self.tables.allocator()
    }

    /// The sequences in order.
    pub fn sequences(&self) -> &[SequenceDef]
        ensures { result.now ≡ self.now.sequences }
    {
        self.sequences.as_slice()
    }
}
