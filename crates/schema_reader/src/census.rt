//! What the items before a line have named.

ghost use Rattle.std.specs.Prelude.{◌≡◌, ◌≤◌, [], ◌∷◌, ◌++◌, length, None, OnOk};
ghost use Rattle.schema_lines.specs.Attributes.{has, is_primary, kind_of};
ghost use Rattle.abl_values.specs.Schema.{number_of_name};
ghost use Rattle.abl_base.specs.declared.limits.TheConstants.{MAX_NAME_BYTES};
ghost use Rattle.schema_reader.specs.Census.{changed_at, counted_name, field_rule, head_rule_in, index_rule, names_after, no_census, names_of, sequences_after, table_found, tables_after, with_field, with_index};

use abl_base::Bytes;
use abl_values::{HasName, NameFault, Named};
use schema_lines::attributes::{is_primary, kind_of};
use schema_lines::item::{Attributed, Head, Item};
use std::alloc::{AllocError, Global};

/// A named item, and of a field whether its kind is supported.
#[derive(Drop)]
pub struct Counted {
    pub name: Bytes,
    pub supported: bool,
}

impl HasName for Counted {
    ghost name_of = { λ item. item.name };

    fn name(&self) -> &[u8] {
        self.name.as_slice()
    }
}

/// The fields and the indexes of a table, usable or not, and whether an index has PRIMARY.
#[derive(Drop)]
pub struct TableCensus {
    pub fields: Named<Counted>,
    pub indexes: Named<Counted>,
    pub has_primary: bool,
}

/// The tables, in order, and the sequences.
#[derive(Drop)]
pub struct Census {
    pub names: Named<Counted>,
    pub tables: Vec<TableCensus>,
    pub sequences: Named<Counted>,
}

/// Adds a name that is not too long and not there.
fn add(names: &mut Named<Counted>, name: &Bytes, supported: bool) -> Result<(), AllocError>
    requires short { length name.now ≤ MAX_NAME_BYTES }
    requires free { number_of_name 0 (names_of names.old) name.now ≡ None }
    ensures { OnOk result (names.new ≡ names.old ++ record { name = name.now; supported = supported } ∷ []) }
{
    let counted = Counted {
        name: name.copy()?,
        supported,
    };
    match names.push(counted) {
        Ok(()) => Ok(()),
        Err(NameFault::NoMemory) => Err(AllocError),
        Err(NameFault::TooLong) | Err(NameFault::Taken) => unreachable!(),
    }
}

impl Census {
    ghost use Rattle.std.specs.Prelude.{MatchOption, Some};

    /// Nothing has been named.
    pub fn empty(alloc: Global) -> Census
        ensures names { result.names ≡ [] }
        ensures tables { result.tables.items ≡ [] }
        ensures sequences { result.sequences ≡ [] }
    {
        Census {
            names: Named::empty(alloc),
            tables: Vec::new(alloc),
            sequences: Named::empty(alloc),
        }
    }

    /// What is counted of the table with this name, in any case.
    pub fn table(&self, name: &[u8]) -> Option<&TableCensus>
        ensures { MatchOption result (table_found self.now name.now ≡ None) (λ counted. table_found self.now name.now ≡ Some counted.now) }
    {
        let number = self.names.find(name)?;
        self.tables.get(number)
    }

    /// Counts an item whose first line breaks no rule.
    pub fn count(&mut self, alloc: Global, item: &Item) -> Result<(), AllocError>
        requires { head_rule_in self.old item.now.attributes item.now.head ≡ None }
        ensures names { OnOk result (self.new.names ≡ names_after self.old.names item.now.head) }
        ensures tables { OnOk result (self.new.tables.items ≡ tables_after self.old item.now.attributes item.now.head) }
        ensures sequences { OnOk result (self.new.sequences ≡ sequences_after self.old.sequences item.now.head) }
    {
        match &item.head {
            Head::Malformed => Ok(()),
            Head::Table { name } => self.count_table(alloc, name),
            Head::Sequence { name } => add(&mut self.sequences, name, true),
            Head::Field { name, table, kind } => {
                let supported = kind_of(*kind, item.attributes.as_slice()).is_some();
                self.count_field(name, table, supported)
            }
            Head::Index { name, table } => {
                self.count_index(name, table, item.attributes.as_slice())
            }
        }
    }

    fn count_table(&mut self, alloc: Global, name: &Bytes) -> Result<(), AllocError>
        requires short { length name.now ≤ MAX_NAME_BYTES }
        requires free { number_of_name 0 (names_of self.old.names) name.now ≡ None }
        ensures names { OnOk result (self.new.names ≡ self.old.names ++ counted_name name.now ∷ []) }
        ensures tables { OnOk result (self.new.tables.items ≡ self.old.tables.items ++ no_census ∷ []) }
        ensures sequences { self.new.sequences ≡ self.old.sequences }
    {
        add(&mut self.names, name, true)?;
        self.tables.push(TableCensus {
            fields: Named::empty(alloc),
            indexes: Named::empty(alloc),
            has_primary: false,
        })?;
        Ok(())
    }

    fn count_field(
        &mut self,
        name: &Bytes,
        table: &Bytes,
        supported: bool,
    ) -> Result<(), AllocError>
        requires { field_rule (table_found self.old table.now) name.now table.now ≡ None }
        ensures names { self.new.names ≡ self.old.names }
        ensures tables { OnOk result (self.new.tables.items ≡ changed_at self.old.tables.items (number_of_name 0 (names_of self.old.names) table.now) (with_field (record { name = name.now; supported = supported }))) }
        ensures sequences { self.new.sequences ≡ self.old.sequences }
    {
        if let Some(number) = self.names.find(table.as_slice()) {
            if let Some(counted) = self.tables.get_mut(number) {
                add(&mut counted.fields, name, supported)?;
            }
        }
        Ok(())
    }

    fn count_index(
        &mut self,
        name: &Bytes,
        table: &Bytes,
        attributes: &[Attributed],
    ) -> Result<(), AllocError>
        requires { index_rule (table_found self.old table.now) name.now table.now attributes.now ≡ None }
        ensures names { self.new.names ≡ self.old.names }
        ensures tables { OnOk result (self.new.tables.items ≡ changed_at self.old.tables.items (number_of_name 0 (names_of self.old.names) table.now) (with_index name.now (has is_primary attributes.now))) }
        ensures sequences { self.new.sequences ≡ self.old.sequences }
    {
        if let Some(number) = self.names.find(table.as_slice()) {
            if let Some(counted) = self.tables.get_mut(number) {
                add(&mut counted.indexes, name, true)?;
                counted.has_primary = counted.has_primary || is_primary(attributes);
            }
        }
        Ok(())
    }
}
