//! Tables and sequences in the order of the text.

ghost use Rattle.std.specs.Prelude.{◌≡◌, ◌<◌, true, length, IfOk, MatchResult, OnOk};
ghost use Rattle.abl_values.specs.Schema.{SchemaData};
ghost use Rattle.abl_values.specs.Sound.{IsSound};
ghost use Rattle.schema_text.specs.Entries.{IsBegun, data_of};
ghost use Rattle.schema_text.specs.Words.{begins};
ghost use Rattle.schema_text.specs.Written.{IsHeld, IsWritten};
ghost use Rattle.schema_text.specs.declared.unread.Unread.TheVariants.{NoMemory};

use crate::adding::add;
use crate::sequences::sequence_at;
use crate::tables::table_at;
use crate::unread::Unread;
use abl_base::Items;
use abl_base::limits::{MAX_SEQUENCES, MAX_TABLES};
use abl_values::{Named, SequenceDef, TableDef};
use std::alloc::Global;

/// Tables and sequences, and their order: true for a table and false for a sequence.
#[derive(Drop)]
pub struct Entries {
    pub tables: Named<TableDef>,
    pub sequences: Named<SequenceDef>,
    pub order: Items<bool>,
}

/// Adds the table that the text begins with, and gives what follows it.
pub fn add_table<'a>(
    alloc: Global,
    entries: &mut Entries,
    text: &'a [u8],
) -> Result<&'a [u8], Unread>
    ensures table { (schema : SchemaData) → IsWritten schema → begins 84 text.now ≡ true → IsBegun schema entries.old text.now → MatchResult result (λ rest. IsBegun schema entries.new rest.now) (λ fault. fault ≡ NoMemory) }
    ensures sound { IsSound (data_of entries.old) → OnOk result (IsSound (data_of entries.new)) }
    ensures held { IsHeld (data_of entries.old) → OnOk result (IsHeld (data_of entries.new)) }
    ensures shorter { IfOk result (λ rest. length rest.now < length text.now) }
{
    if entries.tables.len() >= MAX_TABLES {
        return Err(Unread::NotCanonical);
    }
    let (table, rest) = table_at(alloc, text)?;
    add(&mut entries.tables, table)?;
    entries.order.push(true)?;
    Ok(rest)
}

/// Adds the sequence that the text begins with, and gives what follows it.
pub fn add_sequence<'a>(
    alloc: Global,
    entries: &mut Entries,
    text: &'a [u8],
) -> Result<&'a [u8], Unread>
    ensures sequence { (schema : SchemaData) → IsWritten schema → begins 83 text.now ≡ true → IsBegun schema entries.old text.now → MatchResult result (λ rest. IsBegun schema entries.new rest.now) (λ fault. fault ≡ NoMemory) }
    ensures sound { IsSound (data_of entries.old) → OnOk result (IsSound (data_of entries.new)) }
    ensures held { IsHeld (data_of entries.old) → OnOk result (IsHeld (data_of entries.new)) }
    ensures shorter { IfOk result (λ rest. length rest.now < length text.now) }
{
    if entries.sequences.len() >= MAX_SEQUENCES {
        return Err(Unread::NotCanonical);
    }
    let (sequence, rest) = sequence_at(alloc, text)?;
    add(&mut entries.sequences, sequence)?;
    entries.order.push(false)?;
    Ok(rest)
}
