//! Opening a new database.

ghost use Rattle.std.specs.Prelude.{◌≡◌, ◌≤◌, IfOk, map};
ghost use Rattle.abl_values.specs.declared.schema.SequenceDef.{SequenceDef as TheSequence};
ghost use Rattle.new_database.specs.New.{IsNew};

use crate::slots::MemSlots;
use abl_values::{Schema, SequenceDef};
use db_machine::Db;
use indexed_store::RecordStore;
use row_store::RowStore;
use std::alloc::{AllocError, Global};

/// Rows in slots in memory.
pub type NewStore = RecordStore<MemSlots>;

/// A database in memory.
pub type NewDatabase = Db<NewStore>;

/// A new database of the schema for 1 to 16 clients: it has no row, each sequence has its initial
/// value, and no client has requested anything. The store and the machine each have a schema of their
/// own, which is one schema. An error means out of memory; more than 256 sequences, which no schema file
/// gives, count as that. (This project's choice: a run begins with an empty database, and nothing of it
/// is kept.)
pub fn open(
    alloc: Global,
    schema: Schema,
    schema_of_rows: Schema,
    clients: u16,
) -> Result<NewDatabase, AllocError>
    requires few { clients ≤ 16 }
    requires same { schema_of_rows ≡ schema }
    ensures { IfOk result (λ db. IsNew (⟦<NewStore as RowStore>⟧.state db.rows) (⟦<NewStore as RowStore>⟧.left db.rows) (⟦<NewStore as RowStore>⟧.times db.rows) db schema clients) }
{
    let sequences = initial_values(alloc, schema.sequences())?;
    let slots = MemSlots::new(alloc)?;
    match RecordStore::new(alloc, slots, schema_of_rows) {
        Ok(rows) => match Db::new(alloc, rows, schema, sequences, clients) {
            Ok(database) => Ok(database),
            Err(_) => Err(AllocError),
        },
        Err(_) => Err(AllocError),
    }
}

/// The initial value of each sequence, in order.
fn initial_values(alloc: Global, sequences: &[SequenceDef]) -> Result<Vec<i64>, AllocError>
    ensures { IfOk result (λ values. values.items ≡ map (λ (s : TheSequence). s.initial) sequences.now) }
{
    let mut values = Vec::new(alloc);
    for sequence in sequences {
        values.push(sequence.initial)?;
    }
    Ok(values)
}
