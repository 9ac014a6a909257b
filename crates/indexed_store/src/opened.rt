//! A new store.

ghost use Rattle.std.specs.Prelude.{◌≡◌, ◌≤◌, ℕ, [], length, false, IsTrue, IfOk};
ghost use Rattle.storage.specs.Slots.{IsReadable};
ghost use Rattle.byte_rows.specs.Places.{HoldNothing};
ghost use Rattle.row_fragments.specs.Chains.{AreChains};
ghost use Rattle.sequence_slots.specs.Values.{HoldValues};
ghost use Rattle.slot_rows.specs.Chained.{StayChains};
ghost use Rattle.slot_rows.specs.State.{state_of};
ghost use Rattle.indexed_store.specs.State.{IsNewStore, initial_values, no_reserved, store_state};

use crate::sequences::first_values;
use crate::store::RecordStore;
use abl_base::limits::MAX_SEQUENCES;
use abl_values::Schema;
use row_keys::new_indexes;
use row_moves::idle_clients;
use row_store::RowFault;
use slot_rows::StoredRows;
use std::alloc::Global;
use storage::Slots;

/// The client whose first transaction stores the sequence values of a new store.
const FIRST_CLIENT: u16 = 0;

/// The rows of slots that hold nothing, after a transaction that stores these sequence values.
fn new_rows<S: Slots + Drop>(
    alloc: Global,
    slots: S,
    schema: Schema,
    values: &[i64],
) -> Result<StoredRows<S>, RowFault>
    requires idle { (c : ℕ) → ((S.Slots.state slots).transaction c).begun ≡ false }
    requires clean { (c : ℕ) → ((S.Slots.state slots).transaction c).undo ≡ [] }
    requires fine { (S.Slots.state slots).failed ≡ false }
    requires empty { IsReadable (S.Slots.state slots) → HoldNothing (S.Slots.state slots).reads }
    requires settled { IsReadable (S.Slots.state slots) → (k : ℕ) → (S.Slots.state slots).committed k ≡ (S.Slots.state slots).reads k }
    requires certain { IsReadable (S.Slots.state slots) → (k : ℕ) → (S.Slots.state slots).doubt k ≡ (S.Slots.state slots).committed k }
    requires stops { (IsTrue (S.Slots.state slots).observable → ∥ AreChains (S.Slots.state slots).committed ∥₁) → StayChains (S.Slots.stop slots) (S.Slots.state slots).since }
    requires none { IsReadable (S.Slots.state slots) → HoldValues (S.Slots.state slots).committed [] }
    requires values { values.now ≡ initial_values schema }
    requires few { length values.now ≤ 256 }
    ensures schema { IfOk result (λ rows. rows.schema ≡ schema) }
    ensures new { IfOk result (λ rows. IsNewStore (state_of rows.schema no_reserved values.now (S.Slots.state rows.chains.slots) rows.opens.items) schema) }
    ensures held { IfOk result (λ rows. IsTrue (S.Slots.state rows.chains.slots).observable → HoldValues (S.Slots.state rows.chains.slots).committed values.now) }
{
    let mut rows = match StoredRows::new(alloc, slots, schema) {
        Ok(rows) => rows,
        Err(_) => return Err(RowFault::NoMemory),
    };
    rows.begin(FIRST_CLIENT)?;
    rows.commit(FIRST_CLIENT, &[], values)?;
    Ok(rows)
}

impl<S: Slots + Drop> RecordStore<S> {
    /// The store of a new database over slots that hold nothing: it has no row, and each sequence has
    /// its initial value, which a first transaction stores. The errors are those of memory and the disk;
    /// more than 256 sequences, which no schema file gives, count as out of memory.
    pub fn new(alloc: Global, slots: S, schema: Schema) -> Result<RecordStore<S>, RowFault>
        requires idle { (c : ℕ) → ((S.Slots.state slots).transaction c).begun ≡ false }
        requires clean { (c : ℕ) → ((S.Slots.state slots).transaction c).undo ≡ [] }
        requires fine { (S.Slots.state slots).failed ≡ false }
        requires empty { IsReadable (S.Slots.state slots) → HoldNothing (S.Slots.state slots).reads }
        requires settled { IsReadable (S.Slots.state slots) → (k : ℕ) → (S.Slots.state slots).committed k ≡ (S.Slots.state slots).reads k }
        requires certain { IsReadable (S.Slots.state slots) → (k : ℕ) → (S.Slots.state slots).doubt k ≡ (S.Slots.state slots).committed k }
        requires stops { (IsTrue (S.Slots.state slots).observable → ∥ AreChains (S.Slots.state slots).committed ∥₁) → StayChains (S.Slots.stop slots) (S.Slots.state slots).since }
        requires none { IsReadable (S.Slots.state slots) → HoldValues (S.Slots.state slots).committed [] }
        ensures { IfOk result (λ store. IsNewStore (store_state store.rows.schema store.indexes.items store.sequences.items (S.Slots.state store.rows.chains.slots) store.rows.opens.items) schema) }
    {
        let indexes = match new_indexes(alloc, &schema) {
            Ok(indexes) => indexes,
            Err(_) => return Err(RowFault::NoMemory),
        };
        let clients = match idle_clients(alloc) {
            Ok(clients) => clients,
            Err(_) => return Err(RowFault::NoMemory),
        };
        let sequences = match first_values(alloc, &schema) {
            Ok(sequences) => sequences,
            Err(_) => return Err(RowFault::NoMemory),
        };
        if MAX_SEQUENCES < sequences.len() {
            return Err(RowFault::NoMemory);
        }
        let rows = new_rows(alloc, slots, schema, sequences.as_slice())?;
        Ok(RecordStore {
            alloc,
            rows,
            indexes,
            clients,
            sequences,
        })
    }
}
