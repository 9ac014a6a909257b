//! A store over slots that hold rows.

ghost use Rattle.std.specs.Prelude.{◌≡◌, ◌<◌, ◌≤◌, ℕ, [], length, false, IsTrue, IfOk, IfErr};
ghost use Rattle.storage.specs.Slots.{IsReadable};
ghost use Rattle.byte_rows.specs.Still.{Still};
ghost use Rattle.row_fragments.specs.Chains.{AreChains};
ghost use Rattle.sequence_slots.specs.Values.{HoldValues, values_in};
ghost use Rattle.slot_rows.specs.Chained.{HaveChains, StayChains};
ghost use Rattle.slot_rows.specs.Opens.{no_open, open_in};
ghost use Rattle.indexed_store.specs.Opened.{HoldStore, IsOpenedStore, IsRefused};
ghost use Rattle.indexed_store.specs.State.{store_state};

use crate::entering::indexes_of;
use crate::open_error::OpenError;
use crate::store::RecordStore;
use abl_base::limits::MAX_SEQUENCES;
use abl_values::Schema;
use row_moves::idle_clients;
use sequence_slots::reads::stored_values;
use slot_rows::StoredRows;
use std::alloc::Global;
use storage::Slots;

/// The rows of the slots, and the values that they hold for the sequences of the schema.
fn rows_and_values<S: Slots + Drop>(
    alloc: Global,
    mut slots: S,
    schema: Schema,
) -> Result<(StoredRows<S>, Vec<i64>), (OpenError, S)>
    requires idle { (c : ℕ) → ((S.Slots.state slots).transaction c).begun ≡ false }
    requires clean { (c : ℕ) → ((S.Slots.state slots).transaction c).undo ≡ [] }
    requires fine { (S.Slots.state slots).failed ≡ false }
    requires settled { IsReadable (S.Slots.state slots) → (k : ℕ) → (S.Slots.state slots).committed k ≡ (S.Slots.state slots).reads k }
    requires certain { IsReadable (S.Slots.state slots) → (k : ℕ) → (S.Slots.state slots).doubt k ≡ (S.Slots.state slots).committed k }
    requires stops { (IsTrue (S.Slots.state slots).observable → ∥ AreChains (S.Slots.state slots).committed ∥₁) → StayChains (S.Slots.stop slots) (S.Slots.state slots).since }
    ensures still { IfOk result (λ o. Still (S.Slots.state slots) (S.Slots.state o.0.chains.slots) (S.Slots.stop slots) (S.Slots.stop o.0.chains.slots)) }
    ensures schema { IfOk result (λ o. o.0.schema ≡ schema) }
    ensures none { IfOk result (λ o. (c : ℕ) → open_in o.0.opens.items c ≡ no_open) }
    ensures count { IfOk result (λ o. length o.1.items ≡ length schema.sequences) }
    ensures few { IfOk result (λ o. length o.1.items ≤ 256) }
    ensures values { IfOk result (λ o. IsTrue (S.Slots.state slots).observable → o.1.items ≡ values_in (length schema.sequences) (S.Slots.state slots).reads) }
    ensures held { IfOk result (λ o. IsTrue (S.Slots.state slots).observable → HoldValues (S.Slots.state slots).reads o.1.items) }
    ensures chains { IfOk result (λ o. IsTrue (S.Slots.state slots).observable → AreChains (S.Slots.state slots).reads) }
    ensures refused { IfErr result (λ e. IsRefused (S.Slots.state slots) (S.Slots.state e.1) (S.Slots.stop slots) (S.Slots.stop e.1) e.0) }
    ensures unsound { IfErr result (λ e. e.0 ≡ OpenError.Unsound → IsTrue (S.Slots.state slots).observable → ¬ HoldStore schema (S.Slots.state slots).reads) }
{
    let count = schema.sequences().len();
    if MAX_SEQUENCES < count {
        return Err((OpenError::NoMemory, slots));
    }
    let values = match stored_values(&mut slots, count, alloc) {
        Ok(Some(values)) => values,
        Ok(None) => return Err((OpenError::Unsound, slots)),
        Err(fault) => return Err((OpenError::of_slots(fault), slots)),
    };
    match StoredRows::open(slots, schema, alloc) {
        Ok(rows) => Ok((rows, values)),
        Err((fault, slots)) => Err((OpenError::of_opening(fault), slots)),
    }
}

impl<S: Slots + Drop> RecordStore<S> {
    /// The store of the rows and sequence values that these slots hold, with no transaction. A store
    /// that was closed with no transaction begun is opened again so. The slots come back with each
    /// error, and may be opened again unless the disk failed. More than 256 sequences, which no schema
    /// file gives, count as out of memory.
    pub fn open(alloc: Global, slots: S, schema: Schema) -> Result<RecordStore<S>, (OpenError, S)>
        requires idle { (c : ℕ) → ((S.Slots.state slots).transaction c).begun ≡ false }
        requires clean { (c : ℕ) → ((S.Slots.state slots).transaction c).undo ≡ [] }
        requires fine { (S.Slots.state slots).failed ≡ false }
        requires settled { IsReadable (S.Slots.state slots) → (k : ℕ) → (S.Slots.state slots).committed k ≡ (S.Slots.state slots).reads k }
        requires certain { IsReadable (S.Slots.state slots) → (k : ℕ) → (S.Slots.state slots).doubt k ≡ (S.Slots.state slots).committed k }
        requires stops { (IsTrue (S.Slots.state slots).observable → ∥ AreChains (S.Slots.state slots).committed ∥₁) → StayChains (S.Slots.stop slots) (S.Slots.state slots).since }
        ensures opened { IfOk result (λ store. IsOpenedStore (store_state store.rows.schema store.indexes.items store.sequences.items (S.Slots.state store.rows.chains.slots) store.rows.opens.items) schema (S.Slots.state slots)) }
        ensures still { IfOk result (λ store. Still (S.Slots.state slots) (S.Slots.state store.rows.chains.slots) (S.Slots.stop slots) (S.Slots.stop store.rows.chains.slots)) }
        ensures refused { IfErr result (λ e. IsRefused (S.Slots.state slots) (S.Slots.state e.1) (S.Slots.stop slots) (S.Slots.stop e.1) e.0) }
        ensures unsound { IfErr result (λ e. e.0 ≡ OpenError.Unsound → IsTrue (S.Slots.state slots).observable → ¬ HoldStore schema (S.Slots.state slots).reads) }
    {
        let clients = match idle_clients(alloc) {
            Ok(clients) => clients,
            Err(_) => return Err((OpenError::NoMemory, slots)),
        };
        let (mut rows, sequences) = rows_and_values(alloc, slots, schema)?;
        match indexes_of(alloc, &mut rows) {
            Ok(indexes) => Ok(RecordStore {
                alloc,
                rows,
                indexes,
                clients,
                sequences,
            }),
            Err(error) => Err((error, rows.close())),
        }
    }

    /// The sequence values of the last commit.
    pub fn sequences(&self) -> &[i64]
        ensures { result.now ≡ self.now.sequences.items }
    {
        self.sequences.as_slice()
    }

    /// The slots again. Where no transaction is begun, they can be opened once more. What is committed
    /// in them, and what a stop leaves of them, are chains of rows, unless a stop at the first moment
    /// left the same.
    pub fn close(self) -> S
        ensures same { result ≡ self.rows.chains.slots }
        ensures chains { HaveChains (S.Slots.state result) (S.Slots.stop result) }
        ensures idle { (S.Slots.state result).failed ≡ false → ((c : ℕ) → c < 16 → ((S.Slots.state result).transaction c).begun ≡ false) → (c : ℕ) → (((S.Slots.state result).transaction c).begun ≡ false) × (((S.Slots.state result).transaction c).undo ≡ []) }
        ensures settled { IsReadable (S.Slots.state result) → ((c : ℕ) → ((S.Slots.state result).transaction c).undo ≡ []) → (k : ℕ) → (S.Slots.state result).committed k ≡ (S.Slots.state result).reads k }
    {
        let RecordStore {
            alloc: _,
            rows,
            indexes: _,
            clients: _,
            sequences: _,
        } = self;
        rows.close()
    }
}
