//! The same store over other slots.

ghost use Rattle.std.specs.Prelude.{◌≡◌, ℕ, [], false, IsTrue};
ghost use Rattle.storage.specs.Slots.{IsReadable, SlotState};
ghost use Rattle.abl_values.specs.Schema.{SchemaData};
ghost use Rattle.row_fragments.specs.Chains.{AreChains};
ghost use Rattle.slot_rows.specs.Chained.{StayChains};
ghost use Rattle.indexed_store.specs.Opened.{IsOpenedStore};
ghost use Rattle.indexed_store.specs.State.{store_state};

use crate::store::RecordStore;
use storage::Slots;

impl<S: Slots + Drop> RecordStore<S> {
    /// The same store over other slots, which read the same. In neither is a transaction begun. What
    /// was opened over slots that read the same is opened over these. It reads no slot and takes no
    /// memory.
    pub fn with_slots<T: Slots + Drop>(self, slots: T) -> RecordStore<T>
        requires ended { (c : ℕ) → ((S.Slots.state self.rows.chains.slots).transaction c).begun ≡ false }
        requires fine_before { (S.Slots.state self.rows.chains.slots).failed ≡ false }
        requires idle { (c : ℕ) → ((T.Slots.state slots).transaction c).begun ≡ false }
        requires clean { (c : ℕ) → ((T.Slots.state slots).transaction c).undo ≡ [] }
        requires fine { (T.Slots.state slots).failed ≡ false }
        requires settled { IsReadable (T.Slots.state slots) → (k : ℕ) → (T.Slots.state slots).committed k ≡ (T.Slots.state slots).reads k }
        requires certain { IsReadable (T.Slots.state slots) → (k : ℕ) → (T.Slots.state slots).doubt k ≡ (T.Slots.state slots).committed k }
        requires stops { (IsTrue (T.Slots.state slots).observable → ∥ AreChains (T.Slots.state slots).committed ∥₁) → StayChains (T.Slots.stop slots) (T.Slots.state slots).since }
        requires same { IsTrue (T.Slots.state slots).observable → IsTrue (S.Slots.state self.rows.chains.slots).observable × ((T.Slots.state slots).reads ≡ (S.Slots.state self.rows.chains.slots).reads) }
        ensures slots { result.rows.chains.slots ≡ slots }
        ensures opened { (schema : SchemaData) (old : SlotState) →
            IsOpenedStore (store_state self.rows.schema self.indexes.items self.sequences.items (S.Slots.state self.rows.chains.slots) self.rows.opens.items) schema old →
            (IsTrue (T.Slots.state slots).observable → IsTrue old.observable × ((T.Slots.state slots).reads ≡ old.reads)) →
            IsOpenedStore (store_state result.rows.schema result.indexes.items result.sequences.items (T.Slots.state result.rows.chains.slots) result.rows.opens.items) schema (T.Slots.state slots) }
    {
        let RecordStore {
            alloc,
            rows,
            indexes,
            clients,
            sequences,
        } = self;
        RecordStore {
            alloc,
            rows: rows.with_slots(slots),
            indexes,
            clients,
            sequences,
        }
    }
}
