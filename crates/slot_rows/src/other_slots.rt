//! The same store of rows over other slots.

ghost use Rattle.std.specs.Prelude.{◌≡◌, ℕ, [], false, IsTrue};
ghost use Rattle.storage.specs.Slots.{IsReadable};
ghost use Rattle.row_fragments.specs.Chains.{AreChains};
ghost use Rattle.slot_rows.specs.Chained.{StayChains};

use crate::rows::StoredRows;
use storage::Slots;

impl<S: Slots + Drop> StoredRows<S> {
    /// The same rows over other slots, which read the same. In neither is a transaction begun. It reads
    /// no slot and takes no memory.
    pub fn with_slots<T: Slots + Drop>(self, slots: T) -> StoredRows<T>
        requires ended { (c : ℕ) → ((S.Slots.state self.chains.slots).transaction c).begun ≡ false }
        requires fine_before { (S.Slots.state self.chains.slots).failed ≡ false }
        requires idle { (c : ℕ) → ((T.Slots.state slots).transaction c).begun ≡ false }
        requires clean { (c : ℕ) → ((T.Slots.state slots).transaction c).undo ≡ [] }
        requires fine { (T.Slots.state slots).failed ≡ false }
        requires settled { IsReadable (T.Slots.state slots) → (k : ℕ) → (T.Slots.state slots).committed k ≡ (T.Slots.state slots).reads k }
        requires certain { IsReadable (T.Slots.state slots) → (k : ℕ) → (T.Slots.state slots).doubt k ≡ (T.Slots.state slots).committed k }
        requires stops { (IsTrue (T.Slots.state slots).observable → ∥ AreChains (T.Slots.state slots).committed ∥₁) → StayChains (T.Slots.stop slots) (T.Slots.state slots).since }
        requires same { IsTrue (T.Slots.state slots).observable → IsTrue (S.Slots.state self.chains.slots).observable × ((T.Slots.state slots).reads ≡ (S.Slots.state self.chains.slots).reads) }
        ensures slots { result.chains.slots ≡ slots }
        ensures schema { result.schema ≡ self.schema }
        ensures opens { result.opens ≡ self.opens }
    {
        let StoredRows {
            alloc,
            chains,
            schema,
            opens,
            used,
        } = self;
        StoredRows {
            alloc,
            chains: chains.with_slots(slots),
            schema,
            opens,
            used,
        }
    }
}
