//! What holds of a store between two calls, as the contract of a function that does nothing.

ghost use Rattle.std.specs.Prelude.{◌≡◌, ℕ, ℤ, List, false};
ghost use Rattle.row_store.specs.Rows.{IsConsistent};
ghost use Rattle.slot_rows.specs.State.{Reserved, state_of};

use crate::rows::StoredRows;
use storage::Slots;

/// Transactions touched rows apart, a row without a change is as committed, and undoing a
/// transaction's changes gives what is committed: whatever keys the begun transactions reserve.
pub fn store_is_consistent<S: Slots + Drop>(rows: &StoredRows<S>)
    ensures { (reserved : Reserved) (sequences : List ℤ) →
        ((c : ℕ) → ((S.Slots.state rows.now.chains.slots).transaction c).begun ≡ false → reserved c ≡ (λ key. false)) →
        IsConsistent (state_of rows.now.schema reserved sequences (S.Slots.state rows.now.chains.slots) rows.now.opens.items) }
{}
