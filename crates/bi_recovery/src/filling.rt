//! Whether slots have a gap past the end of area 0.

ghost use Rattle.std.specs.Prelude.{◌≡◌, ◌<◌, ◌≤◌, ℕ, true};
ghost use Rattle.storage.specs.Slots.{wrote};

use storage::Undo;

/// Whether each slot from `extent` up to any of these is one of these. It is one pass over them:
/// where the slots do not ascend, it may miss that they have no gap.
pub fn is_filled(slots: &[Undo], extent: u64) -> bool
    ensures { result ≡ true → (s k : ℕ) → wrote slots.now s ≡ true → extent ≤ k → k < s → wrote slots.now k ≡ true }
{
    let mut end = extent;
    for u in slots {
        let slot = u.slot as u64;
        if slot > end {
            return false;
        }
        end = end.max(slot + 1);
    }
    true
}
