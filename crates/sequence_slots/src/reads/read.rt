//! Reading the values from the slots.

ghost use Rattle.std.specs.Prelude.{◌≡◌, ◌≤◌, ◌<◌, ◌+◌, ℕ, List, [], length, get_or, IfOk, IfSome, MatchOption};
ghost use Rattle.storage.specs.Slots.{IsReadable, NeverFull};
ghost use Rattle.row_fragments.specs.Calls.{Looked};
ghost use Rattle.sequence_slots.specs.Values.{HoldValues, values_in};

use crate::have_64_bits;
use crate::reads::decode::{are_of, contents, values_from};
use std::alloc::{AllocError, Global};
use storage::{SlotFault, Slots};

/// The first slot of sequence values.
const FIRST_SLOT: u32 = 5000;

/// The nine slots of sequence values. Disk and out of memory are the only refusals.
fn nine_slots<S: Slots>(slots: &mut S, alloc: Global) -> Result<Vec<[u8; 256]>, SlotFault>
    ensures count { IfOk result (λ taken. length taken.items ≡ 9) }
    ensures bytes { IfOk result (λ taken. IsReadable (S.Slots.state slots.old) → (i : ℕ) → i < 9 → get_or taken.items i [] ≡ (S.Slots.state slots.old).reads (5000 + i)) }
    ensures looked { Looked (S.Slots.state slots.old) (S.Slots.state slots.new) (S.Slots.stop slots.old) (S.Slots.stop slots.new) result }
    ensures only { NeverFull result }
{
    let mut taken = Vec::new(alloc);
    for number in 0..9u32 {
        let mut slot = [0u8; 256];
        slots.read(FIRST_SLOT + number, &mut slot)?;
        if taken.push(slot).is_err() {
            return Err(SlotFault::NoMemory);
        }
    }
    Ok(taken)
}

/// The values that these nine slots hold, if they hold this many.
fn values_of(
    taken: &[[u8; 256]],
    count: usize,
    alloc: Global,
) -> Result<Option<Vec<i64>>, AllocError>
    requires nine { length taken.now ≡ 9 }
    requires few { count ≤ 270 }
    ensures count { IfOk result (λ found. IfSome found (λ values. length values.items ≡ count)) }
    ensures exact { IfOk result (λ found. (slots : ℕ → List ℕ) → ((i : ℕ) → i < 9 → get_or taken.now i [] ≡ slots (5000 + i)) →
        MatchOption found (¬ HoldValues slots (values_in count slots)) (λ values. (values.items ≡ values_in count slots) × HoldValues slots values.items)) }
{
    let bytes = contents(taken, alloc)?;
    if bytes.len() < 8 * count {
        return Ok(None);
    }
    let values = values_from(&bytes, count, alloc)?;
    have_64_bits(&values);
    if are_of(taken, &values) {
        Ok(Some(values))
    } else {
        Ok(None)
    }
}

/// The sequence values that the slots 5,000 to 5,008 hold, this many, if they hold so many, each slot
/// byte for byte. Disk and out of memory are the only refusals; nothing changes.
pub fn stored_values<S: Slots>(
    slots: &mut S,
    count: usize,
    alloc: Global,
) -> Result<Option<Vec<i64>>, SlotFault>
    requires { count ≤ 270 }
    ensures count { IfOk result (λ found. IfSome found (λ values. length values.items ≡ count)) }
    ensures exact { IfOk result (λ found. IsReadable (S.Slots.state slots.old) →
        MatchOption found (¬ HoldValues (S.Slots.state slots.old).reads (values_in count (S.Slots.state slots.old).reads))
        (λ values. (values.items ≡ values_in count (S.Slots.state slots.old).reads) × HoldValues (S.Slots.state slots.old).reads values.items)) }
    ensures looked { Looked (S.Slots.state slots.old) (S.Slots.state slots.new) (S.Slots.stop slots.old) (S.Slots.stop slots.new) result }
    ensures only { NeverFull result }
{
    let taken = nine_slots(slots, alloc)?;
    match values_of(&taken, count, alloc) {
        Ok(found) => Ok(found),
        Err(_) => Err(SlotFault::NoMemory),
    }
}
