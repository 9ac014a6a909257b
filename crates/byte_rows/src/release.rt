//! What becomes of a slot once the transaction that wrote it has ended.

ghost use Rattle.std.specs.Prelude.{◌≡◌, ◌≢◌, ◌+◌, ◌<◌, ◌^◌, ℕ, length, true, false, IfOk, OnOk, OnErr};
ghost use Rattle.storage.specs.Slots.{IsReadable, NeverFull, OnlyDisk};
ghost use Rattle.row_fragments.specs.Calls.{Looked};
ghost use Rattle.row_fragments.specs.Fragments.{ends, kind_in};
ghost use Rattle.byte_rows.specs.Exact.{IsExact};
ghost use Rattle.byte_rows.specs.Places.{IsKept, IsLeft, no_place, owner_in, place_in, previous_in, row_in};

use crate::places::{Place, place_of, set_place};
use row_fragments::fragment::{kind, next};
use storage::{SlotFault, Slots};

/// Reads one slot.
pub(crate) fn read<S: Slots>(slots: &mut S, at: u32, into: &mut [u8; 256]) -> Result<(), SlotFault>
    requires { at < 2 ^ 20 }
    ensures bytes { OnOk result (IsReadable (S.Slots.state slots.old) → into.new ≡ (S.Slots.state slots.old).reads at) }
    ensures looked { Looked (S.Slots.state slots.old) (S.Slots.state slots.new) (S.Slots.stop slots.old) (S.Slots.stop slots.new) result }
    ensures only { OnlyDisk result }
{
    slots.read(at, into)
}

/// Whether the slot holds nothing. Then the slot before it does not point to it: where it does, or is
/// another client's, the answer is out of memory, since changes of whole rows leave no such slot.
fn is_left<S: Slots>(slots: &mut S, places: &[Place], slot: u32) -> Result<bool, SlotFault>
    requires { ends slot ≡ false }
    ensures left { IfOk result (λ left. left ≡ true → IsReadable (S.Slots.state slots.old) → IsLeft (S.Slots.state slots.old).reads places.now slot) }
    ensures held { IfOk result (λ left. left ≡ false → IsReadable (S.Slots.state slots.old) → kind_in ((S.Slots.state slots.old).reads slot) ≢ 0) }
    ensures looked { Looked (S.Slots.state slots.old) (S.Slots.state slots.new) (S.Slots.stop slots.old) (S.Slots.stop slots.new) result }
    ensures only { NeverFull result }
{
    let place = place_of(places, slot);
    let mut bytes = [0u8; 256];
    read(slots, slot, &mut bytes)?;
    if kind(&bytes) != 0 {
        return Ok(false);
    }
    let previous = place.previous;
    if previous < 8192 || 1_048_576 <= previous {
        return Ok(true);
    }
    let before = place_of(places, previous);
    if before.owner != 0 && before.owner != place.owner {
        return Err(SlotFault::NoMemory);
    }
    let mut bytes_before = [0u8; 256];
    read(slots, previous, &mut bytes_before)?;
    if next(&bytes_before) == slot {
        return Err(SlotFault::NoMemory);
    }
    Ok(true)
}

/// Frees the slot, which a transaction wrote that has ended, where it holds nothing; else it is no
/// client's change any more. It gives whether the slot is free. After an error nothing has changed.
/// Out of memory comes where the slot holds nothing and the slot before it points to it or is another
/// client's.
pub fn release<S: Slots>(
    slots: &mut S,
    places: &mut [Place],
    slot: u32,
    client: u16,
) -> Result<bool, SlotFault>
    requires known { IsKept (S.Slots.state slots.old) places.old }
    requires exact { IsExact (S.Slots.state slots.old) places.old }
    requires inside { ends slot ≡ false }
    requires within { slot < length places.old }
    requires own { owner_in places.old slot ≡ client + 1 }
    requires ended { ((S.Slots.state slots.old).transaction client).begun ≡ false }
    ensures known { OnOk result (IsKept (S.Slots.state slots.new) places.new) }
    ensures exact { OnOk result (IsExact (S.Slots.state slots.new) places.new) }
    ensures same { OnErr result (places.new ≡ places.old) }
    ensures freed { IfOk result (λ freed. freed ≡ true → place_in places.new slot ≡ no_place) }
    ensures taken { IfOk result (λ freed. freed ≡ false → (row_in places.new slot ≡ row_in places.old slot) × (owner_in places.new slot ≡ 0)) }
    ensures rest { OnOk result ((k : ℕ) → k ≢ slot → place_in places.new k ≡ place_in places.old k) }
    ensures long { length places.new ≡ length places.old }
    ensures looked { Looked (S.Slots.state slots.old) (S.Slots.state slots.new) (S.Slots.stop slots.old) (S.Slots.stop slots.new) result }
    ensures only { NeverFull result }
{
    let left = is_left(slots, places, slot)?;
    let place = place_of(places, slot);
    let to = if left {
        Place {
            row: 0,
            previous: 0,
            owner: 0,
        }
    } else {
        Place {
            row: place.row,
            previous: place.previous,
            owner: 0,
        }
    };
    set_place(places, slot, to);
    Ok(left)
}
