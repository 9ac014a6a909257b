//! The first slots of a database, in memory.

ghost use Rattle.std.specs.Prelude.{◌≡◌, ◌<◌, ◌+◌, ◌^◌, ℕ, [], length, get_or, IfOk};
ghost use Rattle.storage.specs.Slots.{IsReadable, NeverFull};
ghost use Rattle.row_fragments.specs.Calls.{Looked};

use std::alloc::Global;
use storage::{SlotFault, Slots};

/// The slots from 1 on, this many. Disk and out of memory are the only refusals.
pub fn first_slots<S: Slots>(
    slots: &mut S,
    count: u32,
    alloc: Global,
) -> Result<Vec<[u8; 256]>, SlotFault>
    requires { count < 5000 }
    ensures count { IfOk result (λ taken. length taken.items ≡ count) }
    ensures bytes { IfOk result (λ taken. IsReadable (S.Slots.state slots.old) → ((i : ℕ) → i < count → get_or taken.items i [] ≡ (S.Slots.state slots.old).reads (i + 1))) }
    ensures looked { Looked (S.Slots.state slots.old) (S.Slots.state slots.new) (S.Slots.stop slots.old) (S.Slots.stop slots.new) result }
    ensures only { NeverFull result }
{
    let mut taken = Vec::new(alloc);
    for i in 0..count {
        let mut slot = [0u8; 256];
        slots.read(i + 1, &mut slot)?;
        if taken.push(slot).is_err() {
            return Err(SlotFault::NoMemory);
        }
    }
    Ok(taken)
}
