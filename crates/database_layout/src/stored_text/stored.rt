//! The text that the slots of a database hold.

ghost use Rattle.std.specs.Prelude.{◌≡◌, ℕ, List, drop, Some, IfOk, IfSome};
ghost use Rattle.storage.specs.Slots.{IsReadable, NeverFull};
ghost use Rattle.abl_values.specs.Rows.{number_at_head};
ghost use Rattle.row_fragments.specs.Calls.{Looked};
ghost use Rattle.database_layout.specs.stored_text.Held.{HoldText};

use crate::fresh::text_slots::slot_count;
use crate::stored_text::first_slots::first_slots;
use crate::stored_text::texts::text_of;
use abl_base::Bytes;
use byteorder::{BigEndian, ByteOrder};
use std::alloc::Global;
use storage::{SlotFault, Slots};

/// The most bytes that the text of a schema has.
const MOST_BYTES: u32 = 1_048_576;

/// The length that a first slot has.
#[tactic(auto, unfolding(abl_values::specs::Rows::number_at_head))]
fn length_in(slot: &[u8; 256]) -> u32
    ensures { result ≡ number_at_head 4 (drop 8 slot.now) }
{
    BigEndian::read_u32(&slot[8..])
}

/// The text of the schema that the slots hold, byte for byte and in the least number of slots, if
/// they hold one. Disk and out of memory are the only refusals.
pub fn stored_text<S: Slots>(slots: &mut S, alloc: Global) -> Result<Option<Bytes>, SlotFault>
    ensures is { IfOk result (λ found. IsReadable (S.Slots.state slots.old) → IfSome found (λ text. HoldText (S.Slots.state slots.old).reads text)) }
    ensures held { IfOk result (λ found. IsReadable (S.Slots.state slots.old) → ((text : List ℕ) → HoldText (S.Slots.state slots.old).reads text → found ≡ Some text)) }
    ensures looked { Looked (S.Slots.state slots.old) (S.Slots.state slots.new) (S.Slots.stop slots.old) (S.Slots.stop slots.new) result }
    ensures only { NeverFull result }
{
    let mut first = [0u8; 256];
    slots.read(1, &mut first)?;
    let bytes = length_in(&first);
    if bytes > MOST_BYTES {
        return Ok(None);
    }
    let taken = first_slots(slots, slot_count(bytes as usize), alloc)?;
    match text_of(&taken, bytes as usize, alloc) {
        Ok(found) => Ok(found),
        Err(_) => Err(SlotFault::NoMemory),
    }
}
