//! Whether a database leaves the slots unused that belong to nothing.

ghost use Rattle.std.specs.Prelude.{◌≡◌, ◌≢◌, ◌<◌, false, IfOk, IsTrue};
ghost use Rattle.storage.specs.Slots.{IsReadable};
ghost use Rattle.row_fragments.specs.Calls.{Looked};
ghost use Rattle.database_layout.specs.contents.Contents.{zeros};
ghost use Rattle.disk_database.specs.Parts.{AreUnusedLeft, IsUnused};

use abl_base::limits::FIRST_ROW;
use storage::{SlotFault, Slots};

/// The first slot of sequence values, and the last one.
const FIRST_VALUES: u32 = 5000;

const LAST_VALUES: u32 = 5008;

/// Whether the slot belongs to nothing, where the text of the schema takes this many slots.
fn is_unused(text: u32, slot: u32) -> bool
    requires { slot < 8192 }
    ensures is { IsTrue result → IsUnused text slot }
    ensures used { result ≡ false → ¬ IsUnused text slot }
{
    if slot == 0 {
        return true;
    }
    if slot < FIRST_VALUES {
        return text < slot;
    }
    LAST_VALUES < slot
}

/// Whether the slot is zeros, if it belongs to nothing.
fn is_left<S: Slots>(slots: &mut S, text: u32, slot: u32) -> Result<bool, SlotFault>
    requires { slot < 8192 }
    ensures left { IfOk result (λ left. IsTrue left → IsReadable (S.Slots.state slots.old) → IsUnused text slot → (S.Slots.state slots.old).reads slot ≡ zeros) }
    ensures not { IfOk result (λ left. left ≡ false → IsReadable (S.Slots.state slots.old) → IsUnused text slot × ((S.Slots.state slots.old).reads slot ≢ zeros)) }
    ensures looked { Looked (S.Slots.state slots.old) (S.Slots.state slots.new) (S.Slots.stop slots.old) (S.Slots.stop slots.new) result }
{
    if !is_unused(text, slot) {
        return Ok(true);
    }
    let mut bytes = [0u8; 256];
    slots.read(slot, &mut bytes)?;
    Ok(bytes == [0u8; 256])
}

/// Whether each slot that belongs to nothing is zeros, where the text of the schema takes this many
/// slots.
pub(crate) fn are_unused_left<S: Slots>(slots: &mut S, text: u32) -> Result<bool, SlotFault>
    ensures left { IfOk result (λ left. IsTrue left → IsReadable (S.Slots.state slots.old) → AreUnusedLeft text (S.Slots.state slots.old).reads) }
    ensures not { IfOk result (λ left. left ≡ false → IsReadable (S.Slots.state slots.old) → ¬ AreUnusedLeft text (S.Slots.state slots.old).reads) }
    ensures looked { Looked (S.Slots.state slots.old) (S.Slots.state slots.new) (S.Slots.stop slots.old) (S.Slots.stop slots.new) result }
{
    for slot in 0..FIRST_ROW {
        if !is_left(slots, text, slot)? {
            return Ok(false);
        }
    }
    Ok(true)
}
