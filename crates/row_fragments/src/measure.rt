//! The table and the length of a row, read without memory.

ghost use Rattle.std.specs.Prelude.{◌≡◌, ◌≤◌, ◌*◌, length, IfOk, IfSome, OnOk};
ghost use Rattle.storage.specs.Slots.{IsReadable, OnlyDisk};
ghost use Rattle.abl_values.specs.Keys.{AreBytes};
ghost use Rattle.row_fragments.specs.Calls.{Looked};
ghost use Rattle.row_fragments.specs.Fragments.{bytes_from, content_in, row_at};
ghost use Rattle.row_fragments.specs.Measures.{length_of, table_of};

use crate::fragment::{next, table, used};
use crate::read::{ends, read};
use storage::{SlotFault, Slots};

/// The table of the row that begins at the slot, if one does. It takes no memory, and Disk is its
/// only refusal.
pub fn row_table<S: Slots>(slots: &mut S, row: u32) -> Result<Option<u16>, SlotFault>
    ensures table { IfOk result (λ found. IsReadable (S.Slots.state slots.old) → found ≡ table_of (row_at (S.Slots.state slots.old).reads row)) }
    ensures looked { Looked (S.Slots.state slots.old) (S.Slots.state slots.new) (S.Slots.stop slots.old) (S.Slots.stop slots.new) result }
    ensures only { OnlyDisk result }
{
    if ends(row) {
        return Ok(None);
    }
    let mut slot = [0u8; 256];
    read(slots, row, &mut slot)?;
    if slot[0] != 1 {
        return Ok(None);
    }
    Ok(Some(table(&slot)))
}

/// The number of bytes of the row in this slot.
fn content_length(slot: &[u8; 256]) -> u32
    ensures is { result ≡ length (content_in slot.now) }
    ensures bytes { AreBytes (content_in slot.now) }
    ensures few { result ≤ 240 }
{
    used(slot) as u32
}

/// The number of bytes of at most `most` fragments from a slot on.
fn length_from<S: Slots>(slots: &mut S, at: u32, most: u8) -> Result<u32, SlotFault>
    ensures length { IfOk result (λ many. IsReadable (S.Slots.state slots.old) → many ≡ length (bytes_from most (S.Slots.state slots.old).reads at)) }
    ensures bytes { OnOk result (IsReadable (S.Slots.state slots.old) → AreBytes (bytes_from most (S.Slots.state slots.old).reads at)) }
    ensures few { IfOk result (λ many. many ≤ 240 * most) }
    ensures looked { Looked (S.Slots.state slots.old) (S.Slots.state slots.new) (S.Slots.stop slots.old) (S.Slots.stop slots.new) result }
    ensures only { OnlyDisk result }
{
    if most == 0 {
        return Ok(0);
    }
    if ends(at) {
        return Ok(0);
    }
    let mut slot = [0u8; 256];
    read(slots, at, &mut slot)?;
    let more = length_from(slots, next(&slot), most - 1)?;
    Ok(content_length(&slot) + more)
}

/// The number of bytes of the row that begins at the slot, if one does: at most 30,000. It takes no
/// memory, and Disk is its only refusal.
pub fn row_length<S: Slots>(slots: &mut S, row: u32) -> Result<Option<u32>, SlotFault>
    ensures length { IfOk result (λ found. IsReadable (S.Slots.state slots.old) → found ≡ length_of (row_at (S.Slots.state slots.old).reads row)) }
    ensures bytes { OnOk result (IsReadable (S.Slots.state slots.old) → IfSome (row_at (S.Slots.state slots.old).reads row) (λ stored. AreBytes stored.bytes)) }
    ensures few { IfOk result (λ found. IfSome found (λ many. many ≤ 30000)) }
    ensures looked { Looked (S.Slots.state slots.old) (S.Slots.state slots.new) (S.Slots.stop slots.old) (S.Slots.stop slots.new) result }
    ensures only { OnlyDisk result }
{
    if ends(row) {
        return Ok(None);
    }
    let mut slot = [0u8; 256];
    read(slots, row, &mut slot)?;
    if slot[0] != 1 {
        return Ok(None);
    }
    let more = length_from(slots, next(&slot), 124)?;
    Ok(Some(content_length(&slot) + more))
}
