//! Reading a row.

ghost use Rattle.std.specs.Prelude.{◌≡◌, ◌≤◌, ◌<◌, ◌^◌, ◌++◌, ℕ, List, Some, None, MatchOption, OnOk, IfOk, IsErrOf};
ghost use Rattle.storage.specs.Slots.{SlotState, IsReadable, NeverFull, OnlyDisk};
ghost use Rattle.row_fragments.specs.Fragments.{begins, bytes_from, content_in, ends, row_at};
ghost use Rattle.row_fragments.specs.Calls.{Looked};

use crate::fragment::{next, table, used};
use std::alloc::{AllocError, Global};
use storage::{SlotFault, Slots};

/// A row's table and bytes.
#[derive(Drop)]
pub struct StoredRow {
    pub table: u16,
    pub bytes: Vec<u8>,
}

/// Adds the content of a slot.
fn push_content(slot: &[u8; 256], into: &mut Vec<u8>) -> Result<(), AllocError>
    ensures { OnOk result (into.new.items ≡ into.old.items ++ content_in slot.now) }
{
    let many = used(slot);
    into.extend_from_slice(&slot[16..16 + many])
}

/// Reads one slot.
pub(crate) fn read<S: Slots>(slots: &mut S, at: u32, into: &mut [u8; 256]) -> Result<(), SlotFault>
    requires { at < 2 ^ 20 }
    ensures bytes { OnOk result (IsReadable (S.Slots.state slots.old) → into.new ≡ (S.Slots.state slots.old).reads at) }
    ensures looked { Looked (S.Slots.state slots.old) (S.Slots.state slots.new) (S.Slots.stop slots.old) (S.Slots.stop slots.new) result }
    ensures only { OnlyDisk result }
{
    slots.read(at, into)
}

/// Whether a chain ends at the number.
pub(crate) fn ends(at: u32) -> bool
    ensures { result ≡ ends at }
{
    at < 8192 || 1_048_576 <= at
}

/// Whether a row begins in the slot with these bytes. A number outside the slots for rows is no
/// row. It takes no memory, and Disk is its only refusal.
pub fn begins<S: Slots>(slots: &mut S, row: u32) -> Result<bool, SlotFault>
    ensures begins { IfOk result (λ found. IsReadable (S.Slots.state slots.old) →
        found ≡ begins (S.Slots.state slots.old).reads row) }
    ensures looked { Looked (S.Slots.state slots.old) (S.Slots.state slots.new) (S.Slots.stop slots.old) (S.Slots.stop slots.new) result }
    ensures only { OnlyDisk result }
{
    if ends(row) {
        return Ok(false);
    }
    let mut slot = [0u8; 256];
    read(slots, row, &mut slot)?;
    Ok(slot[0] == 1)
}

/// Adds the bytes of at most `most` fragments from a slot on.
fn read_from<S: Slots>(
    slots: &mut S,
    at: u32,
    most: u8,
    into: &mut Vec<u8>,
) -> Result<(), SlotFault>
    ensures bytes { OnOk result (IsReadable (S.Slots.state slots.old) →
        into.new.items ≡ into.old.items ++ bytes_from most (S.Slots.state slots.old).reads at) }
    ensures looked { Looked (S.Slots.state slots.old) (S.Slots.state slots.new) (S.Slots.stop slots.old) (S.Slots.stop slots.new) result }
    ensures only { NeverFull result }
{
    if most == 0 {
        return Ok(());
    }
    if ends(at) {
        return Ok(());
    }
    let mut slot = [0u8; 256];
    read(slots, at, &mut slot)?;
    match push_content(&slot, into) {
        Ok(()) => {}
        Err(_) => return Err(SlotFault::NoMemory),
    }
    read_from(slots, next(&slot), most - 1, into)?;
    Ok(())
}

/// The row that begins at the slot, if one does. After an error nothing has changed. A row of one
/// fragment reads one slot, and each byte is copied once.
pub fn read_row<S: Slots>(
    alloc: Global,
    slots: &mut S,
    row: u32,
) -> Result<Option<StoredRow>, SlotFault>
    ensures row { IfOk result (λ found. IsReadable (S.Slots.state slots.old) →
        MatchOption found (row_at (S.Slots.state slots.old).reads row ≡ None)
        (λ stored. row_at (S.Slots.state slots.old).reads row ≡ Some (record { table = stored.table; bytes = stored.bytes.items }))) }
    ensures looked { Looked (S.Slots.state slots.old) (S.Slots.state slots.new) (S.Slots.stop slots.old) (S.Slots.stop slots.new) result }
    ensures only { NeverFull result }
{
    if ends(row) {
        return Ok(None);
    }
    let mut slot = [0u8; 256];
    read(slots, row, &mut slot)?;
    if slot[0] != 1 {
        return Ok(None);
    }
    let mut bytes = Vec::new(alloc);
    match push_content(&slot, &mut bytes) {
        Ok(()) => {}
        Err(_) => return Err(SlotFault::NoMemory),
    }
    read_from(slots, next(&slot), 124, &mut bytes)?;
    Ok(Some(StoredRow {
        table: table(&slot),
        bytes,
    }))
}
