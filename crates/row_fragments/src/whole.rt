//! Whether the slots of a row are a chain of its bytes, byte for byte.

ghost use Rattle.std.specs.Prelude.{◌≡◌, ◌≤◌, ◌<◌, ◌++◌, ◌↔◌, ℕ, List, take, drop, true, false, IfOk, IfSome, IfNone};
ghost use Rattle.storage.specs.Slots.{IsReadable, NeverFull};
ghost use Rattle.row_fragments.specs.Calls.{Looked};
ghost use Rattle.row_fragments.specs.Chains.{AreParts, IsBroken, IsWhole};
ghost use Rattle.row_fragments.specs.Fragments.{fragment_bytes, next_in};

use crate::fragment::{next, table, total};
use crate::read::{ends, read};
use crate::write::fragment;
use std::alloc::Global;
use storage::{SlotFault, Slots};

/// The most bytes in a fragment.
const MOST_IN_PART: u32 = 240;

/// The most bytes in a row: 125 fragments hold them.
const MOST_IN_ROW: u32 = 30_000;

/// Whether the slot is the fragment with these parts and the first `many` bytes of its content, byte
/// for byte.
fn is_fragment(slot: &[u8; 256], kind: u8, total: u32, table: u16, many: u32) -> bool
    requires { many ≤ 240 }
    ensures { result ≡ true ↔ slot.now ≡ fragment_bytes kind (next_in slot.now) total table (take many (drop 16 slot.now)) }
{
    fragment(
        kind,
        next(slot),
        total,
        table,
        &slot[16..16 + many as usize],
    ) == *slot
}

/// Adds the slots of the further fragments that hold the last `left` bytes of a row, from a slot on.
/// Whether they do: each of them but the last is full, and the last one names no other.
fn list_parts<S: Slots>(
    slots: &mut S,
    at: u32,
    left: u32,
    into: &mut Vec<u32>,
) -> Result<bool, SlotFault>
    ensures yes { IfOk result (λ whole. whole ≡ true → IsReadable (S.Slots.state slots.old) → (parts : List ℕ) × (into.new.items ≡ into.old.items ++ parts) × AreParts (S.Slots.state slots.old).reads at left parts) }
    ensures no { IfOk result (λ whole. whole ≡ false → IsReadable (S.Slots.state slots.old) → (parts : List ℕ) → ¬ AreParts (S.Slots.state slots.old).reads at left parts) }
    ensures looked { Looked (S.Slots.state slots.old) (S.Slots.state slots.new) (S.Slots.stop slots.old) (S.Slots.stop slots.new) result }
    ensures only { NeverFull result }
{
    if left == 0 {
        return Ok(at == 0);
    }
    if ends(at) {
        return Ok(false);
    }
    let mut slot = [0u8; 256];
    read(slots, at, &mut slot)?;
    let many = left.min(MOST_IN_PART);
    if !is_fragment(&slot, 2, 0, 0, many) {
        return Ok(false);
    }
    match into.push(at) {
        Ok(()) => {}
        Err(_) => return Err(SlotFault::NoMemory),
    }
    match list_parts(slots, next(&slot), left - many, into) {
        Ok(whole) => Ok(whole),
        Err(fault) => Err(fault),
    }
}

/// The slots of the row that begins in the slot, in order, where they are a chain of its bytes. None
/// where they are not, and where no row begins. It reads each of them once.
pub fn whole_chain<S: Slots>(
    alloc: Global,
    slots: &mut S,
    row: u32,
) -> Result<Option<Vec<u32>>, SlotFault>
    ensures whole { IfOk result (λ found. IfSome found (λ chain. IsReadable (S.Slots.state slots.old) → IsWhole (S.Slots.state slots.old).reads row chain.items)) }
    ensures broken { IfOk result (λ found. IfNone found (IsReadable (S.Slots.state slots.old) → IsBroken (S.Slots.state slots.old).reads row)) }
    ensures looked { Looked (S.Slots.state slots.old) (S.Slots.state slots.new) (S.Slots.stop slots.old) (S.Slots.stop slots.new) result }
    ensures only { NeverFull result }
{
    if ends(row) {
        return Ok(None);
    }
    let mut slot = [0u8; 256];
    read(slots, row, &mut slot)?;
    let long = total(&slot);
    if long > MOST_IN_ROW {
        return Ok(None);
    }
    let many = long.min(MOST_IN_PART);
    if !is_fragment(&slot, 1, long, table(&slot), many) {
        return Ok(None);
    }
    let mut chain = Vec::new(alloc);
    match chain.push(row) {
        Ok(()) => {}
        Err(_) => return Err(SlotFault::NoMemory),
    }
    match list_parts(slots, next(&slot), long - many, &mut chain) {
        Ok(whole) => {
            if !whole {
                return Ok(None);
            }
            Ok(Some(chain))
        }
        Err(fault) => Err(fault),
    }
}
