//! The slots that a row is read from, and writing zeros into slots.

ghost use Rattle.std.specs.Prelude.{◌≡◌, ◌≤◌, ◌<◌, ◌+◌, ◌^◌, ◌++◌, ◌∷◌, [], length, replicate, OnOk, IfOk};
ghost use Rattle.storage.specs.Slots.{IsReadable, NeverFull, OnlyDisk};
ghost use Rattle.row_fragments.specs.Calls.{CanTouch, Looked, Touched, Wrote};
ghost use Rattle.row_fragments.specs.Fragments.{AreClear, chain_of, slots_from};

use crate::fragment::next;
use crate::read::{ends, read};
use crate::write::write_one;
use std::alloc::Global;
use storage::{SlotFault, Slots};

/// Adds the numbers of the slots of at most `most` fragments from a slot on.
fn list_from<S: Slots>(
    slots: &mut S,
    at: u32,
    most: u8,
    into: &mut Vec<u32>,
) -> Result<(), SlotFault>
    ensures slots { OnOk result (IsReadable (S.Slots.state slots.old) →
        into.new.items ≡ into.old.items ++ slots_from most (S.Slots.state slots.old).reads at) }
    ensures looked { Looked (S.Slots.state slots.old) (S.Slots.state slots.new) (S.Slots.stop slots.old) (S.Slots.stop slots.new) result }
    ensures only { NeverFull result }
{
    if most == 0 {
        return Ok(());
    }
    if ends(at) {
        return Ok(());
    }
    let mut slot = [0u8; 256];
    read(slots, at, &mut slot)?;
    match into.push(at) {
        Ok(()) => {}
        Err(_) => return Err(SlotFault::NoMemory),
    }
    list_from(slots, next(&slot), most - 1, into)?;
    Ok(())
}

/// The slots that the row is read from, in order: it begins at the first of them. After an error
/// nothing has changed.
pub fn chain<S: Slots>(alloc: Global, slots: &mut S, row: u32) -> Result<Vec<u32>, SlotFault>
    requires { row < 2 ^ 20 }
    ensures slots { IfOk result (λ chain. IsReadable (S.Slots.state slots.old) → chain.items ≡ chain_of (S.Slots.state slots.old).reads row) }
    ensures looked { Looked (S.Slots.state slots.old) (S.Slots.state slots.new) (S.Slots.stop slots.old) (S.Slots.stop slots.new) result }
    ensures only { NeverFull result }
{
    let mut slot = [0u8; 256];
    read(slots, row, &mut slot)?;
    let mut chain = Vec::new(alloc);
    match chain.push(row) {
        Ok(()) => {}
        Err(_) => return Err(SlotFault::NoMemory),
    }
    list_from(slots, next(&slot), 124, &mut chain)?;
    Ok(chain)
}

/// Writes zeros into these slots, the last one first. No row begins in a slot of zeros. It takes no
/// memory, and Disk is its only refusal.
pub fn clear<S: Slots>(slots: &mut S, client: u16, freed: &[u32]) -> Result<(), SlotFault>
    requires client { client < 16 }
    requires ready { CanTouch (S.Slots.state slots.old) client freed.now }
    ensures touched { Touched (S.Slots.state slots.old) (S.Slots.state slots.new) (S.Slots.stop slots.old) (S.Slots.stop slots.new) client result }
    ensures wrote { OnOk result (Wrote (S.Slots.state slots.old) (S.Slots.state slots.new) client freed.now) }
    ensures room { OnOk result (((S.Slots.state slots.old).transaction client).room ≤ ((S.Slots.state slots.new).transaction client).room + length freed.now) }
    ensures zeros { OnOk result (IsReadable (S.Slots.state slots.old) → AreClear (S.Slots.state slots.new).reads freed.now) }
    ensures only { OnlyDisk result }
{
    match freed.split_first() {
        None => Ok(()),
        Some((at, rest)) => {
            clear(slots, client, rest)?;
            write_one(slots, client, *at, &[0u8; 256])?;
            Ok(())
        }
    }
}
