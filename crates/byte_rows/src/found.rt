//! Reading the slots of a row and its table.

ghost use Rattle.std.specs.Prelude.{◌≡◌, ◌<◌, ℕ, length, IfOk};
ghost use Rattle.storage.specs.Slots.{IsReadable, NeverFull};
ghost use Rattle.row_fragments.specs.Calls.{Looked};
ghost use Rattle.row_fragments.specs.Fragments.{chain_of, first_or_zero, table_in};

use crate::release::read;
use crate::row::first;
use row_fragments::chain::chain;
use row_fragments::fragment::table;
use std::alloc::Global;
use storage::{SlotFault, Slots};

/// The slots that a row is read from, and its table.
#[derive(Drop)]
pub struct FoundChain {
    pub slots: Vec<u32>,
    pub table: u16,
}

/// The slots that the row is read from, the first of them its identity, and its table. Out of memory
/// comes too where the number is no slot for rows.
pub fn found_chain<S: Slots>(
    alloc: Global,
    slots: &mut S,
    row: u32,
) -> Result<FoundChain, SlotFault>
    ensures slots { IfOk result (λ found. IsReadable (S.Slots.state slots.old) → found.slots.items ≡ chain_of (S.Slots.state slots.old).reads row) }
    ensures table { IfOk result (λ found. IsReadable (S.Slots.state slots.old) → found.table ≡ table_in ((S.Slots.state slots.old).reads row)) }
    ensures first { IfOk result (λ found. first_or_zero found.slots.items ≡ row) }
    ensures low { IfOk result (λ found. 0 < row) }
    ensures looked { Looked (S.Slots.state slots.old) (S.Slots.state slots.new) (S.Slots.stop slots.old) (S.Slots.stop slots.new) result }
    ensures only { NeverFull result }
{
    if row < 8192 || 1_048_576 <= row {
        return Err(SlotFault::NoMemory);
    }
    let mut bytes = [0u8; 256];
    read(slots, row, &mut bytes)?;
    let found = chain(alloc, slots, row)?;
    if first(&found) != row {
        return Err(SlotFault::NoMemory);
    }
    Ok(FoundChain {
        slots: found,
        table: table(&bytes),
    })
}
