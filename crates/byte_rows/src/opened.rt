//! The free slots of a store that is opened.

ghost use Rattle.std.specs.Prelude.{◌≡◌, ◌<◌, ◌≤◌, ◌⊎◌, ℕ, length, IfOk};
ghost use Rattle.std.specs.BinaryHeap.{heap_items};
ghost use Rattle.free_slots.specs.Free.{free_in};
ghost use Rattle.byte_rows.specs.Freed.{IsFreed};

use crate::places::{Place, place_of};
use abl_base::limits::{FIRST_ROW, ROW_LIMIT};
use free_slots::FreeSlots;
use std::alloc::{AllocError, Global};

/// The number from which on no slot for rows is known to be taken.
pub fn end_of(places: &[Place]) -> u32
    ensures low { 8192 ≤ result }
    ensures high { result ≤ 1048576 }
    ensures rest { length places.now ≤ result ⊎ (result ≡ 1048576) }
{
    let many = places.len();
    if many < FIRST_ROW as usize {
        return FIRST_ROW;
    }
    if many < ROW_LIMIT as usize {
        return many as u32;
    }
    ROW_LIMIT
}

/// The slots for rows that belong to no row.
pub fn free_of(alloc: Global, places: &[Place]) -> Result<FreeSlots, AllocError>
    ensures { IfOk result (λ free. IsFreed (free_in (heap_items free.back) free.end) places.now) }
{
    let end = end_of(places);
    let mut free = FreeSlots::above(alloc, end);
    for slot in FIRST_ROW..end {
        if place_of(places, slot).row == 0 {
            free.reserve(1)?;
            free.give(slot);
        }
    }
    Ok(free)
}
