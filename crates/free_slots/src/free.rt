//! The free slots.

ghost use Rattle.std.specs.Prelude.{◌≡◌, ◌<◌, ◌≤◌, ◌+◌, ◌-◌, ◌++◌, ◌==◌, if◌then◌else◌, ℕ, List, length, IfSome, IfNone, OnSome, OnOk, OnErr};
ghost use Rattle.std.specs.List.{All, Contains};
ghost use Rattle.std.specs.BinaryHeap.{IsHeap, heap_capacity, heap_items, heap_len};
ghost use Rattle.std.specs.Ordering.{nat_cmp};
ghost use Rattle.std.specs.Vec.{vec_capacity};
ghost use Rattle.std.proofs.Props.{props};
ghost use Rattle.free_slots.specs.Free.{AreDifferent, AreSlots, Takes, free_in, times, without};

use std::alloc::{AllocError, Global};
use std::collections::BinaryHeap;

/// The last slot for rows.
const LAST_SLOT: u32 = 1_048_575;

/// The free slots among those from 8,192 to 1,048,575: all from `end` on, and those in `back` below
/// it. `back` contains each slot as its distance from the last slot, so that the greatest number of the
/// heap is the lowest slot.
#[derive(Drop)]
pub struct FreeSlots {
    back: BinaryHeap<u32>,
    end: u32,
    ghost ordered: { IsHeap nat_cmp (heap_items back) } by { Prim.hlevel props },
    ghost low: { 8192 ≤ end },
    ghost high: { end ≤ 1048576 },
    ghost inside: { All (λ y. (1048575 < end + y) × (y ≤ 1040383)) (heap_items back) },
    ghost once: { (x : ℕ) → times x (heap_items back) ≤ 1 },
}

impl FreeSlots {
    /// All slots from `end` on. It takes no memory.
    pub fn above(alloc: Global, end: u32) -> FreeSlots
        requires low { 8192 ≤ end }
        requires high { end ≤ 1048576 }
        ensures free { (k : ℕ) → end ≤ k → k < 1048576 → free_in (heap_items result.back) result.end k ≡ 1 }
        ensures none { (k : ℕ) → k < end → free_in (heap_items result.back) result.end k ≡ 0 }
    {
        FreeSlots {
            back: BinaryHeap::new(alloc),
            end,
        }
    }

    /// The number of free slots: no list of different free slots is longer.
    pub fn count(&self) -> usize
        ensures count { result ≡ heap_len self.now.back + (1048576 - self.now.end) }
        ensures most { (slots : List ℕ) → AreDifferent slots → ((k : ℕ) → Contains slots k → free_in (heap_items self.now.back) self.now.end k ≡ 1) → length slots ≤ result }
    {
        self.back.len() + (LAST_SLOT + 1 - self.end) as usize
    }

    /// Takes memory to give `more` slots back. The free slots stay as they are.
    pub fn reserve(&mut self, more: usize) -> Result<(), AllocError>
        ensures free { (k : ℕ) → free_in (heap_items self.new.back) self.new.end k ≡ free_in (heap_items self.old.back) self.old.end k }
        ensures count { heap_len self.new.back + (1048576 - self.new.end) ≡ heap_len self.old.back + (1048576 - self.old.end) }
        ensures room { OnOk result (heap_len self.new.back + more ≤ heap_capacity self.new.back) }
    {
        self.back.reserve(more)
    }

    /// Draws the lowest free slot, if there is one. It takes no memory.
    pub fn draw(&mut self) -> Option<u32>
        ensures free { IfSome result (λ slot. free_in (heap_items self.old.back) self.old.end slot ≡ 1) }
        ensures lowest { IfSome result (λ slot. (k : ℕ) → k < slot → free_in (heap_items self.old.back) self.old.end k ≡ 0) }
        ensures left { IfSome result (λ slot. (k : ℕ) → free_in (heap_items self.new.back) self.new.end k ≡ without slot (free_in (heap_items self.old.back) self.old.end) k) }
        ensures count { OnSome result (heap_len self.new.back + (1048576 - self.new.end) + 1 ≡ heap_len self.old.back + (1048576 - self.old.end)) }
        ensures inside { IfSome result (λ slot. (8192 ≤ slot) × (slot < 1048576)) }
        ensures none { IfNone result (heap_len self.old.back + (1048576 - self.old.end) ≡ 0) }
        ensures capacity { heap_capacity self.new.back ≡ heap_capacity self.old.back }
        ensures len { heap_len self.new.back ≤ heap_len self.old.back }
    {
        match self.back.pop() {
            Some(distance) => Some(LAST_SLOT - distance),
            None => {
                if self.end > LAST_SLOT {
                    return None;
                }
                let slot = self.end;
                self.end += 1;
                Some(slot)
            }
        }
    }

    /// Gives back a slot that is not free, for which memory is reserved.
    pub fn give(&mut self, slot: u32)
        requires low { 8192 ≤ slot }
        requires high { slot < 1048576 }
        requires taken { free_in (heap_items self.old.back) self.old.end slot ≡ 0 }
        requires room { heap_len self.old.back < heap_capacity self.old.back }
        ensures free { (k : ℕ) → free_in (heap_items self.new.back) self.new.end k ≡ (if k == slot then 1 else free_in (heap_items self.old.back) self.old.end k) }
        ensures count { heap_len self.new.back + (1048576 - self.new.end) ≡ heap_len self.old.back + (1048576 - self.old.end) + 1 }
        ensures capacity { heap_capacity self.old.back ≤ heap_capacity self.new.back }
        ensures len { heap_len self.new.back ≡ heap_len self.old.back + 1 }
    {
        self.back.push(LAST_SLOT - slot).unwrap();
    }

    /// Draws the `many` lowest free slots after those of the list, which has room for them. It takes
    /// no memory.
    pub fn take(&mut self, many: u32, into: &mut Vec<u32>)
        requires some { many ≤ heap_len self.old.back + (1048576 - self.old.end) }
        requires room { length into.old.items + many ≤ vec_capacity into.old }
        ensures drawn { (drawn : List ℕ) × (into.new.items ≡ into.old.items ++ drawn) × (length drawn ≡ many) × AreSlots drawn ×
            Takes (free_in (heap_items self.old.back) self.old.end) drawn (free_in (heap_items self.new.back) self.new.end) }
        ensures count { heap_len self.new.back + (1048576 - self.new.end) + many ≡ heap_len self.old.back + (1048576 - self.old.end) }
        ensures capacity { heap_capacity self.new.back ≡ heap_capacity self.old.back }
        ensures len { heap_len self.new.back ≤ heap_len self.old.back }
    {
        if many == 0 {
            return;
        }
        match self.draw() {
            None => unreachable!(),
            Some(slot) => {
                into.push(slot).unwrap();
                self.take(many - 1, into);
            }
        }
    }

    /// Gives back slots that were drawn, for which memory is reserved: the free slots are those of
    /// before.
    pub fn give_all(&mut self, slots: &[u32])
        requires slots { AreSlots slots.now }
        requires drawn { (before : ℕ → ℕ) × Takes before slots.now (free_in (heap_items self.old.back) self.old.end) }
        requires room { heap_len self.old.back + length slots.now ≤ heap_capacity self.old.back }
        ensures free { (before : ℕ → ℕ) → Takes before slots.now (free_in (heap_items self.old.back) self.old.end) →
            (k : ℕ) → free_in (heap_items self.new.back) self.new.end k ≡ before k }
        ensures count { heap_len self.new.back + (1048576 - self.new.end) ≡ heap_len self.old.back + (1048576 - self.old.end) + length slots.now }
        ensures capacity { heap_capacity self.old.back ≤ heap_capacity self.new.back }
        ensures len { heap_len self.new.back ≡ heap_len self.old.back + length slots.now }
    {
        match slots.split_first() {
            None => {}
            Some((first, rest)) => {
                self.give_all(rest);
                self.give(*first);
            }
        }
    }
}
