//! A new area, and whether it can take a slot.

ghost use Rattle.std.specs.Prelude.{◌≡◌, ◌<◌, ◌≤◌, ◌^◌, ℕ, List, true, Some, None, IfOk};
ghost use Rattle.slot_area.specs.Area.{below, view, unwritten, zeros, is_ready};

use crate::frames::Frames;
use crate::slot_area::SlotArea;
use std::alloc::{AllocError, Global};

impl SlotArea {
    /// No slot is in memory, and area 0 has the slots below `end`. It takes all memory that the area
    /// needs: 288 bytes for each frame, and 2 MiB.
    pub fn new(frames: u16, end: u32, alloc: Global) -> Result<SlotArea, AllocError>
        requires frames { 0 < frames }
        requires end { end ≤ 2 ^ 20 }
        ensures end { IfOk result (λ area. area.end ≡ end) }
        ensures view { IfOk result (λ area. (stored : List ℕ) (slot : ℕ) → view area stored slot ≡ below end stored slot) }
        ensures unwritten { IfOk result (λ area. (slot : ℕ) → unwritten area slot ≡ None) }
    {
        Ok(SlotArea {
            frames: Frames::new(frames, alloc)?,
            end,
        })
    }

    /// How many slots of area 0 count.
    pub fn end(&self) -> u32
        ensures end { result ≡ self.now.end }
        ensures high { result ≤ 2 ^ 20 }
    {
        self.end
    }

    /// A number of slots, at most 1,048,576: no slot from there on has a frame, and area 0 has none of
    /// them. So each of them reads zeros. It looks at each frame once, and makes no call of the disk.
    pub fn bound(&self) -> u32
        ensures small { result ≤ 2 ^ 20 }
        ensures blank { (stored : List ℕ) (slot : ℕ) → result ≤ slot → slot < 2 ^ 20 → view self.now stored slot ≡ zeros }
    {
        self.frames.bound(self.end)
    }

    /// Whether the slot has no frame, and area 0 does not have it. It reads zeros: neither a frame nor
    /// a call of the disk is needed for it.
    pub fn is_blank(&self, slot: u32) -> bool
        requires slot { slot < 2 ^ 20 }
        ensures zeros { result ≡ true → (stored : List ℕ) → view self.now stored slot ≡ zeros }
    {
        if slot < self.end {
            return false;
        }
        !self.frames.has(slot)
    }

    /// Whether the slot has a frame or can be given one, where the notes up to this number are
    /// settled.
    pub fn is_ready(&self, settled: u64, slot: u32) -> bool
        requires { slot < 2 ^ 20 }
        ensures { result ≡ is_ready self.now settled slot }
    {
        if self.frames.has(slot) {
            return true;
        }
        self.frames.free_place(settled).is_some()
    }

    /// Where all notes are settled, every slot can be given a frame.
    pub fn is_ready_when_settled(&self, settled: u64, slot: u32)
        ensures { ((k note : ℕ) → unwritten self.now k ≡ Some note → note ≤ settled) → is_ready self.now settled slot ≡ true }
    {}
}
