//! Which slots have frames, and which frames may be given away.

ghost use Rattle.std.specs.Prelude.{◌≡◌, ◌+◌, ◌<◌, ◌≤◌, ◌^◌, ℕ, true, false, Some, None, is_some, length, get_or, slice_get, IfSome, IfNone};
ghost use Rattle.std.specs.List.{list_any};
ghost use Rattle.std.specs.Option.{option_map};
ghost use Rattle.slot_area.specs.declared.frame.Frame.{Frame as OneFrame};
ghost use Rattle.slot_area.specs.Frames.{is_free};
ghost use Rattle.slot_area.specs.Held.{frame_in};

use crate::frame::Frame;
use crate::frames::Frames;

/// The bound, or one more than this slot where that is greater. A number past the last slot does not
/// count.
fn raised(bound: u32, slot: u32) -> u32
    requires { bound ≤ 2 ^ 20 }
    ensures above { bound ≤ result }
    ensures small { result ≤ 2 ^ 20 }
    ensures past { slot < 2 ^ 20 → slot < result }
{
    if slot < bound || slot >= 1_048_576 {
        return bound;
    }
    slot + 1
}

impl Frames {
    /// The number of frames.
    pub fn count(&self) -> usize
        ensures { result ≡ length self.now.frames.items }
    {
        self.frames.len()
    }

    /// The frame at a place, counted from 0.
    pub fn at(&self, index: usize) -> Frame
        requires { index < length self.now.frames.items }
        ensures { slice_get self.now.frames.items index ≡ Some result }
    {
        self.frames[index]
    }

    /// The place of the slot's frame, counted from 0.
    pub fn find(&self, slot: u32) -> Option<usize>
        requires { slot < 2 ^ 20 }
        ensures some { IfSome result (λ i. (f : OneFrame) × (slice_get self.now.frames.items i ≡ Some f) × (f.slot ≡ slot) × (get_or self.now.places.items slot 0 ≡ i + 1) × (frame_in self.now slot ≡ Some f)) }
        ensures none { IfNone result (frame_in self.now slot ≡ None) }
    {
        let place = self.places[slot as usize] as usize;
        if place == 0 {
            return None;
        }
        if place > self.frames.len() {
            return None;
        }
        if self.frames[place - 1].slot != slot {
            return None;
        }
        Some(place - 1)
    }

    /// The bytes of the slot's frame, if it has one.
    pub fn bytes_of(&self, slot: u32) -> Option<[u8; 256]>
        requires { slot < 2 ^ 20 }
        ensures { result ≡ option_map (λ f. f.bytes) (frame_in self.now slot) }
    {
        match self.find(slot) {
            None => None,
            Some(index) => Some(self.frames[index].bytes),
        }
    }

    /// Whether the slot has a frame.
    pub fn has(&self, slot: u32) -> bool
        requires { slot < 2 ^ 20 }
        ensures { result ≡ is_some (frame_in self.now slot) }
    {
        self.find(slot).is_some()
    }

    /// The place of a frame that may be given to another slot, from the hand on.
    fn free_between(&self, from: usize, to: usize, settled: u64) -> Option<usize>
        requires { to ≤ length self.now.frames.items }
        ensures some { IfSome result (λ i. (f : OneFrame) × (slice_get self.now.frames.items i ≡ Some f) × (is_free settled f ≡ true)) }
        ensures none { IfNone result ((i : ℕ) (f : OneFrame) → from ≤ i → i < to → slice_get self.now.frames.items i ≡ Some f → is_free settled f ≡ false) }
    {
        let mut i = from;
        'frames: while i < to {
            let frame = self.at(i);
            if frame.is_free(settled) {
                return Some(i);
            }
            i += 1;
        }
        None
    }

    /// The place of a frame that may be given to another slot.
    pub fn free_place(&self, settled: u64) -> Option<usize>
        ensures some { IfSome result (λ i. (f : OneFrame) × (slice_get self.now.frames.items i ≡ Some f) × (is_free settled f ≡ true)) }
        ensures found { is_some result ≡ list_any (is_free settled) self.now.frames.items }
    {
        match self.free_between(self.hand, self.frames.len(), settled) {
            Some(index) => Some(index),
            None => self.free_between(0, self.hand, settled),
        }
    }

    /// A number of slots, no less than `end` and at most 1,048,576: no slot from there on has a frame.
    pub fn bound(&self, end: u32) -> u32
        requires { end ≤ 2 ^ 20 }
        ensures above { end ≤ result }
        ensures small { result ≤ 2 ^ 20 }
        ensures none { (slot : ℕ) → result ≤ slot → slot < 2 ^ 20 → frame_in self.now slot ≡ None }
    {
        let count = self.frames.len();
        let mut bound = end;
        let mut i = 0;
        'frames: while i < count {
            let frame = self.at(i);
            bound = raised(bound, frame.slot);
            i += 1;
        }
        bound
    }
}
