//! Frames made, changed and given to other slots.

ghost use Rattle.std.specs.Prelude.{◌≡◌, ◌+◌, ◌<◌, ◌^◌, ℕ, true, Some, None, length, get_or, slice_get, IfOk};
ghost use Rattle.std.specs.List.{list_any};
ghost use Rattle.slot_area.specs.declared.frame.Frame.{Frame as OneFrame};
ghost use Rattle.slot_area.specs.Frames.{is_free, Sets, SameBut};
ghost use Rattle.slot_area.specs.Held.{frame_in};

use crate::frame::Frame;
use crate::frames::Frames;
use std::alloc::{AllocError, Global};

/// A frame that has no slot: no place in a table leads to it.
fn blank() -> Frame
    ensures { result.note ≡ None }
{
    Frame {
        slot: 0,
        bytes: [0; 256],
        note: None,
    }
}

/// This many frames without a slot.
fn blank_frames(count: u16, alloc: Global) -> Result<Vec<Frame>, AllocError>
    ensures count { IfOk result (λ frames. length frames.items ≡ count) }
    ensures blank { IfOk result (λ frames. (i : ℕ) (f : OneFrame) → slice_get frames.items i ≡ Some f → f.note ≡ None) }
{
    let mut frames = Vec::with_capacity(alloc, count as usize)?;
    let mut i: u16 = 0;
    'frames: while i < count {
        frames.push(blank())?;
        i += 1;
    }
    Ok(frames)
}

/// A table in which no slot has a frame.
fn no_places(alloc: Global) -> Result<Vec<u16>, AllocError>
    ensures count { IfOk result (λ places. length places.items ≡ 1048576) }
    ensures none { IfOk result (λ places. (slot : ℕ) → get_or places.items slot 0 ≡ 0) }
{
    vec![in alloc; 0u16; 1_048_576]
}

impl Frames {
    /// This many frames, of which none has a slot.
    pub fn new(count: u16, alloc: Global) -> Result<Frames, AllocError>
        requires { 0 < count }
        ensures empty { IfOk result (λ frames. (slot : ℕ) → frame_in frames slot ≡ None) }
        ensures free { IfOk result (λ frames. (settled : ℕ) → list_any (is_free settled) frames.frames.items ≡ true) }
    {
        let frames = blank_frames(count, alloc)?;
        let places = no_places(alloc)?;
        Ok(Frames {
            frames,
            places,
            hand: 0,
        })
    }

    /// Changes the frame of a slot, which is at this place.
    pub fn change(&mut self, index: usize, frame: Frame)
        requires index { index < length self.old.frames.items }
        requires place { get_or self.old.places.items frame.slot 0 ≡ index + 1 }
        requires own { (f : OneFrame) → slice_get self.old.frames.items index ≡ Some f → f.slot ≡ frame.slot }
        ensures { Sets frame.slot frame (frame_in self.old) (frame_in self.new) }
    {
        self.frames[index] = frame;
    }

    /// Area 0 has the bytes of the changed frame at this place.
    pub fn set_written(&mut self, index: usize)
        requires { index < length self.old.frames.items }
        ensures sets { (f : OneFrame) (note : ℕ) → slice_get self.old.frames.items index ≡ Some f → f.note ≡ Some note
            → Sets f.slot (record { slot = f.slot; bytes = f.bytes; note = None }) (frame_in self.old) (frame_in self.new) }
        ensures written { (f : OneFrame) → slice_get self.new.frames.items index ≡ Some f → f.note ≡ None }
        ensures others { SameBut index self.old.frames.items self.new.frames.items }
        ensures count { length self.new.frames.items ≡ length self.old.frames.items }
    {
        let mut frame = self.at(index);
        frame.note = None;
        self.frames[index] = frame;
    }

    /// Gives the frame at this place, which has no change, to a slot that has none.
    pub fn replace(&mut self, index: usize, frame: Frame)
        requires index { index < length self.old.frames.items }
        requires slot { frame.slot < 2 ^ 20 }
        requires absent { frame_in self.old frame.slot ≡ None }
        requires unchanged { (f : OneFrame) → slice_get self.old.frames.items index ≡ Some f → f.note ≡ None }
        ensures { Sets frame.slot frame (frame_in self.old) (frame_in self.new) }
    {
        self.places[frame.slot as usize] = index as u16 + 1;
        self.frames[index] = frame;
        self.hand = index + 1;
    }
}
