//! The frames, and the table of their places.

ghost use Rattle.std.specs.Prelude.{◌≡◌, ◌<◌, ◌≤◌, length};
ghost use Rattle.slot_area.specs.Frames.{ArePlaced};

use crate::frame::Frame;

/// A fixed number of frames. All their memory is taken when they are made.
#[derive(Drop)]
pub struct Frames {
    pub(crate) frames: Vec<Frame>,
    /// For each slot the place of its frame, counted from 1. It counts only where the frame at that
    /// place has the slot, so it may be out of date.
    pub(crate) places: Vec<u16>,
    /// Where the search for a free frame begins.
    pub(crate) hand: usize,
    ghost sized: { length places.items ≡ 1048576 },
    ghost some: { 0 < length frames.items },
    ghost few: { length frames.items < 65536 },
    ghost within: { hand ≤ length frames.items },
    ghost placed: { ArePlaced frames.items places.items },
}
