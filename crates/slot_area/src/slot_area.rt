//! The slots of area 0, some of them in memory.

ghost use Rattle.std.specs.Prelude.{◌≤◌};

use crate::frames::Frames;

/// The slots of area 0. Some of them have a frame in memory, and a changed one stays there until its
/// note is settled. The slots of area 0 from `end` on do not count yet: they read zeros.
#[derive(Drop)]
pub struct SlotArea {
    pub(crate) frames: Frames,
    pub(crate) end: u32,
    ghost high: { end ≤ 1048576 },
}
