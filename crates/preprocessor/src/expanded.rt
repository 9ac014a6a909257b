//! What a source expands to.

ghost use Rattle.std.specs.Prelude.{◌≡◌, IfOk};
ghost use Rattle.preprocessor.specs.Places.{line_starts, offset_of};

use crate::places::{line_starts, offset_of};
use abl_base::{Bytes, Items, Place};
use std::alloc::{AllocError, Global};

/// Where a byte of an expansion was taken from: the number of the text, and the place in it.
#[derive(Clone, Copy)]
pub struct Origin {
    pub text: u32,
    pub place: Place,
}

/// What a source expands to.
#[derive(Drop)]
pub struct Expansion {
    pub bytes: Bytes,
    /// Where each byte was taken from.
    pub origins: Items<Origin>,
    /// The end of the source.
    pub end: Place,
    // Where the lines of the bytes begin.
    starts: Items<usize>,
    ghost lines: { starts ≡ line_starts bytes },
}

impl Expansion {
    /// The expansion to these bytes, with their origins and the end of the source. Out of memory is
    /// the only error.
    pub fn new(
        alloc: Global,
        bytes: Bytes,
        origins: Items<Origin>,
        end: Place,
    ) -> Result<Expansion, AllocError>
        ensures bytes { IfOk result (λ e. e.bytes ≡ bytes) }
        ensures origins { IfOk result (λ e. e.origins ≡ origins) }
        ensures end { IfOk result (λ e. e.end ≡ end) }
    {
        let starts = line_starts(alloc, bytes.as_slice())?;
        Ok(Expansion {
            bytes,
            origins,
            end,
            starts,
        })
    }

    /// The offset of the first byte at this place, or the number of bytes where none is there.
    pub fn offset_of(&self, place: Place) -> usize
        ensures { result ≡ offset_of self.now.bytes place }
    {
        offset_of(self.bytes.as_slice(), self.starts.as_slice(), place)
    }
}
