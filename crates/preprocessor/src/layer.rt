//! A text that is being read, or a part of one.

ghost use Rattle.std.specs.Prelude.{◌+◌, ◌≤◌, ◌^◌, length};

use crate::mode::Mode;
use crate::texts::Mark;
use abl_base::{Items, Place};

/// A text that is being read, or the inside of a reference, the line of a definition, or a
/// condition.
#[derive(Drop)]
pub struct Layer<'a> {
    pub mode: Mode,
    /// The place of the reference or word that it waits for.
    pub start: Place,
    /// The place of what is next.
    pub at: Place,
    /// What is next.
    pub rest: &'a [u8],
    pub given: Items<Mark>,
    ghost lines: { at.line + length rest.now ≤ 2 ^ 30 },
    ghost columns: { at.column + length rest.now ≤ 2 ^ 30 },
    ghost comments: { mode.comments + length rest.now ≤ 2 ^ 30 },
}
