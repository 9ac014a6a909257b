//! What a client writes.

use abl_base::Bytes;

/// What a client writes at once. The sections of its output are the bytes of its pieces in order.
#[derive(Drop)]
pub enum Piece {
    /// The whole text of one PUT, EXPORT or MESSAGE, or one line about a fault, in the section of a
    /// named output, or in the default one.
    Wrote { section: Option<u32>, bytes: Bytes },
    /// OUTPUT TO a named output, whose section becomes empty unless it has APPEND.
    Opened { output: u32, append: bool },
}
