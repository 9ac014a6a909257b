//! The two streams that a program writes.

ghost use Rattle.std.specs.Prelude.{◌≡◌, is_ok};
ghost use Rattle.host_io.specs.Out.{OutState, Writes};

use thiserror::Error;

/// Where a piece is written.
#[derive(Clone, Copy, Debug, PartialEq, Eq)]
pub enum Stream {
    /// Stream 0, the report: standard output.
    Output,
    /// Stream 1, the lines on how a command ended: standard error.
    Diagnostics,
}

/// The output did not take the whole piece.
#[derive(Clone, Copy, Debug, PartialEq, Eq, Error)]
#[error("the output cannot be written")]
pub struct OutFailed;

/// Two streams of bytes.
pub trait Out {
    /// What was written to each stream, as far as it is known, and how often a write has failed.
    ghost state: { Self → OutState };

    /// How often a write has failed, at most 2^64 - 1.
    fn faults(&self) -> u64
        ensures { result ≡ (state self.now).faults };

    /// Appends the piece to the stream, and leaves the other as it was. After an error a prefix of
    /// the piece was appended, and the count of faults rose in this call. It takes no memory.
    fn write(&mut self, stream: Stream, piece: &[u8]) -> Result<(), OutFailed>
        ensures { Writes (is_ok result) stream piece.now (state self.old) (state self.new) };
}
