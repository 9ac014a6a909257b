//! What a client reads, and where its streams stand.

use abl_base::Bytes;
use abl_values::Schema;

/// What a client reads and does not change: the schema, and the texts.
#[derive(Drop)]
pub struct Inputs {
    pub schema: Schema,
    /// The client's own input.
    pub own: Bytes,
    /// Those after INPUT FROM, in the order of their names.
    pub named: Vec<Bytes>,
}

/// Where a stream writes and reads.
#[derive(Clone, Copy, Debug)]
pub struct Stream {
    /// The number of the named output that it writes to; None for the default section.
    pub output: Option<u32>,
    /// The number of the named input that it reads; None for the client's own input.
    pub input: Option<u32>,
    /// The place of the next byte in that named input.
    pub at: usize,
}
