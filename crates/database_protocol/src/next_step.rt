//! What a client does next.

use crate::ends::ClientEnd;
use crate::operation::Op;

/// What a client does next.
#[derive(Drop)]
pub enum NextStep {
    /// It waits for the answer to this operation.
    Ask(Op),
    /// It has ended so.
    Ended(ClientEnd),
}
