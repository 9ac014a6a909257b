//! The buffers of the running procedure of a client, as the reading of a record needs them, over
//! its memory.

pub mod content;
pub mod running;

pub use running::RunningBuffers;
