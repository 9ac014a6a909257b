//! The notes of the log.

/// A slot was written: its bytes before it and after it.
#[derive(Clone, Copy)]
pub struct Change {
    pub tx: u64,
    pub slot: u32,
    pub old: [u8; 256],
    pub new: [u8; 256],
}

/// A note of the log.
#[derive(Clone, Copy)]
pub enum Note {
    Change(Change),
    /// The transaction with this number is committed.
    Commit(u64),
}
