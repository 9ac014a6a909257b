//! A write or a sync as it was asked and answered.

/// What a call did.
#[derive(Clone, Copy, Debug, PartialEq, Eq)]
pub enum Effect {
    /// A write that was done.
    Written,
    /// A write that failed: reads do not show it, and a crash may leave it.
    Cut,
    /// A sync that was done.
    Synced,
    /// A sync that failed, or a call that was refused for room: nothing changed.
    Nothing,
}

/// A write or a sync in the record of a disk. Its bytes stand in the disk's pool.
#[derive(Clone, Copy)]
pub struct Call {
    pub area: u8,
    pub at: u64,
    pub from: usize,
    pub length: usize,
    pub effect: Effect,
}
