//! One use of an area of the log.

/// A generation of the log, since it was opened.
#[derive(Clone, Copy)]
pub struct Generation {
    /// Its number.
    pub number: u64,
    /// The place of the gate as it was opened.
    pub opened_at: u64,
    /// How many whole slots area 0 had then.
    pub extent: u32,
    /// Each slot from the extent up to this one has a note, and none from here on.
    pub filled: u32,
}
