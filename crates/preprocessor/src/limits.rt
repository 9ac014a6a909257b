//! Limits of an expansion. Each is this project's choice.

/// The most texts that are open at once, the source included.
pub const MAX_OPEN_TEXTS: usize = 16;

/// The most bytes of an expansion: of a text, of the inside of a reference, of the line of a
/// definition, or of a condition.
pub const MAX_EXPANSION_BYTES: usize = 1_048_576;

/// The most bytes that are read and given in all: those of each text as often as it is opened, and
/// those that each expansion gives.
pub const MAX_WORK_BYTES: usize = 67_108_864;
