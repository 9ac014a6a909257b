//! The slots of a disk, in memory.

ghost use Rattle.std.specs.Prelude.{◌≤◌, length};

/// The slots that a disk recovered to, in memory. The slots past the list are zeros.
#[derive(Drop)]
pub struct RecoveredView {
    pub slots: Vec<[u8; 256]>,
    /// The client whose transaction is begun. `begin` refuses, so no call sets it.
    pub begun: Option<u16>,
    ghost few: { length slots.items ≤ 1048576 },
}
