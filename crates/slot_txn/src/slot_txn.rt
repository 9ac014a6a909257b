//! Slots with transactions over a disk.

use crate::logged::LoggedSlots;
use storage::Disk;

/// Slots with transactions over a disk.
#[derive(Drop)]
pub struct SlotTxn<D: Disk + Drop> {
    pub slots: LoggedSlots<D>,
}
