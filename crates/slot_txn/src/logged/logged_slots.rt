//! Slots with transactions over a disk.

ghost use Rattle.std.specs.Prelude.{◌≡◌, ◌≤◌, ◌+◌, ◌^◌, ℕ, List, length, Some, None, true, false, IsTrue};
ghost use Rattle.storage.specs.Slots.{undone};
ghost use Rattle.bi_log.specs.Buffer.{content};
ghost use Rattle.bi_log.specs.Lengths.{StayShort};
ghost use Rattle.checkpoint.specs.kept.KeptLog.{KeptLog};
ghost use Rattle.open_transactions.specs.Clients.{lists, list_in, number_in};
ghost use Rattle.slot_area.specs.Area.{view, unwritten, IsKept, IsWhole};
ghost use Rattle.slot_txn.specs.logged.Stops.{StayRecoverable};

use crate::logged::generation::Generation;
use bi_log::Log;
use open_transactions::Transactions;
use slot_area::SlotArea;
use storage::Disk;

/// Slots with transactions over a disk, between two calls.
#[derive(Drop)]
pub struct LoggedSlots<D: Disk + Drop> {
    pub disk: D,
    pub log: Log,
    pub slots: SlotArea,
    pub transactions: Transactions,
    pub generation: Generation,
    /// The serial number of the next transaction.
    pub serial: u64,
    /// A call has answered Disk.
    pub failed: bool,
    /// The client whose commit answered Disk.
    pub doubtful: Option<u16>,
    /// The log can have no next generation, or a number has reached its end.
    pub exhausted: bool,
    /// The moment from which the object speaks.
    pub since: u64,
    /// No image of that moment had an area of the log beyond its bound.
    pub short: bool,
    ghost past: { since ≤ D.Disk.time disk },
    ghost recoverable: { StayRecoverable (D.Disk.left disk) since },
    ghost stays_short: { StayShort (D.Disk.left disk) since },
    ghost place: { (1 ≤ log.area) × (log.area ≤ 2) },
    ghost counts: { failed ≡ false → log.settled ≤ log.appended },
    ghost emptied: { failed ≡ false → length (content log.buffer) ≡ 0 → log.settled ≡ log.appended },
    ghost changes: { failed ≡ false → (slot note : ℕ) → unwritten slots slot ≡ Some note → note ≤ log.appended },
    ghost extents: { (generation.extent ≤ slots.end) × (generation.filled ≤ 2 ^ 20) },
    ghost kept: { IsTrue (D.Disk.observable disk) → IsKept slots (D.Disk.seen disk 0) },
    ghost serials: { 1 ≤ serial },
    ghost sure: { failed ≡ false → (doubtful ≡ None) × (exhausted ≡ false) },
    ghost whole: { IsTrue (D.Disk.observable disk) → failed ≡ false → IsWhole slots.end (D.Disk.seen disk 0) },
    ghost sound: { IsTrue (D.Disk.observable disk) → failed ≡ false → ∥ KeptLog (undone (lists transactions.clients.items) (view slots (D.Disk.seen disk 0))) (view slots (D.Disk.seen disk 0)) (D.Disk.left disk (D.Disk.time disk)) log (unwritten slots) (number_in transactions.clients.items) (list_in transactions.clients.items) generation.number generation.extent generation.filled serial ∥₁ },
}
