//! Why slots were not opened as a store.

ghost use Rattle.std.specs.Prelude.{◌≡◌, ◌≢◌};
ghost use Rattle.storage.specs.declared.slots.SlotFault.TheVariants.{Disk as SlotDisk};
ghost use Rattle.slot_rows.specs.State.{slot_fault};

use row_store::RowFault;
use slot_rows::OpenFault;
use storage::SlotFault;

/// Why slots were not opened as a store.
#[derive(Clone, Copy, Debug, PartialEq, Eq)]
pub enum OpenError {
    /// The disk failed.
    Disk,
    /// Out of memory.
    NoMemory,
    /// The slots hold no values for the sequences of the schema, a slot for rows is neither free nor in
    /// the chain of just one row, a row is no row of a table of the schema, a key of a row is longer
    /// than 200 bytes, or two rows have a unique key in common.
    Unsound,
}

impl OpenError {
    /// The refusal of slots. Full transactions, of which there are none, count as out of memory.
    pub(crate) fn of_slots(fault: SlotFault) -> OpenError
        ensures disk { result ≡ OpenError.Disk → fault ≡ SlotDisk }
        ensures fine { result ≢ OpenError.Disk → fault ≢ SlotDisk }
        ensures sound { result ≢ OpenError.Unsound }
    {
        match fault {
            SlotFault::Disk => OpenError::Disk,
            SlotFault::TxFull | SlotFault::NoMemory => OpenError::NoMemory,
        }
    }

    /// Why the rows of slots were not opened.
    pub(crate) fn of_opening(fault: OpenFault) -> OpenError
        ensures disk { result ≡ OpenError.Disk → slot_fault fault ≡ SlotDisk }
        ensures fine { result ≢ OpenError.Disk → slot_fault fault ≢ SlotDisk }
        ensures broken { result ≡ OpenError.Unsound → fault ≡ OpenFault.Broken }
    {
        match fault {
            OpenFault::Broken => OpenError::Unsound,
            OpenFault::Slot(fault) => OpenError::of_slots(fault),
        }
    }

    /// The error of rows.
    pub(crate) fn of_rows(error: RowFault) -> OpenError
        ensures disk { result ≡ OpenError.Disk → error ≡ RowFault.Disk }
        ensures fine { result ≢ OpenError.Disk → error ≡ RowFault.NoMemory }
        ensures sound { result ≢ OpenError.Unsound }
    {
        match error {
            RowFault::Disk => OpenError::Disk,
            RowFault::NoMemory => OpenError::NoMemory,
        }
    }
}
