//! Why the slots refused a call, said of rows.

ghost use Rattle.std.specs.Prelude.{◌≡◌};
ghost use Rattle.byte_rows.specs.Rows.{opening_fault};
ghost use Rattle.slot_rows.specs.State.{row_error, slot_fault};

use byte_rows::{ChainFault, ChainsFault};
use row_store::RowFault;
use storage::SlotFault;

/// Why slots were not opened as rows of a schema.
#[derive(Clone, Copy, Debug, PartialEq, Eq)]
pub enum OpenFault {
    /// A row that begins is no row of a table of the schema, or a slot for rows is neither free nor in the
    /// chain of just one row.
    Broken,
    /// The slots refused a read, or there was not enough memory.
    Slot(SlotFault),
}

/// Why slots were not opened as rows, where they were not opened as chains.
pub(crate) fn refusal_of(fault: ChainsFault) -> OpenFault
    ensures slots { slot_fault result ≡ opening_fault fault }
    ensures broken { result ≡ OpenFault.Broken → fault ≡ ChainsFault.Broken }
{
    match fault {
        ChainsFault::Broken => OpenFault::Broken,
        ChainsFault::Slot(fault) => OpenFault::Slot(fault),
    }
}

/// The error of rows. Full and TxFull count as out of memory: the caller asks for room before.
pub(crate) fn error_of(fault: ChainFault) -> RowFault
    ensures { result ≡ row_error fault }
{
    match fault {
        ChainFault::Full => RowFault::NoMemory,
        ChainFault::Slot(SlotFault::Disk) => RowFault::Disk,
        ChainFault::Slot(SlotFault::TxFull) => RowFault::NoMemory,
        ChainFault::Slot(SlotFault::NoMemory) => RowFault::NoMemory,
    }
}
