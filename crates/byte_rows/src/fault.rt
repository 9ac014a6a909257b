//! Why a call on rows was refused, and why slots were not opened.

ghost use Rattle.std.specs.Prelude.{◌≡◌, true};

use storage::SlotFault;

/// Why a call on rows was refused.
#[derive(Clone, Copy, Debug, PartialEq, Eq)]
pub enum ChainFault {
    /// There are fewer free slots than the call needs: the used fragments would pass 1,040,384.
    Full,
    /// The slots refused the call, or there was not enough memory for it.
    Slot(SlotFault),
}

/// Why slots were not opened.
#[derive(Clone, Copy, Debug, PartialEq, Eq)]
pub enum ChainsFault {
    /// The slots are no chains of rows: a fragment is of no row or of two, a row is no chain of its
    /// bytes, or a free slot is in a chain.
    Broken,
    /// The slots refused a read, or there was not enough memory.
    Slot(SlotFault),
}

/// Whether a call has answered Disk, after one that the slots refused so.
pub(crate) fn failed_after(failed: bool, fault: SlotFault) -> bool
    ensures disk { fault ≡ SlotFault.Disk → result ≡ true }
    ensures rest { (fault ≡ SlotFault.Disk → ⊥) → result ≡ failed }
{
    match fault {
        SlotFault::Disk => true,
        SlotFault::TxFull => failed,
        SlotFault::NoMemory => failed,
    }
}
