//! Why a database was not opened.

ghost use Rattle.std.specs.Prelude.{◌≡◌};
ghost use Rattle.bi_recovery.specs.declared.open_fault.OpenFault.TheVariants.{Disk, NoMemory};

use std::alloc::{AllocError, AllocFailed};
use storage::DiskFailed;

/// Why a database was not opened.
#[derive(Clone, Copy, Debug, PartialEq, Eq)]
pub enum OpenFault {
    /// There is none.
    NotCreated,
    /// The disk failed.
    Disk,
    /// There was not enough memory, or the log is in the last generation of all, 2^63 - 1.
    NoMemory,
}

impl From<DiskFailed> for OpenFault {
    ghost from_gives = { λ _ e. e ≡ Disk };

    fn from(_: DiskFailed) -> OpenFault {
        OpenFault::Disk
    }
}

impl From<AllocError> for OpenFault {
    ghost from_gives = { λ _ e. e ≡ NoMemory };

    fn from(_: AllocError) -> OpenFault {
        OpenFault::NoMemory
    }
}

impl<T: Drop> From<AllocFailed<T>> for OpenFault {
    ghost from_gives = { λ _ e. e ≡ NoMemory };

    fn from(_: AllocFailed<T>) -> OpenFault {
        OpenFault::NoMemory
    }
}
