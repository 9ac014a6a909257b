//! Why a database was not made.

ghost use Rattle.std.specs.Prelude.{◌≡◌};
ghost use Rattle.database_layout.specs.declared.creation.fault.CreateFault.TheVariants.{Disk, NoMemory};

use std::alloc::AllocError;
use storage::DiskFailed;

/// Why a database was not made.
#[derive(Clone, Copy, Debug, PartialEq, Eq)]
pub enum CreateFault {
    /// The disk failed.
    Disk,
    /// There was not enough memory. The disk is as it was.
    NoMemory,
}

impl From<DiskFailed> for CreateFault {
    ghost from_gives = { λ _ e. e ≡ Disk };

    fn from(_: DiskFailed) -> CreateFault {
        CreateFault::Disk
    }
}

impl From<AllocError> for CreateFault {
    ghost from_gives = { λ _ e. e ≡ NoMemory };

    fn from(_: AllocError) -> CreateFault {
        CreateFault::NoMemory
    }
}
