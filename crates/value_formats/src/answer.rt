//! What a line of input gives, and why it gives nothing.

ghost use Rattle.std.specs.Prelude.{◌≡◌};

use abl_base::{Items, Value};
use std::alloc::{AllocError, AllocFailed};

/// What a line gives.
#[derive(Debug, Drop, PartialEq)]
pub struct Imported {
    /// A value for each target, and `None` where its element is missing, skipped or a bare `-`.
    pub values: Items<Option<Value>>,
    /// Where the next line begins.
    pub next: usize,
}

/// Why a line gives no values.
#[derive(Clone, Copy, Debug, PartialEq, Eq)]
pub enum ImportFault {
    /// The input is at its end.
    AtEnd,
    /// The element of this number, from 1, is the first that is no text of its kind. The next line
    /// begins at `next`.
    BadField { number: usize, next: usize },
    /// There is no memory for the values.
    NoMemory,
}

impl From<AllocError> for ImportFault {
    ghost use Rattle.value_formats.specs.declared.answer.ImportFault.TheVariants.{NoMemory};

    ghost from_gives = { λ _ fault. fault ≡ NoMemory };

    fn from(_: AllocError) -> ImportFault {
        ImportFault::NoMemory
    }
}

impl<T: Drop> From<AllocFailed<T>> for ImportFault {
    ghost use Rattle.value_formats.specs.declared.answer.ImportFault.TheVariants.{NoMemory};

    ghost from_gives = { λ _ fault. fault ≡ NoMemory };

    fn from(_: AllocFailed<T>) -> ImportFault {
        ImportFault::NoMemory
    }
}
