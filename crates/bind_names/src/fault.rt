//! Why a part of a source was not bound.

use std::alloc::{AllocError, AllocFailed};

/// Out of memory, or out of numbers.
#[derive(Debug, Drop)]
pub struct BindFault;

impl From<AllocError> for BindFault {
    fn from(_: AllocError) -> BindFault {
        BindFault
    }
}

impl<T: Drop> From<AllocFailed<T>> for BindFault {
    fn from(_: AllocFailed<T>) -> BindFault {
        BindFault
    }
}
