//! A stored field.

ghost use Rattle.std.specs.Prelude.{◌≡◌, IfOk};

use abl_base::{Bytes, Kind, Value};
use std::alloc::AllocError;

/// A field as rows have it stored. `live` is its number among the live fields of its table; a field
/// that was dropped has none. A row that was stored before the field was added has `initial` in it.
#[derive(Drop)]
pub struct StoredField {
    pub name: Bytes,
    pub kind: Option<Kind>,
    pub initial: Value,
    pub live: Option<u16>,
}

impl StoredField {
    /// A copy of the field with this live number, or none. Out of memory is the only error.
    pub fn with_live(&self, live: Option<u16>) -> Result<StoredField, AllocError>
        ensures { IfOk result (λ copy. copy ≡ record self.now { live = live }) }
    {
        Ok(StoredField {
            name: self.name.copy()?,
            kind: self.kind,
            initial: self.initial.copy()?,
            live,
        })
    }
}
