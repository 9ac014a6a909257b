//! Files in memory, by name.

ghost use Rattle.std.specs.Prelude.{◌≡◌, IfOk};

use abl_base::{Bytes, Items};
use std::alloc::AllocError;

/// A file's name and its bytes.
#[derive(Drop)]
pub struct NamedFile {
    pub name: Bytes,
    pub bytes: Bytes,
}

/// Files by name. Of two with one name the first counts.
pub type NamedFiles = Items<NamedFile>;

impl NamedFile {
    /// A copy. An error means out of memory.
    pub fn copy(&self) -> Result<NamedFile, AllocError>
        ensures { IfOk result (λ file. file ≡ self.now) }
    {
        Ok(NamedFile {
            name: self.name.copy()?,
            bytes: self.bytes.copy()?,
        })
    }
}
