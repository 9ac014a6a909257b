//! Sections of output.

use abl_base::Bytes;

/// The bytes written to one output.
#[derive(Drop)]
pub struct Section {
    /// The name after OUTPUT TO, and empty for the default output.
    pub name: Bytes,
    pub bytes: Bytes,
}
