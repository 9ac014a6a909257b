//! Elements of a line of input.

use abl_base::Bytes;

/// One element of a line.
#[derive(Debug, Drop, PartialEq)]
pub enum Element {
    /// Bytes without quotation marks around them.
    Bare(Bytes),
    /// What stood in quotation marks, with doubled ones as one.
    Quoted(Bytes),
}
