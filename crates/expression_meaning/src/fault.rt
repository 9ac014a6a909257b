//! Why an expression has no value.

/// Why an expression has no value.
#[derive(Clone, Copy, Debug, PartialEq, Eq)]
pub enum RunFault {
    /// It reads a field of this buffer, which is empty.
    EmptyBuffer(u32),
    /// A number, a date or a text is out of its range.
    Range,
    /// A text that is converted to a number is no number.
    Convert,
    /// An argument of a function is not one that it permits.
    Argument,
}
