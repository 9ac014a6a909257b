//! What a schema file breaks.

use abl_base::Rule;

/// A rule that is broken, and the line.
#[derive(Clone, Copy, Debug)]
pub struct Violation {
    pub rule: Rule,
    pub line: u32,
}
