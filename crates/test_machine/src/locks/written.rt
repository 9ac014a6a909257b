//! The text of an answer.

use std::alloc::{AllocError, Global};

/// A name with numbers after it.
pub fn numbered(alloc: Global, name: &str, numbers: &[u16]) -> Result<String, AllocError> {
    let mut text = String::from_str(alloc, name)?;
    for number in numbers {
        let next = format!(in alloc; " {number}")?;
        text.push_str(next.as_str())?;
    }
    Ok(text)
}

/// `freed`, or that nothing was.
pub fn freed_text(freed: bool) -> &'static str {
    if freed { "freed" } else { "nothing" }
}

/// The name of a lock.
pub fn lock_text(lock: Option<bool>) -> &'static str {
    match lock {
        None => "none",
        Some(false) => "share",
        Some(true) => "exclusive",
    }
}
