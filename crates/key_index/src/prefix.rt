//! Keys that begin with a prefix.

ghost use Rattle.std.specs.Prelude.{◌≡◌, ◌↔◌, ◌≤◌, ℕ, List, IsTrue, IfOk, IfSome, length};
ghost use Rattle.key_index.specs.Search.{BeginsWith, IsKeyBefore};

use std::alloc::{AllocError, Global};

/// Whether the key begins with these bytes.
pub(crate) fn begins_with(key: &[u8], prefix: &[u8]) -> bool
    ensures { IsTrue result ↔ BeginsWith key.now prefix.now }
{
    if key.len() < prefix.len() {
        return false;
    }
    for i in 0..prefix.len() {
        if key[i] != prefix[i] {
            return false;
        }
    }
    true
}

/// Bytes after all keys that begin with the prefix; None where there are none.
pub(crate) fn after_prefix(alloc: Global, prefix: &[u8]) -> Result<Option<Vec<u8>>, AllocError>
    ensures { IfOk result (λ end. IfSome end (λ bytes. (key : List ℕ) → BeginsWith key prefix.now → IsKeyBefore key bytes.items)) }
{
    let mut end = prefix.len();
    while end > 0 {
        end -= 1;
        if prefix[end] < 255 {
            let mut bytes = Vec::from_slice(alloc, &prefix[..end])?;
            bytes.push(prefix[end] + 1)?;
            return Ok(Some(bytes));
        }
    }
    Ok(None)
}
