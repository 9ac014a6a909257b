//! The text that slots in memory hold.

ghost use Rattle.std.specs.Prelude.{◌≡◌, ◌≤◌, ◌↔◌, ℕ, List, length, Some, IfOk, IfSome, IsTrue};
ghost use Rattle.std.specs.List.{flat_map};
ghost use Rattle.abl_values.specs.Rows.{fragments_of};
ghost use Rattle.row_fragments.specs.Fragments.{content_in};
ghost use Rattle.database_layout.specs.stored_text.Held.{AreOf};

use crate::fresh::text_slots::text_slot;
use abl_base::Bytes;
use row_fragments::fragment::used;
use std::alloc::{AllocError, Global};

/// The contents of the slots, one after the other.
fn contents(slots: &[[u8; 256]], alloc: Global) -> Result<Vec<u8>, AllocError>
    ensures { IfOk result (λ bytes. bytes.items ≡ flat_map content_in slots.now) }
{
    let mut bytes = Vec::new(alloc);
    for slot in slots {
        let many = used(slot);
        bytes.extend_from_slice(&slot[16..16 + many])?;
    }
    Ok(bytes)
}

/// Whether these are the slots of the text.
fn are_of(slots: &[[u8; 256]], text: &[u8]) -> bool
    requires few { length slots.now ≤ 4370 }
    requires short { length text.now ≤ 1048576 }
    ensures { IsTrue result ↔ AreOf slots.now text.now }
{
    let count = slots.len() as u32;
    for i in 0..count {
        if slots[i as usize] != text_slot(text, i, count) {
            return false;
        }
    }
    true
}

/// The text of this length that the slots hold, if they hold one.
pub fn text_of(
    slots: &[[u8; 256]],
    bytes: usize,
    alloc: Global,
) -> Result<Option<Bytes>, AllocError>
    requires short { bytes ≤ 1048576 }
    requires count { length slots.now ≡ fragments_of bytes }
    ensures is { IfOk result (λ found. IfSome found (λ text. (length text ≡ bytes) × AreOf slots.now text)) }
    ensures held { IfOk result (λ found. (text : List ℕ) → length text ≡ bytes → AreOf slots.now text → found ≡ Some text) }
{
    let text = contents(slots, alloc)?;
    if text.len() != bytes || !are_of(slots, &text) {
        return Ok(None);
    }
    Ok(Some(Bytes::from_vec(text)))
}
