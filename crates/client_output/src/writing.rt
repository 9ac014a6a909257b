//! Changes of one section among several.

ghost use Rattle.std.specs.Prelude.{◌≡◌, OnOk, OnErr};
ghost use Rattle.client_output.specs.Written.{longer_at, emptied_at};

use crate::section::Section;
use abl_base::Bytes;
use std::alloc::{AllocError, Global};

/// Appends a text to the section at the place.
pub fn append_at(sections: &mut Vec<Section>, place: usize, text: &[u8]) -> Result<(), AllocError>
    ensures ok { OnOk result (sections.new.items ≡ longer_at place text.now sections.old.items) }
    ensures err { OnErr result (sections.new.items ≡ sections.old.items) }
{
    match sections.get_mut(place) {
        Some(section) => section.bytes.extend_from_slice(text),
        None => Ok(()),
    }
}

/// Empties the section at the place.
pub fn empty_at(alloc: Global, sections: &mut Vec<Section>, place: usize)
    ensures { sections.new.items ≡ emptied_at place sections.old.items }
{
    if let Some(section) = sections.get_mut(place) {
        section.bytes = Bytes::empty(alloc);
    }
}
