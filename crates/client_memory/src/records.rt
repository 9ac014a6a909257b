//! The buffers of the open procedures, the outermost procedure first.

ghost use Rattle.std.specs.Prelude.{◌≡◌, ◌+◌, ◌≤◌, ◌++◌, [], Bool, true, false, List, map, slice_set, slice_index_or, IfOk, OnOk, MatchOption};
ghost use Rattle.block_meaning.specs.Frames.{no_buffer, contents_restored};
ghost use Rattle.block_meaning.specs.Buffers.{buffer_shared, places_from, with_row};
ghost use Rattle.client_memory.specs.Buffers.{HasNoBuffers, denoted_buffer, denoted_content, denoted_place, denoted_spot_if, buffer_at, changed_in, with_content, with_locked, with_spot, saved_contents, places_in, rows_kept as kept};
ghost use Rattle.client_memory.specs.Memory.{buffers_restored};
ghost use Rattle.client_memory.specs.Savepoints.{contents_with, counts_of};

use crate::buffer::{Buffer, Content, Place, Spot};
use crate::buffers::{Buffers, SavedContents};
use abl_base::RowId;
use database_protocol::RowIds;
use std::alloc::{AllocError, Global};

/// The index of a procedure, where it is the `out`-th outward from the running one of `count`.
fn index_out(count: usize, out: usize) -> Option<usize>
    ensures { MatchOption result (count ≤ out) (λ index. index + out + 1 ≡ count) }
{
    if out < count {
        Some(count - out - 1)
    } else {
        None
    }
}

/// The buffer at a place.
pub fn buffer_in(frames: &[Buffers], place: Place) -> Option<&Buffer>
    ensures { MatchOption result (buffer_at (denoted_place place) frames.now ≡ no_buffer) (λ buffer. denoted_buffer buffer.now ≡ buffer_at (denoted_place place) frames.now) }
{
    let index = index_out(frames.len(), place.out)?;
    frames.get(index)?.get(place.number)
}

/// Gives the buffer at a place another content, and returns the old one.
pub fn replace_in(frames: &mut Vec<Buffers>, place: Place, content: Content) -> Content
    ensures old { denoted_content result ≡ (buffer_at (denoted_place place) frames.old.items).content }
    ensures new { frames.new.items ≡ changed_in (denoted_place place) (with_content (denoted_content content)) frames.old.items }
{
    let Some(index) = index_out(frames.len(), place.out) else {
        return Content::Empty;
    };
    match frames.get_mut(index) {
        Some(buffers) => buffers.replace(place.number, content),
        None => Content::Empty,
    }
}

/// Sets LOCKED of the buffer at a place.
pub fn set_locked_in(frames: &mut Vec<Buffers>, place: Place, locked: bool)
    ensures { frames.new.items ≡ changed_in (denoted_place place) (with_locked locked) frames.old.items }
{
    let Some(index) = index_out(frames.len(), place.out) else {
        return;
    };
    if let Some(buffers) = frames.get_mut(index) {
        buffers.set_locked(place.number, locked);
    }
}

/// Sets the place in an index of the buffer at a place.
pub fn set_spot_in(frames: &mut Vec<Buffers>, place: Place, spot: Option<Spot>)
    ensures { frames.new.items ≡ changed_in (denoted_place place) (with_spot (denoted_spot_if spot)) frames.old.items }
{
    let Some(index) = index_out(frames.len(), place.out) else {
        return;
    };
    if let Some(buffers) = frames.get_mut(index) {
        buffers.set_spot(place.number, spot);
    }
}

/// Whether a procedure has a buffer.
pub fn has_some(frames: &[Buffers]) -> bool
    ensures none { result ≡ false → HasNoBuffers frames.now }
    ensures some { result ≡ true → HasNoBuffers frames.now → ⊥ }
{
    for buffers in frames {
        if !buffers.is_empty() {
            return true;
        }
    }
    false
}

/// Exclusive locks become share locks.
pub fn share_all(frames: &mut Vec<Buffers>)
    ensures { frames.new.items ≡ map (map buffer_shared) frames.old.items }
{
    for buffers in frames.iter_mut() {
        buffers.share();
    }
}

/// Whether a record is pending.
fn has_pending(frames: &[Buffers]) -> bool
    ensures { result ≡ false → contents_with [] (counts_of frames.now) ≡ map saved_contents frames.now }
{
    for buffers in frames {
        if buffers.has_pending() {
            return true;
        }
    }
    false
}

/// The pending records of the procedures; nothing where there is none. Out of memory is the only
/// error.
pub fn saved_records(alloc: Global, frames: &[Buffers]) -> Result<Vec<SavedContents>, AllocError>
    ensures { IfOk result (λ saved. contents_with saved.items (counts_of frames.now) ≡ map saved_contents frames.now) }
{
    if !has_pending(frames) {
        return Ok(Vec::new(alloc));
    }
    all_saved(alloc, frames)
}

/// What a copy has of the procedures. Out of memory is the only error.
fn all_saved(alloc: Global, frames: &[Buffers]) -> Result<Vec<SavedContents>, AllocError>
    ensures { IfOk result (λ saved. saved.items ≡ map saved_contents frames.now) }
{
    let mut saved = Vec::with_capacity(alloc, frames.len())?;
    for buffers in frames {
        saved.push(buffers.saved()?)?;
    }
    Ok(saved)
}

/// A copy of stored records. Out of memory is the only error.
pub fn copy_records(
    alloc: Global,
    stored: &[SavedContents],
) -> Result<Vec<SavedContents>, AllocError>
    ensures { IfOk result (λ copy. copy.items ≡ stored.now) }
{
    let mut copy = Vec::with_capacity(alloc, stored.len())?;
    for contents in stored {
        copy.push(contents.copy()?)?;
    }
    Ok(copy)
}

/// Restores pending records, which are moved.
pub fn restore_records(frames: &mut Vec<Buffers>, saved: Vec<SavedContents>)
    ensures { frames.new.items ≡ buffers_restored saved.items frames.old.items }
{
    let mut saved = saved;
    while let Some(contents) = saved.pop() {
        restore_in(frames, saved.len(), contents);
    }
}

/// Restores pending records of one procedure.
fn restore_in(frames: &mut Vec<Buffers>, index: usize, contents: SavedContents)
    ensures { frames.new.items ≡ slice_set frames.old.items index (contents_restored contents (slice_index_or frames.old.items index [])) }
{
    let Some(buffers) = frames.get_mut(index) else {
        return;
    };
    buffers.restore(contents);
}
