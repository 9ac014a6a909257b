//! The buffers of one procedure.

ghost use Rattle.std.specs.Prelude.{◌≡◌, ◌==◌, ◌+◌, ◌<◌, ◌^◌, Bool, true, cond, List, length, map, nat_lt, slice_index_or, IfOk, MatchOption};
ghost use Rattle.block_meaning.specs.Frames.{no_buffer, content_restored, contents_restored};
ghost use Rattle.block_meaning.specs.Buffers.{buffer_shared};
ghost use Rattle.block_meaning.specs.Meaning.{new_buffer};
ghost use Rattle.client_memory.specs.Buffers.{denoted_content, denoted_buffer, denoted_spot_if, pending_count, saved_contents, with_content, with_locked, with_spot, changed_at};

use crate::buffer::{Buffer, Content, Spot};
use bound_tree::BufferDef;
use std::alloc::{AllocError, Global};
use std::marker::Model;
use std::mem;

/// What a savepoint stores of the buffers of a procedure: the pending record of each, else Empty.
#[derive(Drop)]
pub struct SavedContents {
    contents: Vec<Content>,
}

impl SavedContents {
    /// A copy. Out of memory is the only error.
    pub fn copy(&self) -> Result<SavedContents, AllocError>
        ensures { IfOk result (λ copy. copy ≡ self.now) }
    {
        let mut contents = Vec::with_capacity(*self.contents.allocator(), self.contents.len())?;
        for content in self.contents.iter() {
            contents.push(content.copy()?)?;
        }
        Ok(SavedContents { contents })
    }
}

impl Model for SavedContents {
    ghost use Rattle.std.specs.Prelude.{List, map};
    ghost use Rattle.block_meaning.specs.State.{Content as ContentMeant};
    ghost use Rattle.client_memory.specs.Buffers.{denoted_content};

    ghost Value = { List ContentMeant };

    ghost view = { λ s. map denoted_content s.contents.items };
}

/// The buffers of a procedure, by their numbers.
#[derive(Drop)]
pub struct Buffers {
    buffers: Vec<Buffer>,
    /// How many of them hold a pending record.
    pending: usize,
}

impl Model for Buffers {
    ghost use Rattle.std.specs.Prelude.{◌≡◌, List, map};
    ghost use Rattle.block_meaning.specs.State.{Buffer as BufferMeant};
    ghost use Rattle.client_memory.specs.Buffers.{denoted_buffer, pending_count};

    ghost Value = { List BufferMeant };

    ghost view = { λ b. map denoted_buffer b.buffers.items };

    ghost invariant = { λ b. b.pending ≡ pending_count (map denoted_buffer b.buffers.items) };
}

/// The number of pending records after one content took the place of another.
fn recounted(pending: usize, was: bool, is: bool) -> usize
    ensures { pending + 1 < 2 ^ 64 → (was ≡ true → 0 < pending) → result + cond was 1 0 ≡ pending + cond is 1 0 }
{
    let others = if was {
        pending.saturating_sub(1)
    } else {
        pending
    };
    if is { others.saturating_add(1) } else { others }
}

/// The buffers of a procedure that begins. Out of memory is the only error.
fn new_buffers(alloc: Global, definitions: &[BufferDef]) -> Result<Vec<Buffer>, AllocError>
    ensures { IfOk result (λ buffers. map denoted_buffer buffers.items ≡ map new_buffer definitions.now) }
{
    let mut buffers = Vec::with_capacity(alloc, definitions.len())?;
    for definition in definitions {
        buffers.push(Buffer {
            table: definition.table,
            content: Content::Empty,
            spot: None,
            locked: false,
        })?;
    }
    Ok(buffers)
}

/// Gives the buffer of this number another content, and returns the old one.
fn replace_at(buffers: &mut Vec<Buffer>, number: usize, content: Content) -> Content
    ensures old { denoted_content result ≡ (slice_index_or (map denoted_buffer buffers.old.items) number no_buffer).content }
    ensures new { map denoted_buffer buffers.new.items ≡ changed_at number (with_content (denoted_content content)) (map denoted_buffer buffers.old.items) }
{
    match buffers.get_mut(number) {
        Some(buffer) => mem::replace(&mut buffer.content, content),
        None => Content::Empty,
    }
}

/// Sets LOCKED of the buffer of this number.
fn set_locked_at(buffers: &mut Vec<Buffer>, number: usize, locked: bool)
    ensures { map denoted_buffer buffers.new.items ≡ changed_at number (with_locked locked) (map denoted_buffer buffers.old.items) }
{
    let Some(buffer) = buffers.get_mut(number) else {
        return;
    };
    buffer.locked = locked;
}

/// Sets the place in an index of the buffer of this number.
fn set_spot_at(buffers: &mut Vec<Buffer>, number: usize, spot: Option<Spot>)
    ensures { map denoted_buffer buffers.new.items ≡ changed_at number (with_spot (denoted_spot_if spot)) (map denoted_buffer buffers.old.items) }
{
    let Some(buffer) = buffers.get_mut(number) else {
        return;
    };
    buffer.spot = spot;
}

/// Exclusive locks become share locks.
fn share_buffers(buffers: &mut Vec<Buffer>)
    ensures { map denoted_buffer buffers.new.items ≡ map buffer_shared (map denoted_buffer buffers.old.items) }
{
    for buffer in buffers.iter_mut() {
        buffer.content.share();
    }
}

impl Buffers {
    /// The buffers of a procedure that begins, all of them empty. Out of memory is the only error.
    pub fn new(alloc: Global, definitions: &[BufferDef]) -> Result<Buffers, AllocError>
        ensures { IfOk result (λ buffers. buffers ≡ map new_buffer definitions.now) }
    {
        let buffers = new_buffers(alloc, definitions)?;
        Ok(Buffers {
            buffers,
            pending: 0,
        })
    }

    /// The buffer of this number.
    pub fn get(&self, number: usize) -> Option<&Buffer>
        ensures { MatchOption result (slice_index_or self.now number no_buffer ≡ no_buffer) (λ buffer. denoted_buffer buffer.now ≡ slice_index_or self.now number no_buffer) }
    {
        self.buffers.get(number)
    }

    /// How many there are.
    pub fn len(&self) -> usize
        ensures { result ≡ length self.now }
    {
        self.buffers.len()
    }

    /// Whether there is none.
    pub fn is_empty(&self) -> bool
        ensures { result ≡ (length self.now == 0) }
    {
        self.buffers.is_empty()
    }

    /// Gives the buffer of this number another content, and returns the old one. Where there is no
    /// such buffer the content is dropped.
    pub fn replace(&mut self, number: usize, content: Content) -> Content
        ensures old { denoted_content result ≡ (slice_index_or self.old number no_buffer).content }
        ensures new { self.new ≡ changed_at number (with_content (denoted_content content)) self.old }
    {
        if number >= self.buffers.len() {
            return Content::Empty;
        }
        let is = content.is_pending();
        let old = replace_at(&mut self.buffers, number, content);
        self.pending = recounted(self.pending, old.is_pending(), is);
        old
    }

    /// Sets LOCKED of the buffer of this number.
    pub fn set_locked(&mut self, number: usize, locked: bool)
        ensures { self.new ≡ changed_at number (with_locked locked) self.old }
    {
        set_locked_at(&mut self.buffers, number, locked);
    }

    /// Sets the place in an index of the buffer of this number.
    pub fn set_spot(&mut self, number: usize, spot: Option<Spot>)
        ensures { self.new ≡ changed_at number (with_spot (denoted_spot_if spot)) self.old }
    {
        set_spot_at(&mut self.buffers, number, spot);
    }

    /// Exclusive locks become share locks.
    pub fn share(&mut self)
        ensures { self.new ≡ map buffer_shared self.old }
    {
        share_buffers(&mut self.buffers);
    }

    /// Whether a buffer holds a pending record.
    pub fn has_pending(&self) -> bool
        ensures { result ≡ nat_lt 0 (pending_count self.now) }
    {
        self.pending > 0
    }

    /// What a copy has of the buffers. Out of memory is the only error.
    pub fn saved(&self) -> Result<SavedContents, AllocError>
        ensures { IfOk result (λ saved. saved ≡ saved_contents self.now) }
    {
        let mut contents = Vec::with_capacity(*self.buffers.allocator(), self.buffers.len())?;
        for buffer in self.buffers.iter() {
            contents.push(buffer.content.saved()?)?;
        }
        Ok(SavedContents { contents })
    }

    /// Restores pending records, which are moved.
    pub fn restore(&mut self, saved: SavedContents)
        ensures { self.new ≡ contents_restored saved self.old }
    {
        let SavedContents { mut contents } = saved;
        while let Some(content) = contents.pop() {
            self.restore_at(contents.len(), content);
        }
    }

    /// Restores a pending record in the buffer of this number.
    fn restore_at(&mut self, number: usize, content: Content)
        ensures { self.new ≡ changed_at number (content_restored (denoted_content content)) self.old }
    {
        if !content.is_pending() {
            return;
        }
        let _ = self.replace(number, content);
    }
}
