//! The variables and buffers of a client.

ghost use Rattle.std.specs.Prelude.{◌≡◌, ◌≤◌, ◌<◌, ◌+◌, ◌-◌, ◌++◌, ◌∷◌, [], true, false, length, reverse, take, map, slice_index_or, slice_set, OnOk, OnErr, IfOk, MatchOption};
ghost use Rattle.abl_base.specs.declared.value.Value.{Value};
ghost use Rattle.bound_tree.specs.declared.expression.Variable.{Variable};
ghost use Rattle.block_meaning.specs.Frames.{no_buffer};
ghost use Rattle.client_memory.specs.Undo.{Values, with_value, value_at, restored_to, old_values_before, copy_at};
ghost use Rattle.client_memory.specs.Buffers.{denoted_buffer, denoted_content, denoted_place, denoted_spot_if, places_in, rows_kept as kept};
ghost use Rattle.client_memory.specs.Memory.{Remembered, begun, ended, IsOuter, frame_of as procedure_of, value_now, set_variable, buffer_at, holding, marked_locked, with_spot, HasNoBuffers, entered, left, left_to, restored, IsWhole, last_copy, made_before};
ghost use Rattle.client_memory.specs.OldValues.{old_values_of};
ghost use Rattle.client_memory.specs.Savepoints.{innermost_frames, innermost_made};

use crate::buffer::{Buffer, Content, Place, Spot};
use crate::buffers::{Buffers, SavedContents};
use crate::places::all_places;
use crate::records::{
    buffer_in, copy_records, has_some, replace_in, restore_records, saved_records, set_locked_in,
    set_spot_in, share_all,
};
use crate::rows::kept_rows;
use crate::slots::Slots;
use abl_base::{Items, Value};
use bound_tree::Variable;
use database_protocol::RowIds;
use std::alloc::{AllocError, Global};
use std::marker::Model;

/// The value that an undoable variable had before an assignment.
#[derive(Drop)]
pub struct OldValue {
    pub frame: usize,
    pub number: usize,
    pub value: Value,
}

/// A savepoint, made with an Enter: the number of CREATEs before, of open procedures, and of old
/// values; and the pending records of each procedure, nothing where there was none.
#[derive(Drop)]
pub struct Savepoint {
    pub made: u64,
    pub frames: usize,
    pub old_values: usize,
    pub pending: Vec<SavedContents>,
}

/// The procedure of a variable, where `count` are open.
fn frame_of(external: bool, count: usize) -> usize
    ensures { result ≡ procedure_of external count }
{
    if external { 0 } else { count.saturating_sub(1) }
}

/// The value of a variable.
fn get_value<'a>(frames: &'a [Slots], frame: usize, number: usize, unknown: &'a Value) -> &'a Value
    requires { unknown.now ≡ Value.Unknown }
    ensures { result.now ≡ value_at frame number frames.now }
{
    match frames.get(frame) {
        Some(values) => values.get_or(number, unknown),
        None => unknown,
    }
}

/// Gives a variable a value, and returns the old one.
fn set_value(frames: &mut Vec<Slots>, frame: usize, number: usize, value: Value) -> Value
    ensures old { result ≡ value_at frame number frames.old.items }
    ensures new { frames.new.items ≡ with_value frame number value frames.old.items }
{
    match frames.get_mut(frame) {
        Some(values) => values.replace(number, value),
        None => Value::Unknown,
    }
}

/// Restores the old values after the first `at`, the last one first.
fn restore(frames: &mut Vec<Slots>, old_values: &mut Vec<OldValue>, at: usize)
    ensures values { frames.new.items ≡ restored_to at (reverse (old_values_of old_values.old.items)) frames.old.items }
    ensures old_values { reverse (old_values_of old_values.new.items) ≡ old_values_before at (reverse (old_values_of old_values.old.items)) }
{
    while old_values.len() > at {
        if let Some(old) = old_values.pop() {
            let _ = set_value(frames, old.frame, old.number, old.value);
        }
    }
}

/// The number of procedures that were open when the innermost level began.
fn outer_procedures(savepoints: &[Savepoint]) -> usize
    ensures { result ≡ innermost_frames savepoints.now }
{
    match savepoints.last() {
        Some(savepoint) => savepoint.frames,
        None => 0,
    }
}

/// The number of CREATEs before the innermost level began; 0 where no level is open.
fn creates_before(savepoints: &[Savepoint]) -> u64
    ensures { result ≡ innermost_made savepoints.now }
{
    match savepoints.last() {
        Some(savepoint) => savepoint.made,
        None => 0,
    }
}

/// The variables and buffers of the open procedures, and the open levels.
#[derive(Drop)]
pub struct Memory {
    undoable: Vec<Slots>,
    no_undo: Vec<Slots>,
    buffers: Vec<Buffers>,
    old_values: Vec<OldValue>,
    savepoints: Vec<Savepoint>,
    depth: u32,
}

impl Model for Memory {
    ghost use Rattle.std.specs.Prelude.{◌≡◌, length};
    ghost use Rattle.client_memory.specs.Memory.{Remembered};

    ghost Value = { Remembered };

    ghost use Rattle.client_memory.specs.Savepoints.{remembered, AreInOrder};

    ghost view = { λ m. remembered m.undoable.items m.no_undo.items m.buffers.items m.old_values.items m.savepoints.items };

    ghost invariant = { λ m. (length m.no_undo.items ≡ length m.undoable.items) × AreInOrder (length m.old_values.items) (length m.undoable.items) 0 0 m.savepoints.items × (m.depth ≡ length m.savepoints.items) × (length m.buffers.items ≡ length m.undoable.items) };
}

impl Memory {
    /// No procedure is open yet.
    pub fn new(alloc: Global) -> Memory
        ensures { result ≡ record { undoable = []; no_undo = []; buffers = []; copies = [] } }
    {
        Memory {
            undoable: Vec::new(alloc),
            no_undo: Vec::new(alloc),
            buffers: Vec::new(alloc),
            old_values: Vec::new(alloc),
            savepoints: Vec::new(alloc),
            depth: 0,
        }
    }

    /// A procedure begins. The copies stay the same: it is in none of them.
    pub fn begin(
        &mut self,
        undoable: Slots,
        no_undo: Slots,
        buffers: Buffers,
    ) -> Result<(), AllocError>
        ensures ok { OnOk result (self.new ≡ begun undoable no_undo buffers self.old) }
        ensures err { OnErr result (self.new ≡ self.old) }
    {
        self.undoable.reserve(1)?;
        self.no_undo.reserve(1)?;
        self.buffers.reserve(1)?;
        self.undoable.push_reserved(undoable);
        self.no_undo.push_reserved(no_undo);
        self.buffers.push_reserved(buffers);
        Ok(())
    }

    /// The innermost procedure ends, where no level is open that began in it. The copies stay the
    /// same.
    pub fn end(&mut self)
        ensures { IsOuter self.old → self.new ≡ ended self.old }
    {
        let count = self.undoable.len().saturating_sub(1);
        if outer_procedures(&self.savepoints) <= count {
            self.undoable.truncate(count);
            self.no_undo.truncate(count);
            self.buffers.truncate(count);
        }
    }

    /// The number of open levels.
    pub fn depth(&self) -> u32
        ensures { result ≡ length self.now.copies }
    {
        self.depth
    }

    /// The number of CREATEs before the innermost level began; 0 where no level is open.
    pub fn made_before(&self) -> u64
        ensures { result ≡ made_before (last_copy self.now.copies) }
    {
        creates_before(&self.savepoints)
    }

    /// The value of a variable; `unknown` where there is no such variable.
    pub fn get<'a>(&'a self, variable: Variable, unknown: &'a Value) -> &'a Value
        requires { unknown.now ≡ Value.Unknown }
        ensures { result.now ≡ value_now variable self.now }
    {
        let frame = frame_of(variable.external, self.undoable.len());
        let number = variable.number as usize;
        if variable.undoable {
            get_value(&self.undoable, frame, number, unknown)
        } else {
            get_value(&self.no_undo, frame, number, unknown)
        }
    }

    /// Gives a variable a value. The copies stay the same.
    pub fn set(&mut self, variable: Variable, value: Value) -> Result<(), AllocError>
        ensures ok { OnOk result (self.new ≡ set_variable variable value self.old) }
        ensures err { OnErr result (self.new ≡ self.old) }
    {
        let number = variable.number as usize;
        let frame = frame_of(variable.external, self.undoable.len());
        if variable.undoable {
            if self.savepoints.is_empty() {
                let _ = set_value(&mut self.undoable, frame, number, value);
            } else {
                self.old_values.reserve(1)?;
                let value = set_value(&mut self.undoable, frame, number, value);
                self.old_values.push_reserved(OldValue {
                    frame,
                    number,
                    value,
                });
            }
        } else {
            let _ = set_value(&mut self.no_undo, frame, number, value);
        }
        Ok(())
    }

    /// The buffer at a place.
    pub fn buffer(&self, place: Place) -> Option<&Buffer>
        ensures { MatchOption result (buffer_at (denoted_place place) self.now ≡ no_buffer) (λ buffer. denoted_buffer buffer.now ≡ buffer_at (denoted_place place) self.now) }
    {
        buffer_in(&self.buffers, place)
    }

    /// Gives the buffer at a place another content, and returns the old one, without a copy of a
    /// row. The copies stay the same. Where there is no such buffer the content is dropped.
    pub fn replace(&mut self, place: Place, content: Content) -> Content
        ensures old { denoted_content result ≡ (buffer_at (denoted_place place) self.old).content }
        ensures new { self.new ≡ holding (denoted_place place) (denoted_content content) self.old }
    {
        replace_in(&mut self.buffers, place, content)
    }

    /// Sets LOCKED of the buffer at a place.
    pub fn set_locked(&mut self, place: Place, locked: bool)
        ensures { self.new ≡ marked_locked (denoted_place place) locked self.old }
    {
        set_locked_in(&mut self.buffers, place, locked);
    }

    /// Sets the place in an index of the buffer at a place.
    pub fn set_spot(&mut self, place: Place, spot: Option<Spot>)
        ensures { self.new ≡ with_spot (denoted_place place) (denoted_spot_if spot) self.old }
    {
        set_spot_in(&mut self.buffers, place, spot);
    }

    /// The places of all buffers, the outermost procedure first. Without a buffer it needs no memory.
    /// Out of memory is the only error.
    pub fn places(&self) -> Result<Vec<Place>, AllocError>
        ensures { IfOk result (λ places. map denoted_place places.items ≡ places_in self.now.buffers) }
    {
        all_places(*self.savepoints.allocator(), &self.buffers)
    }

    /// The rows that the buffers hold with a lock, in ascending order and each once, but those that
    /// only the buffers `but` of the running procedure hold. Without such a row it needs no memory.
    /// Out of memory is the only error.
    pub fn rows_kept(&self, but: &[u32]) -> Result<RowIds, AllocError>
        ensures { IfOk result (λ rows. rows ≡ kept but.now self.now.buffers) }
    {
        let rows = kept_rows(*self.savepoints.allocator(), &self.buffers, but)?;
        Ok(Items::from_vec(rows))
    }

    /// Whether a procedure has a buffer.
    pub fn has_buffers(&self) -> bool
        ensures none { result ≡ false → HasNoBuffers self.now }
        ensures some { result ≡ true → HasNoBuffers self.now → ⊥ }
    {
        has_some(&self.buffers)
    }

    /// A level begins, and its copy is made. Where no record is pending it costs the same whatever
    /// the buffers hold.
    pub fn enter(&mut self, made: u64) -> Result<(), AllocError>
        ensures ok { OnOk result (self.new ≡ entered made self.old) }
        ensures err { OnErr result (self.new ≡ self.old) }
    {
        let Some(depth) = self.depth.checked_add(1) else {
            return Err(AllocError);
        };
        let pending = saved_records(*self.savepoints.allocator(), &self.buffers)?;
        self.savepoints.push(Savepoint {
            made,
            frames: self.undoable.len(),
            old_values: self.old_values.len(),
            pending,
        })?;
        self.depth = depth;
        Ok(())
    }

    /// The innermost level is left. Where it is the transaction's own, exclusive locks become share
    /// locks.
    pub fn leave(&mut self)
        ensures { self.new ≡ left self.old }
    {
        if let Some(_) = self.savepoints.pop() {
            self.depth = self.depth.saturating_sub(1);
            if self.savepoints.is_empty() {
                self.old_values.clear();
                share_all(&mut self.buffers);
            }
        }
    }

    /// Leaves the levels inside of level `depth`.
    pub fn leave_to(&mut self, depth: u32)
        ensures { self.new ≡ left_to depth self.old }
    {
        if depth < self.depth {
            self.savepoints.truncate(depth as usize);
            self.depth = depth;
        }
    }

    /// Restores the variables and the pending records of the innermost copy, which has all open
    /// procedures; its level stays open. Out of memory is the only error: pending records of the
    /// copy are copied.
    pub fn back(&mut self) -> Result<(), AllocError>
        ensures ok { OnOk result (IsWhole self.old → self.new ≡ restored self.old) }
        ensures err { OnErr result (self.new ≡ self.old) }
    {
        let Some(innermost) = self.savepoints.last() else {
            return Ok(());
        };
        let pending = copy_records(*self.savepoints.allocator(), &innermost.pending)?;
        if let Some(savepoint) = self.savepoints.pop() {
            restore(
                &mut self.undoable,
                &mut self.old_values,
                savepoint.old_values,
            );
            restore_records(&mut self.buffers, pending);
            self.savepoints.push_reserved(savepoint);
        }
        Ok(())
    }
}
