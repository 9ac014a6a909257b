//! The buffers of the running procedure.

ghost use Rattle.std.specs.Prelude.{◌≡◌, None, Some};
ghost use Rattle.abl_base.specs.declared.value.Value.{Value};
ghost use Rattle.block_meaning.specs.State.{State};
ghost use Rattle.block_meaning.specs.Reads.{held_as};
ghost use Rattle.client_memory.specs.Buffers.{denoted_held};
ghost use Rattle.client_memory.specs.Frames.{state_with};
ghost use Rattle.client_values.specs.Reads.{Reads};
ghost use Rattle.client_values.specs.Scope.{env_in};
ghost use Rattle.buffer_steps.specs.buffers.Fixed.{fixed_of};

use crate::reads::{Current, RecordBuffers};
use abl_base::{Row, RowId, Value};
use bound_tree::{Expr, LockWanted, Reading};
use client_memory::{Content, Held, Memory, Place, Spot};
use client_values::scope::Scope;
use database_protocol::Cursor;
use evaluator::EvalFault;
use record_rules::cursor_in;
use record_rules::readings::{bracket_row, passes};
use std::alloc::{AllocError, Global};

/// The buffers of the running procedure, in the memory of a client, and what its expressions read
/// beside it: ERROR-STATUS:ERROR and RETURN-VALUE.
#[derive(Drop)]
pub struct RunningBuffers<'a> {
    pub memory: &'a mut Memory,
    /// The numbers of the open procedures, the outermost first.
    pub procedures: &'a [u32],
    pub error: bool,
    pub returned: &'a [u8],
}

/// What an expression reads of them, with this value of RETRY.
fn scope<'a>(buffers: &'a RunningBuffers<'_>, unknown: &'a Value, retry: bool) -> Scope<'a>
    requires { unknown.now ≡ Value.Unknown }
    ensures { env_in result.memory.now result.retry result.status result.returned.now ≡ env_in buffers.now.memory.now retry buffers.now.error buffers.now.returned.now }
{
    Scope {
        memory: &*buffers.memory,
        unknown,
        retry,
        status: buffers.error,
        returned: buffers.returned,
    }
}

/// A buffer of the running procedure.
fn own(buffer: u32) -> Place
    ensures { result ≡ record { out = 0; number = buffer } }
{
    Place::own(buffer as usize)
}

/// The lock under which a buffer holds a row that is read so.
fn held_as(lock: LockWanted) -> Held
    ensures { denoted_held result ≡ held_as lock }
{
    match lock {
        LockWanted::NoLock => Held::NoLock,
        LockWanted::Share => Held::Share,
        LockWanted::Exclusive => Held::Exclusive,
    }
}

impl RecordBuffers for RunningBuffers<'_> {
    ghost fits = { λ p rest b. Reads p rest b.procedures.now b.memory.now b.error b.returned.now };

    ghost state = { λ rest b. state_with rest b.procedures.now b.memory.now };

    ghost fixed = { fixed_of };

    fn table(&self, buffer: u32) -> u16 {
        match self.memory.buffer(own(buffer)) {
            Some(buffer) => buffer.table,
            None => 0,
        }
    }

    fn place(&self, reading: &Reading) -> Result<Option<Cursor>, AllocError> {
        let Some(buffer) = self.memory.buffer(own(reading.buffer)) else {
            return Ok(None);
        };
        let Some(spot) = &buffer.spot else {
            return Ok(None);
        };
        match cursor_in(reading.index, spot.index, &spot.cursor) {
            Some(cursor) => Ok(Some(cursor.copy()?)),
            None => Ok(None),
        }
    }

    fn current(&self, buffer: u32) -> Current {
        let Some(buffer) = self.memory.buffer(own(buffer)) else {
            return Current::Empty;
        };
        match &buffer.content {
            Content::Empty => Current::Empty,
            Content::Pending { .. } => Current::Pending,
            Content::Record { row, made, .. } => Current::Record {
                row: *row,
                made: *made,
            },
        }
    }

    fn passes(&self, alloc: Global, test: &Option<Expr>, retry: bool) -> Result<bool, EvalFault> {
        let unknown = Value::Unknown;
        passes(alloc, &scope(self, &unknown, retry), test)
    }

    fn bracket(&self, alloc: Global, reading: &Reading, retry: bool) -> Result<Row, EvalFault> {
        let unknown = Value::Unknown;
        bracket_row(alloc, &scope(self, &unknown, retry), reading)
    }

    fn show(&mut self, buffer: u32, row: RowId, values: Row) {
        self.hold(buffer, row, values, LockWanted::NoLock, None);
    }

    fn hold(&mut self, buffer: u32, row: RowId, values: Row, lock: LockWanted, made: Option<u64>) {
        let content = Content::Record {
            row,
            values,
            held: held_as(lock),
            made,
        };
        let _ = self.memory.replace(own(buffer), content);
    }

    fn lock(&mut self, buffer: u32, lock: LockWanted) {
        match self.memory.replace(own(buffer), Content::Empty) {
            Content::Record {
                row,
                values,
                made,
                ..
            } => self.hold(buffer, row, values, lock, made),
            Content::Pending { .. } => {}
            Content::Empty => {}
        }
    }

    fn empty(&mut self, buffer: u32) {
        let _ = self.memory.replace(own(buffer), Content::Empty);
    }

    fn set_locked(&mut self, buffer: u32, locked: bool) {
        self.memory.set_locked(own(buffer), locked);
    }

    fn set_place(&mut self, reading: &Reading, cursor: Cursor) {
        let spot = Spot {
            index: reading.index,
            cursor,
        };
        self.memory.set_spot(own(reading.buffer), Some(spot));
    }

    fn clear_place(&mut self, buffer: u32) {
        self.memory.set_spot(own(buffer), None);
    }
}
