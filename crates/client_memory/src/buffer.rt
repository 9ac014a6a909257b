//! A record buffer (OpenEdge ABL Reference, DEFINE BUFFER statement): its table, what it holds, its
//! place in an index, and LOCKED.

ghost use Rattle.std.specs.Prelude.{◌≡◌, None, Some, IfOk, MatchOption, slice_index_or};
ghost use Rattle.abl_base.specs.declared.value.Value.{Value};
ghost use Rattle.block_meaning.specs.Values.{field_in, is_available as is_available_here};
ghost use Rattle.block_meaning.specs.Frames.{locked_row, pending_of, is_held};
ghost use Rattle.block_meaning.specs.Buffers.{as_share};
ghost use Rattle.client_memory.specs.Buffers.{denoted_content, denoted_held, held_shared, is_pending as is_pending_here};

use abl_base::{Items, Row, RowId, Value, copy_row};
use database_protocol::Cursor;
use std::alloc::AllocError;

/// The lock under which a buffer holds its row.
#[derive(Clone, Copy, Debug)]
pub enum Held {
    NoLock,
    Share,
    Exclusive,
}

/// What a buffer holds.
#[derive(Drop)]
pub enum Content {
    Empty,
    /// A row of the database. `made` is the number of the CREATE of this buffer that made it, if one
    /// did.
    Record {
        row: RowId,
        values: Row,
        held: Held,
        made: Option<u64>,
    },
    /// A record that is not inserted yet: its values, the fields assigned since its CREATE, and the
    /// number of that CREATE.
    Pending {
        values: Row,
        since: Items<u16>,
        made: u64,
    },
}

/// The place of the last record read in an index; in the order of row identities where there is no
/// index.
#[derive(Drop)]
pub struct Spot {
    pub index: Option<u16>,
    pub cursor: Cursor,
}

/// A buffer.
#[derive(Drop)]
pub struct Buffer {
    /// The number of its table, from 0 in the order of the schema file.
    pub table: u16,
    pub content: Content,
    pub spot: Option<Spot>,
    /// LOCKED: a FIND with NO-WAIT found the record held by another client.
    pub locked: bool,
}

/// A buffer of an open procedure: the number of procedures between that one and the running one,
/// and the buffer's number there.
#[derive(Clone, Copy, Debug)]
pub struct Place {
    pub out: usize,
    pub number: usize,
}

impl Place {
    /// The buffer of this number of the running procedure.
    pub fn own(number: usize) -> Place
        ensures { result ≡ record { out = 0; number = number } }
    {
        Place { out: 0, number }
    }
}

impl Held {
    /// Whether it is a lock.
    fn is_lock(self) -> bool
        ensures { result ≡ is_held (denoted_held self) }
    {
        match self {
            Held::NoLock => false,
            Held::Share => true,
            Held::Exclusive => true,
        }
    }
}

impl Content {
    /// Whether it is a record that is not inserted yet.
    pub fn is_pending(&self) -> bool
        ensures { result ≡ is_pending_here (denoted_content self.now) }
    {
        match self {
            Content::Empty => false,
            Content::Record { .. } => false,
            Content::Pending { .. } => true,
        }
    }

    /// The row that it holds with a lock.
    pub fn locked_row(&self) -> Option<RowId>
        ensures { result ≡ locked_row (denoted_content self.now) }
    {
        match self {
            Content::Empty => None,
            Content::Record { row, held, .. } => { if held.is_lock() { Some(*row) } else { None } }
            Content::Pending { .. } => None,
        }
    }

    /// AVAILABLE: it is a record.
    pub fn is_available(&self) -> bool
        ensures { result ≡ is_available_here (denoted_content self.now) }
    {
        match self {
            Content::Empty => false,
            Content::Record { .. } => true,
            Content::Pending { .. } => true,
        }
    }

    /// The field of this number; `unknown` where its row has no such field, and none where it is
    /// empty.
    pub fn field<'a>(&'a self, number: usize, unknown: &'a Value) -> Option<&'a Value>
        requires { unknown.now ≡ Value.Unknown }
        ensures { MatchOption result (field_in number (denoted_content self.now) ≡ None) (λ value. field_in number (denoted_content self.now) ≡ Some value.now) }
    {
        match self {
            Content::Empty => None,
            Content::Record { values, .. } => Some(value_at(values.as_slice(), number, unknown)),
            Content::Pending { values, .. } => Some(value_at(values.as_slice(), number, unknown)),
        }
    }

    /// An exclusive lock becomes a share lock.
    pub fn share(&mut self)
        ensures { denoted_content self.new ≡ as_share (denoted_content self.old) }
    {
        if let Content::Record { held, .. } = self {
            *held = shared(*held);
        }
    }

    /// A copy of it. Out of memory is the only error.
    pub fn copy(&self) -> Result<Content, AllocError>
        ensures { IfOk result (λ copy. denoted_content copy ≡ denoted_content self.now) }
    {
        match self {
            Content::Empty => Ok(Content::Empty),
            Content::Record {
                row,
                values,
                held,
                made,
            } => Ok(Content::Record {
                row: *row,
                values: copy_row(values)?,
                held: *held,
                made: *made,
            }),
            Content::Pending {
                values,
                since,
                made,
            } => Ok(Content::Pending {
                values: copy_row(values)?,
                since: since.copy()?,
                made: *made,
            }),
        }
    }

    /// What a copy has of it: a pending record, else Empty. Out of memory is the only error.
    pub fn saved(&self) -> Result<Content, AllocError>
        ensures { IfOk result (λ saved. denoted_content saved ≡ pending_of (denoted_content self.now)) }
    {
        match self {
            Content::Empty => Ok(Content::Empty),
            Content::Record { .. } => Ok(Content::Empty),
            Content::Pending { .. } => self.copy(),
        }
    }
}

/// The value of this number; `unknown` where there is none.
fn value_at<'a>(values: &'a [Value], number: usize, unknown: &'a Value) -> &'a Value
    ensures { result.now ≡ slice_index_or values.now number unknown.now }
{
    match values.get(number) {
        Some(value) => value,
        None => unknown,
    }
}

/// The lock after the end of the transaction, in which no exclusive lock is held.
fn shared(held: Held) -> Held
    ensures { denoted_held result ≡ held_shared (denoted_held held) }
{
    match held {
        Held::NoLock => Held::NoLock,
        Held::Share => Held::Share,
        Held::Exclusive => Held::Share,
    }
}
