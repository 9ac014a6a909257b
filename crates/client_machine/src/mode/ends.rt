//! Ends of iterations and UNDO with record buffers: pending records are inserted, buffers are released
//! or emptied, levels are left.

use crate::mode::{AfterUndo, Completion, IterationData, TurnData};
use abl_base::{Items, Row, RowId};
use client_memory::buffer::{Held, Place};

/// Buffers of the running procedure that are released with their blocks.
#[derive(Drop)]
pub enum BufferList {
    /// None.
    None,
    /// Those that are scoped to the block at the place.
    Scoped(usize),
    /// Those of several blocks.
    These(Items<u32>),
}

/// A task of the end of an iteration. `from` is the index of the next item of its list.
#[derive(Drop)]
pub enum EndTask {
    /// Inserts the record in a buffer, if it is pending.
    EntersOne(Place),
    Enters {
        places: Items<Place>,
        from: usize,
    },
    /// Empties a buffer, and drops its lock where nothing needs it.
    Drops(u32),
    /// Releases the buffers scoped to the block at the place.
    Releases {
        place: usize,
        from: usize,
    },
    /// At the end of the transaction inserts every pending record.
    EntersRest(Option<u32>),
    /// Leaves the level of an iteration of the block at the place, if it has one. It is above the
    /// `AfterClosing` of that iteration alone.
    LeavesIf {
        depth: Option<u32>,
        place: usize,
    },
    /// Leaves the innermost level, and releases the locks of these buffers.
    LeavesNow(BufferList),
    /// Closes an iteration, whose `AfterClosing` is below.
    Closing {
        place: usize,
        depth: Option<u32>,
    },
    GoesBack {
        depth: Option<u32>,
        but: BufferList,
    },
    AfterBack {
        depth: u32,
        but: BufferList,
    },
    /// Refreshes the buffer at a place; `made` CREATEs preceded the copy.
    UpdatesOne {
        made: u64,
        place: Place,
    },
    /// Refreshes buffers of all procedures, except those of the running one that are listed.
    Updates {
        made: u64,
        but: BufferList,
        places: Items<Place>,
        from: usize,
    },
    Empties(BufferList),
    /// Releases the buffers of an undone iteration, and ends it. Its level is left already.
    Closes {
        place: usize,
        turn: TurnData,
        completion: Completion,
    },
}

/// An entry of the end of an iteration.
#[derive(Drop)]
pub enum EndEntry {
    /// After the iteration is closed, it completes with this completion.
    AfterClosing {
        place: usize,
        iteration: IterationData,
        completion: Completion,
    },
}

/// What follows an answer at the end of an iteration.
#[derive(Drop)]
pub enum EndAnswer {
    /// After Insert; the operation has the table and the values.
    WasInserted {
        place: Place,
        made: u64,
    },
    WasDropped,
    WasBack {
        depth: u32,
        but: BufferList,
    },
    /// After Get of the row that the buffer at the place holds.
    WasGot {
        place: Place,
        row: RowId,
        held: Held,
        made: Option<u64>,
    },
}
