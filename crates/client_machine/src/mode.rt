//! What a machine does next, and the entries of its stack. The tasks, entries and answers of records
//! are families of their own: ends of iterations, reads, and changes.

pub mod changes;
pub mod ends;
pub mod reads;

use crate::mode::changes::{ChangeAnswer, ChangeEntry, ChangeTask};
use crate::mode::ends::{BufferList, EndAnswer, EndEntry, EndTask};
use crate::mode::reads::{ReadAnswer, ReadEntry, ReadTask};
use abl_base::{Row, Value};
use block_meaning::StopWhy;
use database_protocol::{Cursor, Op};
use expression_meaning::RunFault;
use record_rules::lines::Complaint;

/// The data with which an iteration, or a retry of one, begins.
#[derive(Drop)]
pub struct TurnData {
    pub retry: bool,
    /// The start value of TO, until it is set.
    pub start: Option<Value>,
    pub by: Value,
    /// FOR: the cursor of the record that it has read last.
    pub own: Option<Cursor>,
}

/// An iteration: the level that it opened, if any, and its data.
#[derive(Drop)]
pub struct IterationData {
    pub depth: Option<u32>,
    pub turn: TurnData,
}

/// The part of an instruction that contains the expression of a RETURN.
#[derive(Clone, Copy, Debug)]
pub enum ReturnSource {
    /// The statement RETURN or RETURN ERROR.
    Statement,
    /// The statement UNDO.
    Undo,
    /// ON ERROR of the header.
    OnError,
    /// ON ENDKEY of the header.
    OnEndKey,
}

/// What happens after a block was undone.
#[derive(Clone, Copy, Debug)]
pub enum AfterUndo {
    Retry,
    Leave(u32),
    Next(u32),
    /// RETURN, or RETURN ERROR: its expression, if it has one, is in the code.
    Return {
        error: bool,
        place: usize,
        source: ReturnSource,
    },
    /// The client, or the RUN, ends with ERROR; RETURN-VALUE is set already.
    Error,
}

/// What unwinding has passed: the outermost level opened there, and the buffers scoped there.
#[derive(Drop)]
pub struct PassedLevels {
    pub first: Option<u32>,
    pub buffers: BufferList,
}

/// A fault of a statement or a header that has a line.
#[derive(Clone, Copy)]
pub enum LineFault {
    /// An expression, or a value that is assigned.
    Expression(RunFault),
    /// A record, the database or a line of input.
    Complaint(Complaint),
}

/// How a statement, an iteration or a block completes.
#[derive(Drop)]
pub enum Completion {
    Normal,
    Again(TurnData),
    Leaves(u32),
    Nexts(u32),
    Undoes {
        block: u32,
        after_undo: AfterUndo,
        retry: bool,
        passed: PassedLevels,
    },
    /// None: without a line, as RETURN ERROR of a procedure that was RUN.
    Faults(Option<LineFault>),
    Raises(PassedLevels),
    EndKeys(PassedLevels),
    /// A search has found a record, which its buffer holds now.
    Found(Cursor),
    /// A search has found a record that was gone then.
    Lost,
    /// A search has found no record.
    NotFound,
    Returns(bool),
    Stops(StopWhy),
}

/// What a machine is about to do. A block is named by the place of its `Block`; `left` is the number
/// of procedures that may still be opened.
#[derive(Drop)]
pub enum Task {
    RunsFrom {
        place: usize,
        left: u32,
        retry: bool,
    },
    Blocks {
        place: usize,
        outer: bool,
        left: u32,
    },
    Turns {
        fuel: u64,
        place: usize,
        outer: bool,
        left: u32,
        turn: TurnData,
    },
    EntersLevel {
        place: usize,
        turn: TurnData,
        retry: bool,
        left: u32,
    },
    Begins {
        place: usize,
        depth: Option<u32>,
        turn: TurnData,
        retry: bool,
        left: u32,
    },
    Iterates {
        place: usize,
        outer: bool,
        left: u32,
        turn: TurnData,
    },
    UndoComes {
        place: usize,
        iteration: IterationData,
        block: u32,
        after_undo: AfterUndo,
        retry: bool,
        passed: PassedLevels,
    },
    GoesBack(Option<u32>),
    /// After the block at the place was undone. It names no level, because that level has been
    /// left.
    Acts {
        place: usize,
        turn: TurnData,
        after_undo: AfterUndo,
        retry: bool,
    },
    LeavesNow,
    Completes(Completion),
    EndsWith {
        place: usize,
        iteration: IterationData,
        completion: Completion,
    },
    /// The RUN at the place, with the values that its arguments pass in.
    Calls {
        place: usize,
        left: u32,
        values: Row,
    },
    End(EndTask),
    Read(ReadTask),
    Change(ChangeTask),
}

/// An entry of the stack: what follows when the task above it has completed.
#[derive(Drop)]
pub enum StackEntry {
    Then(Task),
    Handles(bool),
    In {
        place: usize,
        iteration: IterationData,
    },
    AndAgain {
        fuel: u64,
        place: usize,
        outer: bool,
        left: u32,
    },
    /// The procedure that the RUN at the place runs.
    Called(usize),
    End(EndEntry),
    Read(ReadEntry),
    Change(ChangeEntry),
}

/// What follows an answer.
#[derive(Drop)]
pub enum OnAnswer {
    WasEntered {
        place: usize,
        turn: TurnData,
        retry: bool,
        left: u32,
    },
    /// No buffer was passed.
    WasBack(u32),
    WasLeft,
    End(EndAnswer),
    Read(ReadAnswer),
    Change(ChangeAnswer),
}

/// What a machine does next.
#[derive(Drop)]
pub enum Mode {
    Execute(Task),
    Unwind(Completion),
    Await { op: Op, on_answer: OnAnswer },
}
