//! Statements (OpenEdge ABL Reference, each by its first word).

use crate::block::{Action, Header, Reading};
use crate::expression::{Expr, Variable};
use abl_base::{Bytes, Kind};

/// What is assigned to.
#[derive(Clone, Copy, PartialEq, Eq)]
pub enum Target {
    Variable(Variable),
    /// A field of the record in a buffer of the procedure.
    Field { buffer: u32, field: u16, kind: Kind },
}

/// The right side of an assignment.
#[derive(Drop)]
pub enum Right {
    Value(Expr),
    /// NEXT-VALUE of a sequence.
    NextValue(u16),
    /// CURRENT-VALUE of a sequence.
    CurrentValue(u16),
}

/// target = right.
#[derive(Drop)]
pub struct Assignment {
    pub target: Target,
    pub right: Right,
}

/// FIND without a word, FIRST, LAST, NEXT or PREV.
#[derive(Clone, Copy, PartialEq, Eq)]
pub enum FindWord {
    Only,
    First,
    Last,
    Next,
    Previous,
}

/// An argument of RUN.
#[derive(Drop)]
pub enum Argument {
    Input(Expr),
    Output(Variable),
    InputOutput(Variable),
}

/// An item of PUT.
#[derive(Drop)]
pub enum PutItem {
    /// A value under a mask that fits its kind: that of FORMAT, else of the variable or field, else
    /// of the kind. None under UNFORMATTED, the plain text.
    Shows { value: Expr, mask: Option<Bytes> },
    /// SKIP: the number of line feeds, 1 to 99.
    Skip(u32),
    /// SPACE: the number of blanks, 1 to 99.
    Space(u32),
}

/// A statement. `no_error`: it has NO-ERROR. Stream 0 is the unnamed one.
#[derive(Drop)]
pub enum Stmt {
    /// DO, REPEAT or FOR.
    Block {
        header: Box<Header>,
        body: Vec<Stmt>,
    },
    /// IF; each branch has one statement or none.
    If {
        test: Expr,
        then_body: Vec<Stmt>,
        else_body: Vec<Stmt>,
    },
    /// An assignment, or ASSIGN.
    Assign {
        pairs: Vec<Assignment>,
        no_error: bool,
    },
    /// FIND; `wait`: it has no NO-WAIT.
    Find {
        word: FindWord,
        reading: Box<Reading>,
        wait: bool,
        no_error: bool,
    },
    /// FIND CURRENT, which has neither bracket nor test.
    FindCurrent {
        reading: Box<Reading>,
        wait: bool,
        no_error: bool,
    },
    Create {
        buffer: u32,
        no_error: bool,
    },
    Delete {
        buffer: u32,
        no_error: bool,
    },
    Release {
        buffer: u32,
        no_error: bool,
    },
    /// UNDO of the block of this number, and what happens then.
    Undo {
        block: u32,
        action: Action,
    },
    /// LEAVE of the block of this number.
    Leave(u32),
    /// NEXT of the block of this number.
    Next(u32),
    /// RETURN with its value.
    Return(Option<Expr>),
    /// RETURN ERROR with its value, and the block that it undoes: the innermost with the undo
    /// property.
    ReturnError {
        block: u32,
        value: Option<Expr>,
    },
    Stop,
    /// RUN of an internal procedure.
    Run {
        procedure: u32,
        arguments: Vec<Argument>,
        no_error: bool,
    },
    /// IMPORT; None is `^`. A buffer means its fields in order.
    Import {
        stream: u32,
        targets: Vec<Option<Target>>,
        no_error: bool,
    },
    /// EXPORT of values.
    Export {
        stream: u32,
        values: Vec<Expr>,
    },
    /// EXPORT of the fields of a buffer in order.
    ExportRecord {
        stream: u32,
        buffer: u32,
    },
    Put {
        stream: u32,
        items: Vec<PutItem>,
    },
    Message(Vec<Expr>),
    /// OUTPUT TO a named output.
    OutputTo {
        stream: u32,
        output: u32,
        append: bool,
    },
    /// OUTPUT CLOSE of a stream.
    OutputClose(u32),
    /// INPUT FROM a named input.
    InputFrom {
        stream: u32,
        input: u32,
    },
    /// INPUT CLOSE of a stream.
    InputClose(u32),
}
