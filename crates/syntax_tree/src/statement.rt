//! Statements.

use crate::block::{Action, Head};
use crate::definition::Definition;
use crate::expression::Expression;
use crate::name::{Named, Word};
use crate::record::RecordOption;
use crate::word::FindWhich;
use abl_base::Place;

/// The right side of an assignment. The place of a sequence function is that of its keyword.
#[derive(Drop)]
pub enum RightSide {
    Value(Expression),
    NextValue { at: Place, sequence: Word },
    CurrentValue { at: Place, sequence: Word },
}

/// target = right.
#[derive(Drop)]
pub struct Pair {
    pub target: Named,
    pub right: RightSide,
}

/// An argument of RUN. The place is that of its first token.
#[derive(Drop)]
pub enum Argument {
    Input { at: Place, value: Expression },
    Output { at: Place, name: Word },
    InputOutput { at: Place, name: Word },
}

/// The number after SKIP or SPACE.
#[derive(Clone, Copy, PartialEq, Eq)]
pub struct Count {
    pub number: u64,
    pub at: Place,
}

/// An item of PUT.
#[derive(Drop)]
pub enum PutItem {
    Shows {
        value: Expression,
        mask: Option<Word>,
    },
    Skip(Option<Count>),
    Space(Option<Count>),
}

/// A statement; `quiet` is whether it has NO-ERROR.
#[derive(Drop)]
pub enum Statement {
    Block {
        head: Box<Head>,
        body: Vec<Statement>,
    },
    If {
        test: Box<Expression>,
        then_it: Box<Statement>,
        else_it: Option<Box<Statement>>,
    },
    Define(Definition),
    Assign {
        pairs: Vec<Pair>,
        quiet: bool,
    },
    Find {
        which: FindWhich,
        buffer: Word,
        options: Vec<RecordOption>,
    },
    Create {
        buffer: Word,
        quiet: bool,
    },
    Delete {
        buffer: Word,
        quiet: bool,
    },
    Release {
        buffer: Word,
        quiet: bool,
    },
    Undo {
        at: Place,
        label: Option<Word>,
        action: Option<Box<Action>>,
    },
    Leave {
        at: Place,
        label: Option<Word>,
    },
    Next {
        at: Place,
        label: Option<Word>,
    },
    Return {
        at: Place,
        error: bool,
        value: Option<Box<Expression>>,
    },
    Stop,
    Run {
        procedure: Word,
        arguments: Vec<Argument>,
        quiet: bool,
    },
    /// A target that is None is `^`.
    Import {
        stream: Option<Word>,
        targets: Vec<Option<Named>>,
        quiet: bool,
    },
    Export {
        stream: Option<Word>,
        values: Vec<Expression>,
    },
    /// `plain` is whether it has UNFORMATTED.
    Put {
        stream: Option<Word>,
        plain: bool,
        items: Vec<PutItem>,
    },
    Message(Vec<Expression>),
    /// INPUT FROM a file, and INPUT CLOSE where there is none.
    InputFrom {
        stream: Option<Word>,
        file: Option<Word>,
    },
    /// OUTPUT TO a file, and OUTPUT CLOSE where there is none.
    OutputTo {
        stream: Option<Word>,
        file: Option<Word>,
        append: bool,
    },
}
