//! Blocks and their headers (OpenEdge ABL Reference, DO, REPEAT and FOR statements; ON ERROR and
//! ON ENDKEY phrases; Block properties).

use crate::expression::{Expr, Variable};
use abl_base::{Kind, Place};

/// What happens after a block was undone.
#[derive(Drop)]
pub enum Action {
    /// Its iteration begins again.
    Retry,
    /// LEAVE of the block of this number.
    Leave(u32),
    /// NEXT of the block of this number, which iterates.
    Next(u32),
    /// RETURN, or RETURN ERROR, with its value.
    Return { error: bool, value: Option<Expr> },
}

/// ON ERROR or ON ENDKEY: the number of the block that it undoes, and what happens then.
#[derive(Drop)]
pub struct OnPhrase {
    pub target: u32,
    pub action: Action,
}

/// NO-LOCK, SHARE-LOCK or EXCLUSIVE-LOCK; SHARE-LOCK where the source has none of them.
#[derive(Clone, Copy, PartialEq, Eq)]
pub enum LockWanted {
    NoLock,
    Share,
    Exclusive,
}

/// A value of the bracket, and the kind of the index component that it is compared with.
#[derive(Drop)]
pub struct BracketValue {
    pub kind: Kind,
    pub value: Expr,
}

/// Which records are read, and how they are locked.
#[derive(Drop)]
pub struct Reading {
    pub buffer: u32,
    /// The number of the index of the buffer's table; None means the order of row identities.
    pub index: Option<u16>,
    /// The values of the leading components of the index.
    pub bracket: Vec<BracketValue>,
    /// WHERE.
    pub test: Option<Expr>,
    pub lock: LockWanted,
}

/// EACH, FIRST or LAST of a FOR.
#[derive(Clone, Copy, PartialEq, Eq)]
pub enum FetchWord {
    Each,
    First,
    Last,
}

/// The record phrase of a FOR.
#[derive(Drop)]
pub struct Fetch {
    pub word: FetchWord,
    pub reading: Reading,
}

/// variable = start TO end BY step.
#[derive(Drop)]
pub struct ToPhrase {
    pub variable: Variable,
    pub start: Expr,
    pub end: Expr,
    pub by: Option<Expr>,
}

/// What a block is.
#[derive(Clone, Copy, PartialEq, Eq)]
pub enum BlockKind {
    /// The block of a procedure, internal or external.
    Procedure,
    Do,
    Repeat,
    For,
}

/// The properties of a block that its text implies. The binder leaves each of them false; the
/// pass over block properties sets them.
#[derive(Clone, Copy, PartialEq, Eq)]
pub struct Flags {
    /// It starts a transaction where none is open.
    pub starts: bool,
    /// It has the undo property: an UNDO, ERROR or ENDKEY can undo it.
    pub undo: bool,
    /// It names RETRY outside inner blocks with the undo property.
    pub retry_seen: bool,
}

/// The header of a block.
#[derive(Drop)]
pub struct Header {
    /// Its number among all blocks of the source, from 0, in the order in which they begin; the
    /// external procedure's block is 0.
    pub number: u32,
    pub kind: BlockKind,
    /// The place of its first word, and of the source's first byte for the external procedure's block.
    pub place: Place,
    /// It has the word TRANSACTION.
    pub transaction: bool,
    pub flags: Flags,
    /// The numbers of the buffers scoped to it, ascending. The binder leaves it empty; the pass over
    /// record scopes fills it.
    pub scoped: Vec<u32>,
    pub to: Option<ToPhrase>,
    /// WHILE.
    pub while_test: Option<Expr>,
    /// Where the block is a FOR.
    pub fetch: Option<Fetch>,
    pub on_error: Option<OnPhrase>,
    pub on_endkey: Option<OnPhrase>,
}
