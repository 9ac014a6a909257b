//! Procedures, and the whole bound source.

use crate::block::Header;
use crate::expression::Variable;
use crate::statement::Stmt;
use abl_base::{Bytes, Place, Row};

/// A buffer of a procedure. They are numbered by their first naming, DEFINE BUFFER included.
#[derive(Drop)]
pub struct BufferDef {
    /// As its DEFINE BUFFER or the schema file spells it.
    pub name: Bytes,
    /// The number of its table, from 0 in the order of the schema file.
    pub table: u16,
}

/// How a buffer is named.
#[derive(Clone, Copy, PartialEq, Eq)]
pub enum ReferenceKind {
    /// In the list of a DO FOR or REPEAT FOR.
    Strong,
    /// In the header of a FOR.
    Weak,
    /// Anywhere else; a definition is no reference.
    Free,
}

/// A naming of a buffer or of a field of it (OpenEdge ABL Reference, Record scope). The scopes of
/// buffers are found from these.
#[derive(Clone, Copy, PartialEq, Eq)]
pub struct Reference {
    pub buffer: u32,
    pub kind: ReferenceKind,
    /// The number of the innermost block that contains it; for a strong or weak one the block
    /// whose header it is in.
    pub block: u32,
    pub place: Place,
}

/// A procedure: the external one, or an internal one.
#[derive(Drop)]
pub struct Procedure {
    /// As its PROCEDURE statement spells it, and empty for the external one.
    pub name: Bytes,
    /// The initial values of its undoable variables.
    pub undoable: Row,
    /// The initial values of its NO-UNDO variables.
    pub no_undo: Row,
    pub buffers: Vec<BufferDef>,
    /// The variables that are its parameters, in order.
    pub parameters: Vec<Variable>,
    pub header: Box<Header>,
    pub body: Vec<Stmt>,
    /// In text order.
    pub references: Vec<Reference>,
}

/// A bound source.
#[derive(Drop)]
pub struct Bound {
    /// The external procedure first, then the internal ones in text order.
    pub procedures: Vec<Procedure>,
    /// The number of streams beside the unnamed one. Streams of all procedures are numbered
    /// from 1 in text order.
    pub streams: u32,
    /// The names after OUTPUT TO, each once, in text order.
    pub outputs: Vec<Bytes>,
    /// The names after INPUT FROM, each once, in text order.
    pub inputs: Vec<Bytes>,
}
