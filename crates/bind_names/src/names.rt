//! What has a name, and where buffers are named.

use crate::listed::Listed;
use abl_base::{Bytes, Items, Kind, Place, Row};
use abl_values::HasName;
use bound_tree::Variable;
use syntax_tree::Direction;

/// A variable or parameter that is defined, with the mask that PUT shows it under.
#[derive(Drop)]
pub struct NamedVariable {
    pub name: Bytes,
    pub variable: Variable,
    pub mask: Bytes,
}

/// A buffer that is defined or named.
#[derive(Drop)]
pub struct NamedBuffer {
    pub name: Bytes,
    pub table: u16,
}

/// A stream that is defined, by its number from 1.
#[derive(Drop)]
pub struct NamedStream {
    pub name: Bytes,
    pub number: u32,
}

impl HasName for NamedVariable {
    ghost name_of = { λ item. item.name };

    fn name(&self) -> &[u8] {
        self.name.as_slice()
    }
}

impl HasName for NamedBuffer {
    ghost name_of = { λ item. item.name };

    fn name(&self) -> &[u8] {
        self.name.as_slice()
    }
}

impl HasName for NamedStream {
    ghost name_of = { λ item. item.name };

    fn name(&self) -> &[u8] {
        self.name.as_slice()
    }
}

/// What a procedure has defined so far.
#[derive(Drop)]
pub struct Defined {
    pub variables: Listed<NamedVariable>,
    /// The initial values of the variables that an UNDO restores, and of the NO-UNDO ones.
    pub undoable: Row,
    pub no_undo: Row,
    pub parameters: Items<Variable>,
    pub buffers: Listed<NamedBuffer>,
    pub streams: Listed<NamedStream>,
}

/// What is known at a place. A definition holds from its place on.
#[derive(Drop)]
pub struct Known {
    /// What the procedure that the place is in has defined.
    pub own: Defined,
    /// What the external procedure has defined, where the place is in an internal one.
    pub outer: Option<Defined>,
    /// The variables defined so far in the whole source, and the streams.
    pub variables: u32,
    pub streams: u32,
    /// The number of the next block.
    pub blocks: u32,
    pub inputs: Items<Bytes>,
    pub outputs: Items<Bytes>,
}

/// A parameter of a procedure.
#[derive(Clone, Copy, PartialEq, Eq)]
pub struct Formal {
    pub direction: Direction,
    pub kind: Kind,
}

/// A procedure, which may be run before its text.
#[derive(Drop)]
pub struct Signature {
    pub name: Bytes,
    pub formals: Items<Formal>,
}

impl HasName for Signature {
    ghost name_of = { λ item. item.name };

    fn name(&self) -> &[u8] {
        self.name.as_slice()
    }
}

/// A block around a place.
#[derive(Drop)]
pub struct Around {
    pub number: u32,
    pub label: Option<Bytes>,
    pub iterates: bool,
    pub undoes: bool,
}

/// How a buffer is named.
#[derive(Clone, Copy, PartialEq, Eq)]
pub enum NamingKind {
    /// By its DEFINE BUFFER, which is no reference.
    Definition,
    /// In the list of a DO FOR or REPEAT FOR.
    Strong,
    /// In the header of a FOR.
    Weak,
    /// Anywhere else.
    Free,
}

/// A naming of a buffer or of a field of it, in a procedure and the innermost block there. A naming
/// is explicit where it is the buffer's own name in a record statement, a FOR phrase, a DEFINE
/// BUFFER, an IMPORT, an EXPORT or a qualified name.
#[derive(Drop)]
pub struct Naming {
    pub procedure: u32,
    pub name: Bytes,
    pub table: u16,
    pub kind: NamingKind,
    pub explicit: bool,
    pub block: u32,
    pub place: Place,
}
