//! Definitions of variables, parameters, buffers and streams.

use crate::name::Word;
use crate::word::Direction;
use abl_base::{Kind, Place, Value};

/// An option of a variable. The value of a literal has the sign before it, and its place is that
/// of its first token.
#[derive(Drop)]
pub enum VariableOption {
    NoUndo {
        at: Place,
    },
    Initial {
        at: Place,
        value: Value,
        literal_at: Place,
    },
    Format {
        at: Place,
        mask: Word,
    },
    Label {
        at: Place,
    },
}

/// A definition. The place of a parameter is that of the keyword PARAMETER.
#[derive(Drop)]
pub enum Definition {
    Variable {
        name: Word,
        kind: Kind,
        options: Vec<VariableOption>,
    },
    Parameter {
        direction: Direction,
        at: Place,
        name: Word,
        kind: Kind,
        options: Vec<VariableOption>,
    },
    Buffer {
        name: Word,
        table: Word,
    },
    Stream(Word),
}
