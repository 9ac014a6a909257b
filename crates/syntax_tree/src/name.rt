//! Names and texts of a source.

use abl_base::{Bytes, Place};

/// A name as the source spells it, or the bytes of a text literal, and its place.
#[derive(Drop)]
pub struct Word {
    pub spelling: Bytes,
    pub at: Place,
}

/// A name alone, or `buffer.field`.
#[derive(Drop)]
pub enum Named {
    Plain(Word),
    Qualified {
        buffer: Bytes,
        field: Bytes,
        at: Place,
    },
}

impl Named {
    ghost use Rattle.std.specs.Prelude.{◌≡◌};
    ghost use Rattle.syntax_tree.specs.Syntax.{named_at};

    /// The place of its token.
    pub fn at(&self) -> Place
        ensures { result ≡ named_at self.now }
    {
        match self {
            Named::Plain(word) => word.at,
            Named::Qualified { at, .. } => *at,
        }
    }
}
