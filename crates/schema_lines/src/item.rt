//! What the lines of a schema file say.

use abl_base::{Bytes, Items, Kind};

/// A text that a line gives: one in quotation marks, or a word.
#[derive(Drop)]
pub struct Given {
    pub quoted: bool,
    pub text: Bytes,
}

/// A component of an index, as its line names it.
#[derive(Drop)]
pub struct Component {
    pub field: Bytes,
    pub descending: bool,
}

/// What an item is, by its first line. A field of an unsupported type has no kind.
#[derive(Drop)]
pub enum Head {
    /// The line has no form of an item.
    Malformed,
    Table {
        name: Bytes,
    },
    Field {
        name: Bytes,
        table: Bytes,
        kind: Option<Kind>,
    },
    Index {
        name: Bytes,
        table: Bytes,
    },
    Sequence {
        name: Bytes,
    },
}

/// What an attribute line says. What a line gives that is not of the attribute's form is none.
#[derive(Drop)]
pub enum Attribute {
    Initial(Option<Given>),
    Format(Bytes),
    Mandatory,
    Order(Option<u32>),
    Extent(Option<u32>),
    Unique,
    Primary,
    Word,
    IndexField(Option<Component>),
    Increment(Option<i64>),
}

/// What a line says.
#[derive(Drop)]
pub enum Line {
    Skipped,
    Begins(Head),
    Says(Attribute),
}

/// An attribute and the number of its line.
#[derive(Drop)]
pub struct Attributed {
    pub line: u32,
    pub attribute: Attribute,
}

/// An item: the number of its first line, what it is, and the attributes under it in order.
#[derive(Drop)]
pub struct Item {
    pub line: u32,
    pub head: Head,
    pub attributes: Items<Attributed>,
}
