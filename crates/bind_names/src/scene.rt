//! A place of a source, as names are looked up there.

use crate::by_table::ByTable;
use crate::listed::Listed;
use crate::names::{Around, Known, NamedBuffer, Naming, Signature};
use abl_base::Items;
use abl_values::Schema;

/// A place of a source.
#[derive(Drop)]
pub struct Scene<'a> {
    pub schema: &'a Schema,
    /// The namings of buffers in the source.
    pub namings: &'a [Naming],
    pub procedures: &'a Listed<Signature>,
    pub known: Known,
    /// The number of its procedure.
    pub procedure: u32,
    /// All buffers of this procedure in the order of their first namings, and those that it names
    /// explicitly.
    pub buffers: Listed<NamedBuffer>,
    pub named: ByTable,
    /// The blocks around it, the innermost first, and the number of that one.
    pub around: Items<Around>,
    pub block: u32,
}
