//! The buffers that a procedure names, those of each table together.

ghost use Rattle.std.specs.Prelude.{◌≡◌, ◌<◌, ◌∷◌, ◌++◌, [], IfOk, IfSome, List, OnOk, length, slice_index_or, slice_set};
ghost use Rattle.bind_names.specs.ByTable.{IsGrouping, no_group, with_more};
ghost use Rattle.bind_names.specs.declared.names.NamedBuffer.{NamedBuffer as TheBuffer};

use crate::listed::Listed;
use crate::names::NamedBuffer;
use abl_base::Items;
use std::alloc::{AllocError, Global};
use std::marker::Model;

/// Buffers of one table.
#[derive(Drop)]
pub struct TableGroup {
    pub table: u16,
    pub buffers: Items<NamedBuffer>,
}

/// A list of buffers, and the same buffers grouped by their tables: where the fields of no buffer
/// but those of some tables are asked for, the buffers of the others need not be read.
#[derive(Drop)]
pub struct ByTable {
    list: Listed<NamedBuffer>,
    groups: Vec<TableGroup>,
}

impl Model for ByTable {
    ghost use Rattle.std.specs.Prelude.{List, []};
    ghost use Rattle.bind_names.specs.ByTable.{IsGrouping};
    ghost use Rattle.bind_names.specs.declared.names.NamedBuffer.{NamedBuffer};

    ghost Value = { List NamedBuffer };

    ghost view = { λ by_table. by_table.list };

    ghost invariant = { λ by_table. IsGrouping by_table.list [] by_table.groups.items };
}

/// The number of the group of a table.
fn group_of(groups: &[TableGroup], table: u16) -> Option<usize>
    ensures within { IfSome result (λ number. number < length groups.now) }
    ensures table { IfSome result (λ number. (slice_index_or groups.now number no_group).table ≡ table) }
{
    for i in 0..groups.len() {
        if groups[i].table == table {
            return Some(i);
        }
    }
    None
}

/// Adds a buffer to a group that is there.
fn put(groups: &mut Vec<TableGroup>, number: usize, buffer: NamedBuffer) -> Result<(), AllocError>
    requires { number < length groups.old.items }
    ensures { OnOk result (groups.new.items ≡ slice_set groups.old.items number (with_more (slice_index_or groups.old.items number no_group) buffer)) }
{
    groups[number].buffers.push(buffer)?;
    Ok(())
}

/// Adds a group of one buffer.
fn put_new(
    alloc: Global,
    groups: &mut Vec<TableGroup>,
    buffer: NamedBuffer,
) -> Result<(), AllocError>
    ensures { OnOk result (groups.new.items ≡ groups.old.items ++ with_more (record { table = buffer.table; buffers = [] }) buffer ∷ []) }
{
    let table = buffer.table;
    let mut buffers = Items::empty(alloc);
    buffers.push(buffer)?;
    groups.push(TableGroup { table, buffers })?;
    Ok(())
}

/// Adds a buffer to the group of its table.
fn put_somewhere(
    alloc: Global,
    groups: &mut Vec<TableGroup>,
    buffer: NamedBuffer,
) -> Result<(), AllocError>
    ensures { (all left : List TheBuffer) → IsGrouping all (buffer ∷ left) groups.old.items → OnOk result (IsGrouping all left groups.new.items) }
{
    match group_of(groups.as_slice(), buffer.table) {
        Some(number) => {
            put(groups, number, buffer)?;
            Ok(())
        }
        None => {
            put_new(alloc, groups, buffer)?;
            Ok(())
        }
    }
}

/// A buffer as it is.
fn copy_of(buffer: &NamedBuffer) -> Result<NamedBuffer, AllocError>
    ensures { IfOk result (λ copy. copy ≡ buffer.now) }
{
    Ok(NamedBuffer {
        name: buffer.name.copy()?,
        table: buffer.table,
    })
}

/// Adds a copy of a buffer to the group of its table.
fn add(alloc: Global, groups: &mut Vec<TableGroup>, buffer: &NamedBuffer) -> Result<(), AllocError>
    ensures { (all left : List TheBuffer) → IsGrouping all (buffer.now ∷ left) groups.old.items → OnOk result (IsGrouping all left groups.new.items) }
{
    let copy = copy_of(buffer)?;
    put_somewhere(alloc, groups, copy)?;
    Ok(())
}

/// Buffers in groups, those of each table together.
#[tactic(auto, using(crate::proofs::ByTables::none_grouped))]
fn grouped(alloc: Global, buffers: &[NamedBuffer]) -> Result<Vec<TableGroup>, AllocError>
    ensures { IfOk result (λ groups. IsGrouping buffers.now [] groups.items) }
{
    let mut groups = Vec::new(alloc);
    for buffer in buffers {
        add(alloc, &mut groups, buffer)?;
    }
    Ok(groups)
}

impl ByTable {
    /// These buffers. Out of memory is the only error.
    pub fn of(alloc: Global, list: Listed<NamedBuffer>) -> Result<ByTable, AllocError>
        ensures { IfOk result (λ by_table. by_table ≡ list) }
    {
        let groups = grouped(alloc, list.as_slice())?;
        Ok(ByTable { list, groups })
    }

    /// The buffers in groups, each one once.
    pub fn groups(&self) -> &[TableGroup]
        ensures { IsGrouping self.now [] result.now }
    {
        self.groups.as_slice()
    }
}
