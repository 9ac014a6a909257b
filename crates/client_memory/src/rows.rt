//! The rows that the buffers of a client hold with a lock.

ghost use Rattle.std.specs.Prelude.{◌≡◌, [], IfOk, OnOk, slice_index_or};
ghost use Rattle.block_meaning.specs.Frames.{is_in as is_in_here, locked_row, no_buffer};
ghost use Rattle.block_meaning.specs.Buffers.{all_rows as all_rows_here, rows_from, unless_in, with_row, with_row_of};
ghost use Rattle.client_memory.specs.Buffers.{rows_kept as kept_here};

use crate::buffers::Buffers;
use abl_base::RowId;
use std::alloc::{AllocError, Global};

/// Whether the number is one of these.
pub fn is_in(number: usize, numbers: &[u32]) -> bool
    ensures { result ≡ is_in_here number numbers.now }
{
    for other in numbers {
        if number == *other as usize {
            return true;
        }
    }
    false
}

/// Adds a row in ascending order, unless it is there. Out of memory is the only error.
fn add_row(rows: &mut Vec<RowId>, row: RowId) -> Result<(), AllocError>
    ensures { OnOk result (rows.new.items ≡ with_row row rows.old.items) }
{
    let mut index = 0;
    while index < rows.len() && rows[index].0 < row.0 {
        index += 1;
    }
    if index < rows.len() && rows[index].0 == row.0 {
        return Ok(());
    }
    rows.insert(index, row)?;
    Ok(())
}

/// Adds a row, if there is one.
fn add_row_if(rows: &mut Vec<RowId>, row: Option<RowId>) -> Result<(), AllocError>
    ensures { OnOk result (rows.new.items ≡ with_row_of row rows.old.items) }
{
    match row {
        Some(row) => add_row(rows, row),
        None => Ok(()),
    }
}

/// The row that a buffer holds with a lock, unless it is one of `but`.
fn row_unless(buffers: &Buffers, number: usize, but: &[u32]) -> Option<RowId>
    ensures { result ≡ unless_in (is_in_here number but.now) (locked_row (slice_index_or buffers.now number no_buffer).content) }
{
    if is_in(number, but) {
        return None;
    }
    buffers.get(number)?.content.locked_row()
}

/// The rows that the buffers of one procedure hold with a lock, but those of `but`.
fn rows_of(alloc: Global, buffers: &Buffers, but: &[u32]) -> Result<Vec<RowId>, AllocError>
    ensures { IfOk result (λ rows. rows.items ≡ rows_from 0 but.now buffers.now) }
{
    let mut rows = Vec::new(alloc);
    let mut number = buffers.len();
    while number > 0 {
        number -= 1;
        add_row_if(&mut rows, row_unless(buffers, number, but))?;
    }
    Ok(rows)
}

/// Adds several rows.
fn add_rows(kept: &mut Vec<RowId>, rows: Vec<RowId>) -> Result<(), AllocError>
    ensures { OnOk result (kept.new.items ≡ all_rows_here rows.items kept.old.items) }
{
    let mut rows = rows;
    while let Some(row) = rows.pop() {
        add_row(kept, row)?;
    }
    Ok(())
}

/// The rows that remain locked after the buffers `but` of the running procedure, which is the last,
/// are released. Out of memory is the only error.
pub fn kept_rows(alloc: Global, frames: &[Buffers], but: &[u32]) -> Result<Vec<RowId>, AllocError>
    ensures { IfOk result (λ rows. rows.items ≡ kept_here but.now frames.now) }
{
    let mut kept = Vec::new(alloc);
    let Some((own, outer)) = frames.split_last() else {
        return Ok(kept);
    };
    for buffers in outer {
        add_rows(&mut kept, rows_of(alloc, buffers, &[])?)?;
    }
    add_rows(&mut kept, rows_of(alloc, own, but)?)?;
    Ok(kept)
}
