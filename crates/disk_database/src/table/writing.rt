//! Writing the rows of a table.

ghost use Rattle.std.specs.Prelude.{◌≡◌, ℕ, [], None, IfErr, IfOk, MatchOption, OnOk, not, true, false, if◌then◌else◌, ⊤};
ghost use Rattle.value_masks.specs.Export.{export};
ghost use Rattle.host_io.specs.Out.{Writes};
ghost use Rattle.std.specs.Option.{option_copied};
ghost use Rattle.database_meaning.specs.Setting.{HasIndex, HasTable};
ghost use Rattle.disk_database.specs.table.Calls.{HasRead, HasWritten, HasNext, is_disk, is_output};

use abl_base::Row;
use database_protocol::Cursor;
use host_io::{Out, Stream};
use row_store::{FoundRow, RowFault, RowStore};
use std::alloc::Global;
use value_masks::export_line;

/// The most rows that a disk holds: the identities from 8,192 to 1,048,575.
const MAX_ROWS: u32 = 1_040_384;

/// Why a table was not written whole.
#[derive(Clone, Copy, Debug, PartialEq, Eq)]
pub enum TableError {
    /// The disk failed.
    Disk,
    /// Out of memory.
    NoMemory,
    /// The output did not take a whole line.
    Output,
}

/// The next row of the table after the cursor. A state that is not as before comes only with Disk.
fn find_next<R: RowStore>(
    rows: &mut R,
    table: u16,
    index: Option<u16>,
    prefix: &Row,
    cursor: Option<&Cursor>,
) -> Result<Option<FoundRow>, TableError>
    requires table { HasTable (R.RowStore.state rows.old).schema table }
    requires order { MatchOption index ⊤ (λ i. HasIndex (R.RowStore.state rows.old).schema table i) }
    requires all { prefix.now ≡ [] }
    ensures found { IfOk result (λ found. HasNext (R.RowStore.state rows.old) table index (option_copied cursor.entry) found) }
    ensures read { HasRead (R.RowStore.state rows.old) (R.RowStore.state rows.new) (R.RowStore.left rows.old) (R.RowStore.left rows.new) (R.RowStore.times rows.old) (R.RowStore.times rows.new) (R.RowStore.faults rows.old) (R.RowStore.faults rows.new) (is_disk result) }
    ensures no_output { IfErr result (λ e. is_output e ≡ false) }
{
    match rows.next(table, index, prefix, cursor, true) {
        Ok(found) => Ok(found),
        Err(RowFault::Disk) => Err(TableError::Disk),
        Err(RowFault::NoMemory) => Err(TableError::NoMemory),
    }
}

/// Writes the line of a row.
fn write_line<O: Out>(alloc: Global, values: &Row, out: &mut O) -> Result<(), TableError>
    ensures ok { OnOk result (Writes true Stream.Output (export values.now) (O.Out.state out.old) (O.Out.state out.new)) }
    ensures err { IfErr result (λ e. Writes (not (is_output e)) Stream.Output (if is_output e then export values.now else []) (O.Out.state out.old) (O.Out.state out.new)) }
    ensures no_disk { is_disk result ≡ false }
{
    let Ok(line) = export_line(alloc, values) else {
        return Err(TableError::NoMemory);
    };
    match out.write(Stream::Output, line.as_slice()) {
        Ok(()) => Ok(()),
        Err(_) => Err(TableError::Output),
    }
}

/// Writes the rows of a table to standard output, in the order of the index, or of their identities
/// without one: a line as EXPORT writes it for each. Each line is written as its row is read. Out of
/// memory comes too where the table has more than 1,040,384 rows, which no disk holds.
pub fn write_table<R: RowStore, O: Out>(
    alloc: Global,
    rows: &mut R,
    table: u16,
    index: Option<u16>,
    out: &mut O,
) -> Result<(), TableError>
    requires table { HasTable (R.RowStore.state rows.old).schema table }
    requires order { MatchOption index ⊤ (λ i. HasIndex (R.RowStore.state rows.old).schema table i) }
    ensures written { OnOk result (HasWritten true true (R.RowStore.state rows.old) table index None (O.Out.state out.old) (O.Out.state out.new)) }
    ensures part { IfErr result (λ e. HasWritten false (not (is_output e)) (R.RowStore.state rows.old) table index None (O.Out.state out.old) (O.Out.state out.new)) }
    ensures read { HasRead (R.RowStore.state rows.old) (R.RowStore.state rows.new) (R.RowStore.left rows.old) (R.RowStore.left rows.new) (R.RowStore.times rows.old) (R.RowStore.times rows.new) (R.RowStore.faults rows.old) (R.RowStore.faults rows.new) (is_disk result) }
{
    let prefix = Row::empty(alloc);
    let mut cursor: Option<Cursor> = None;
    for _ in 0..=MAX_ROWS {
        let found = match find_next(rows, table, index, &prefix, cursor.as_ref()) {
            Ok(Some(found)) => found,
            Ok(None) => return Ok(()),
            Err(error) => return Err(error),
        };
        if let Err(error) = write_line(alloc, &found.values, out) {
            return Err(error);
        }
        cursor = Some(Cursor {
            key: found.key,
            row: found.row,
        });
    }
    Err(TableError::NoMemory)
}
