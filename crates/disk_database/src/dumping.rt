//! The rows of a table, written as lines.

ghost use Rattle.std.specs.Prelude.{◌≡◌, ◌⊎◌, ◌<◌, ◌≤◌, ℕ, MatchOption, length, not, true, false, IfErr, IfOk, IsTrue, OnOk, ⊤};
ghost use Rattle.storage.specs.faults.Faults.{Rose};
ghost use Rattle.storage.specs.Disk.{Stays};
ghost use Rattle.abl_values.specs.Schema.{primary_of};
ghost use Rattle.database_meaning.specs.Setting.{HasIndex};
ghost use Rattle.bi_log.specs.Lengths.{StayShort};
ghost use Rattle.slot_txn.specs.logged.Stops.{StayRecoverable};
ghost use Rattle.disk_database.specs.Answers.{HasText, IsBornOf, IsDumped, IsNotDumped, is_disk, is_judged, is_output, of_table};
ghost use Rattle.log_meaning.specs.steps.Steps.{Image};
ghost use Rattle.database_meaning.specs.declared.contents.Contents.{Contents};
ghost use Rattle.disk_database.specs.Images.{AllAreOf, AreImagesOf, HoldsAsBefore, IsImageOf};

use crate::guard::Opening;
use crate::opening::{disk_of, open_rows, rose};
use crate::refusals::{DumpRefusal, OpenRefusal};
use crate::table::{TableError, write_table};
use abl_values::Schema;
use host_io::Out;
use std::alloc::Global;
use std::marker::Brand;
use storage::Disk;

/// The primary index of the table, by which its rows are in order.
fn order_of(schema: &Schema, table: u16) -> Option<u16>
    requires { table < length schema.now.tables }
    ensures is { result ≡ primary_of schema.now table }
    ensures there { MatchOption result ⊤ (λ i. HasIndex schema.now table i) }
{
    schema.soundness();
    schema.primary(table)
}

/// What the answer of the table means, where the disk had `before` faults at first and has `now`.
fn of_table(before: u64, now: u64, error: TableError) -> DumpRefusal
    ensures is { (result ≡ of_table error) ⊎ ((is_output (of_table error) ≡ false) × (result ≡ DumpRefusal.Database OpenRefusal.NoMemory)) }
    ensures late { is_judged result ≡ false }
    ensures cause { is_disk result ≡ true → Rose before now }
{
    match error {
        TableError::Disk => {
            if rose(before, now) {
                DumpRefusal::Database(OpenRefusal::Disk)
            } else {
                DumpRefusal::Database(OpenRefusal::NoMemory)
            }
        }
        TableError::NoMemory => DumpRefusal::Database(OpenRefusal::NoMemory),
        TableError::Output => DumpRefusal::Output,
    }
}

/// Writes the committed rows of a table of the database that the disk holds to standard output: a line
/// as EXPORT writes it for each row, in the order of the table's primary index, or of the rows'
/// identities without one. Each line is written as its row is read, so after a refusal the lines of the
/// first rows may be written. Where the disk holds no database, or one of another schema, it is as it
/// was. The disk is handed back in every case: each image from the call on recovers only to
/// what an image at the call recovered to. Out of memory comes too where the table has more than
/// 1,040,384 rows, which no disk holds.
pub fn dump<D: Disk + Drop, O: Out>(
    alloc: Global,
    disk: D,
    schema: Schema,
    schema_of_rows: Schema,
    table: u16,
    out: &mut O,
) -> (Result<(), DumpRefusal>, D)
    requires table { table < length schema.tables }
    requires same { schema_of_rows ≡ schema }
    ensures whole { OnOk result.0 (IsDumped schema (D.observable disk) (D.seen disk) table true true (O.Out.state out.old) (O.Out.state out.new)) }
    ensures part { IfErr result.0 (λ e. IsDumped schema (D.observable disk) (D.seen disk) table false (not (is_output e)) (O.Out.state out.old) (O.Out.state out.new)) }
    ensures text { OnOk result.0 (IsTrue (D.observable disk) → HasText (D.seen disk) schema) }
    ensures born { OnOk result.0 (IsTrue (D.observable disk) → IsBornOf (D.seen disk) schema) }
    ensures refused { IfErr result.0 (IsNotDumped schema (D.observable disk) (D.seen disk)) }
    ensures untouched { IfErr result.0 (λ e. is_judged e ≡ true → Stays (D.observable disk) (D.observable result.1) (D.seen disk) (D.seen result.1) (D.time disk) (D.time result.1) (D.left disk) (D.left result.1)) }
    ensures observable { D.observable result.1 ≡ D.observable disk }
    ensures time { D.time disk ≤ D.time result.1 }
    ensures images { HoldsAsBefore schema (D.time disk) (D.left disk) (D.left result.1) }
    ensures kept { (contents : Contents) → AreImagesOf (D.observable disk) (D.time disk) (D.left disk) schema contents → AllAreOf schema contents (D.left result.1 (D.time disk))
        → (m : ℕ) (image : Image) → D.time disk ≤ m → D.left result.1 m image → ∥ IsImageOf schema contents image ∥₁ }
    ensures recoverable { StayRecoverable (D.left result.1) (D.time disk) }
    ensures short { StayShort (D.left result.1) (D.time disk) }
    ensures cause { IfErr result.0 (λ e. is_disk e ≡ true → Rose (D.failures disk) (D.failures result.1)) }
{
    dump_since::<D, Brand, O>(alloc, disk, schema, schema_of_rows, table, out)
}

/// The same for an opening of this schema, over these images.
fn dump_since<D: Disk + Drop, K: Opening, O: Out>(
    alloc: Global,
    disk: D,
    schema: Schema,
    schema_of_rows: Schema,
    table: u16,
    out: &mut O,
) -> (Result<(), DumpRefusal>, D)
    requires table { table < length schema.tables }
    requires same { schema_of_rows ≡ schema }
    requires of { K.schema ≡ schema }
    requires images { (image : Image) → D.left disk (D.time disk) image → K.images image }
    requires began { (image : Image) → K.images image → D.left disk (D.time disk) image }
    ensures whole { OnOk result.0 (IsDumped schema (D.observable disk) (D.seen disk) table true true (O.Out.state out.old) (O.Out.state out.new)) }
    ensures part { IfErr result.0 (λ e. IsDumped schema (D.observable disk) (D.seen disk) table false (not (is_output e)) (O.Out.state out.old) (O.Out.state out.new)) }
    ensures text { OnOk result.0 (IsTrue (D.observable disk) → HasText (D.seen disk) schema) }
    ensures born { OnOk result.0 (IsTrue (D.observable disk) → IsBornOf (D.seen disk) schema) }
    ensures refused { IfErr result.0 (IsNotDumped schema (D.observable disk) (D.seen disk)) }
    ensures untouched { IfErr result.0 (λ e. is_judged e ≡ true → Stays (D.observable disk) (D.observable result.1) (D.seen disk) (D.seen result.1) (D.time disk) (D.time result.1) (D.left disk) (D.left result.1)) }
    ensures observable { D.observable result.1 ≡ D.observable disk }
    ensures time { D.time disk ≤ D.time result.1 }
    ensures images { HoldsAsBefore schema (D.time disk) (D.left disk) (D.left result.1) }
    ensures kept { (contents : Contents) → AreImagesOf (D.observable disk) (D.time disk) (D.left disk) schema contents → AllAreOf schema contents (D.left result.1 (D.time disk))
        → (m : ℕ) (image : Image) → D.time disk ≤ m → D.left result.1 m image → ∥ IsImageOf schema contents image ∥₁ }
    ensures recoverable { StayRecoverable (D.left result.1) (D.time disk) }
    ensures short { StayShort (D.left result.1) (D.time disk) }
    ensures cause { IfErr result.0 (λ e. is_disk e ≡ true → Rose (D.failures disk) (D.failures result.1)) }
{
    schema.soundness();
    let before = disk.faults();
    let mut rows = match open_rows::<D, K>(alloc, disk, schema_of_rows) {
        Ok(rows) => rows,
        Err((refusal, disk)) => return (Err(DumpRefusal::Database(refusal)), disk),
    };
    let written = write_table(alloc, &mut rows, table, order_of(&schema, table), out);
    let disk = disk_of(rows);
    match written {
        Ok(()) => (Ok(()), disk),
        Err(error) => {
            let now = disk.faults();
            (Err(of_table(before, now, error)), disk)
        }
    }
}
