//! Writing the rows of a table of the database that a disk has.

ghost use Rattle.std.specs.Prelude.{◌≡◌, ◌<◌, ◌≤◌, length, not, true, false, IfErr, IsTrue, OnOk};
ghost use Rattle.storage.specs.faults.Faults.{Rose};
ghost use Rattle.log_meaning.specs.steps.Steps.{Image};
ghost use Rattle.disk_database.specs.Answers.{HasText, IsDumped, IsNotDumped, is_disk, is_judged, is_output};
ghost use Rattle.run_works.specs.Disks.{IsUntouched, KeepsContents, KeepsLogShort, ReadsAsDatabase, state_of};

use crate::closing::RunDisk;
use crate::watched::{Start, Watched};
use abl_values::Schema;
use disk_database::{DumpRefusal, dump};
use host_io::Out;
use std::alloc::Global;
use std::marker::{Brand, PhantomData};
use storage::Disk;

/// Writes the committed rows of a table of the database of this schema that the disk has to standard
/// output: a line as EXPORT writes it for each row, in the order of the table's primary index, or of
/// the rows' identities without one. The store and the machine of a database each have a schema of
/// their own, which is one schema. After a refusal the lines of the first rows may be written. The
/// disk is handed back in every case, and keeps its contents; where it holds no database, or one of
/// another schema, it is untouched.
pub fn dump_rows<D: Disk + Drop, O: Out>(
    alloc: Global,
    disk: D,
    schema: Schema,
    schema_of_rows: Schema,
    table: u16,
    out: &mut O,
) -> (Result<(), DumpRefusal>, D)
    requires table { table < length schema.tables }
    requires same { schema_of_rows ≡ schema }
    ensures whole { OnOk result.0 (IsDumped schema (D.observable disk) (D.seen disk) table true true (O.state out.old) (O.state out.new)) }
    ensures part { IfErr result.0 (λ e. IsDumped schema (D.observable disk) (D.seen disk) table false (not (is_output e)) (O.state out.old) (O.state out.new)) }
    ensures text { OnOk result.0 (IsTrue (D.observable disk) → HasText (D.seen disk) schema) }
    ensures born { OnOk result.0 (ReadsAsDatabase (state_of D.Disk disk) schema) }
    ensures refused { IfErr result.0 (IsNotDumped schema (D.observable disk) (D.seen disk)) }
    ensures untouched { IfErr result.0 (λ e. is_judged e ≡ true → IsUntouched (state_of D.Disk disk) (state_of D.Disk result.1)) }
    ensures observable { D.observable result.1 ≡ D.observable disk }
    ensures time { D.time disk ≤ D.time result.1 }
    ensures cause { IfErr result.0 (λ e. is_disk e ≡ true → Rose (D.failures disk) (D.failures result.1)) }
    ensures kept { KeepsContents schema (state_of D.Disk disk) (state_of D.Disk result.1) }
    ensures log { KeepsLogShort (state_of D.Disk disk) (state_of D.Disk result.1) }
{
    dump_since::<D, Brand, O>(alloc, disk, schema, schema_of_rows, table, out)
}

/// The same for a call that begins so.
fn dump_since<D: Disk + Drop, K: Start, O: Out>(
    alloc: Global,
    disk: D,
    schema: Schema,
    schema_of_rows: Schema,
    table: u16,
    out: &mut O,
) -> (Result<(), DumpRefusal>, D)
    requires table { table < length schema.tables }
    requires same { schema_of_rows ≡ schema }
    requires moment { K.moment ≡ D.time disk }
    requires images { (image : Image) → D.left disk K.moment image → K.images image }
    requires began { (image : Image) → K.images image → D.left disk (D.time disk) image }
    ensures whole { OnOk result.0 (IsDumped schema (D.observable disk) (D.seen disk) table true true (O.state out.old) (O.state out.new)) }
    ensures part { IfErr result.0 (λ e. IsDumped schema (D.observable disk) (D.seen disk) table false (not (is_output e)) (O.state out.old) (O.state out.new)) }
    ensures text { OnOk result.0 (IsTrue (D.observable disk) → HasText (D.seen disk) schema) }
    ensures born { OnOk result.0 (ReadsAsDatabase (state_of D.Disk disk) schema) }
    ensures refused { IfErr result.0 (IsNotDumped schema (D.observable disk) (D.seen disk)) }
    ensures untouched { IfErr result.0 (λ e. is_judged e ≡ true → IsUntouched (state_of D.Disk disk) (state_of D.Disk result.1)) }
    ensures observable { D.observable result.1 ≡ D.observable disk }
    ensures time { D.time disk ≤ D.time result.1 }
    ensures cause { IfErr result.0 (λ e. is_disk e ≡ true → Rose (D.failures disk) (D.failures result.1)) }
    ensures kept { KeepsContents schema (state_of D.Disk disk) (state_of D.Disk result.1) }
    ensures log { KeepsLogShort (state_of D.Disk disk) (state_of D.Disk result.1) }
{
    let watched: RunDisk<D, K> = Watched {
        disk,
        of: PhantomData,
    };
    let (written, watched) = dump(alloc, watched, schema, schema_of_rows, table, out);
    let Watched { disk, of: _ } = watched;
    (written, disk)
}
