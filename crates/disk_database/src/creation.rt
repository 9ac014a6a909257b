//! A new database.

ghost use Rattle.std.specs.Prelude.{◌≡◌, ◌⊎◌, ◌≤◌, length, false, IfOk, IsErrOf, IsTrue, OnOk};
ghost use Rattle.storage.specs.faults.Faults.{Rose};
ghost use Rattle.abl_values.specs.Schema.{SchemaData, canonical_text};
ghost use Rattle.storage.specs.Disk.{Stays};
ghost use Rattle.bi_log.specs.Lengths.{StayShort};
ghost use Rattle.log_meaning.specs.steps.Steps.{Image, Run};
ghost use Rattle.database_layout.specs.contents.Contents.{new_contents};
ghost use Rattle.database_layout.specs.contents.Born.{IsBorn};
ghost use Rattle.database_layout.specs.creation.Created.{CreatesNew};
ghost use Rattle.disk_database.specs.Answers.{IsDatabaseOf, IsNoDatabase};

use crate::recognition::hold_database;
use crate::refusals::CreateRefusal;
use crate::text::fits;
use abl_values::Schema;
use database_layout::creation::{CreateFault, create_database};
use recovered_view::{OpenFault, RecoveredView};
use std::alloc::Global;
use storage::Disk;

/// Whether the disk holds a database, of whatever schema.
fn holds_database<D: Disk>(alloc: Global, disk: &mut D) -> Result<bool, CreateFault>
    ensures yes { IfOk result (λ held. IsTrue held → IsTrue (D.observable disk.old) → (schema : SchemaData) × IsDatabaseOf (D.seen disk.old) schema) }
    ensures no { IfOk result (λ held. held ≡ false → IsTrue (D.observable disk.old) → IsNoDatabase (D.seen disk.old)) }
    ensures rest { Stays (D.observable disk.old) (D.observable disk.new) (D.seen disk.old) (D.seen disk.new) (D.time disk.old) (D.time disk.new) (D.left disk.old) (D.left disk.new) }
    ensures later { D.failures disk.old ≤ D.failures disk.new }
    ensures cause { IsErrOf result CreateFault.Disk → Rose (D.failures disk.old) (D.failures disk.new) }
{
    let view = match RecoveredView::open(alloc, disk) {
        Ok((view, _)) => view,
        Err(OpenFault::NotCreated) => return Ok(false),
        Err(OpenFault::Disk) => return Err(CreateFault::Disk),
        Err(OpenFault::NoMemory) => return Err(CreateFault::NoMemory),
    };
    // The slots are in memory, so the disk cannot fail any more.
    match hold_database(alloc, view) {
        Ok(held) => Ok(held),
        Err(_) => Err(CreateFault::NoMemory),
    }
}

/// Makes an empty database of this schema on the disk, where the disk holds no database, of whatever
/// schema; what else it holds is lost. A database is left as it is, also where the disk fails. At each
/// moment, and where it fails or is stopped, each image recovers to nothing, to what an image at the
/// start recovered to, or to the new database. After Ok each image is that of the new database. No
/// image has an area of the log longer than 167,772,160 bytes, if none at the start has one.
pub fn create<D: Disk>(alloc: Global, disk: &mut D, schema: &Schema) -> Result<(), CreateRefusal>
    ensures same_observable { D.observable disk.new ≡ D.observable disk.old }
    ensures time { Run (D.time disk.old) (D.time disk.new) (D.left disk.old) (D.left disk.new) (CreatesNew schema.now) }
    ensures log { StayShort (D.left disk.new) (D.time disk.old) }
    ensures ok { OnOk result ((image : Image) → D.left disk.new (D.time disk.new) image → IsBorn image (new_contents schema.now)) }
    ensures short { OnOk result (length (canonical_text schema.now) ≤ 1048576) }
    ensures new { OnOk result (IsTrue (D.observable disk.old) → IsNoDatabase (D.seen disk.old)) }
    ensures already { IsErrOf result CreateRefusal.AlreadyCreated → IsTrue (D.observable disk.old) → (other : SchemaData) × IsDatabaseOf (D.seen disk.old) other }
    ensures refused { IsErrOf result CreateRefusal.AlreadyCreated → Stays (D.observable disk.old) (D.observable disk.new) (D.seen disk.old) (D.seen disk.new) (D.time disk.old) (D.time disk.new) (D.left disk.old) (D.left disk.new) }
    ensures untouched { IsErrOf result CreateRefusal.NoMemory → Stays (D.observable disk.old) (D.observable disk.new) (D.seen disk.old) (D.seen disk.new) (D.time disk.old) (D.time disk.new) (D.left disk.old) (D.left disk.new) }
    ensures harmless { IsErrOf result CreateRefusal.Disk → IsTrue (D.observable disk.old) → Stays (D.observable disk.old) (D.observable disk.new) (D.seen disk.old) (D.seen disk.new) (D.time disk.old) (D.time disk.new) (D.left disk.old) (D.left disk.new) ⊎ IsNoDatabase (D.seen disk.old) }
    ensures later { D.failures disk.old ≤ D.failures disk.new }
    ensures cause { IsErrOf result CreateRefusal.Disk → Rose (D.failures disk.old) (D.failures disk.new) }
{
    match holds_database(alloc, disk) {
        Ok(true) => return Err(CreateRefusal::AlreadyCreated),
        Ok(false) => {}
        Err(CreateFault::Disk) => return Err(CreateRefusal::Disk),
        Err(CreateFault::NoMemory) => return Err(CreateRefusal::NoMemory),
    }
    if fits(schema) != Some(true) {
        return Err(CreateRefusal::NoMemory);
    }
    match create_database(disk, schema, alloc) {
        Ok(()) => Ok(()),
        Err(CreateFault::Disk) => Err(CreateRefusal::Disk),
        Err(CreateFault::NoMemory) => Err(CreateRefusal::NoMemory),
    }
}
