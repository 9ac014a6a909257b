//! A database made on a disk.

ghost use Rattle.std.specs.Prelude.{◌≡◌, ◌≤◌, length, IsTrue, IsErrOf, OnOk};
ghost use Rattle.storage.specs.faults.Faults.{Rose};
ghost use Rattle.abl_values.specs.Schema.{canonical_text};
ghost use Rattle.bi_log.specs.Lengths.{StayShort};
ghost use Rattle.log_meaning.specs.steps.Steps.{Image, Run};
ghost use Rattle.database_layout.specs.contents.Contents.{new_contents};
ghost use Rattle.database_layout.specs.contents.Born.{IsBorn};
ghost use Rattle.database_layout.specs.creation.Created.{CreatesNew};

use crate::creation::fault::CreateFault;
use crate::fresh::new_slots;
use abl_values::Schema;
use bi_recovery::creation::create;
use std::alloc::Global;
use storage::Disk;

/// Makes a database with this schema on the disk, whatever the disk holds: a caller asks first
/// whether it holds one. At each moment, and where it fails or is stopped, each image recovers to
/// nothing, to what an image at the start recovered to, or to the slots of the new database. After
/// Ok each image is born with this schema, the initial values of its sequences, and no rows. No image
/// has an area of the log longer than 167,772,160 bytes, if none at the start has one.
pub fn create_database<D: Disk>(
    disk: &mut D,
    schema: &Schema,
    alloc: Global,
) -> Result<(), CreateFault>
    requires short { length (canonical_text schema.now) ≤ 1048576 }
    requires few { length schema.now.sequences ≤ 256 }
    ensures same_observable { D.observable disk.new ≡ D.observable disk.old }
    ensures time { Run (D.time disk.old) (D.time disk.new) (D.left disk.old) (D.left disk.new) (CreatesNew schema.now) }
    ensures log { StayShort (D.left disk.new) (D.time disk.old) }
    ensures ok { OnOk result ((image : Image) → D.left disk.new (D.time disk.new) image → IsBorn image (new_contents schema.now)) }
    ensures later { D.failures disk.old ≤ D.failures disk.new }
    ensures cause { IsErrOf result CreateFault.Disk → Rose (D.failures disk.old) (D.failures disk.new) }
    ensures untouched { IsErrOf result CreateFault.NoMemory → disk.new ≡ disk.old }
{
    schema.soundness();
    let slots = new_slots(schema, alloc)?;
    create(disk, &slots)?;
    Ok(())
}
