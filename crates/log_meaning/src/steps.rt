//! Runs of disk calls: `Run` (`specs/Steps.antt`) says that what is known of earlier moments stays
//! known, and that each image of a later moment is an image from before the run after some step.
//! The layers above rely on its lemmas (`proofs/`), on those on the bytes that a write leaves, and
//! on `write_through`. It depends on `storage`.

ghost use Rattle.std.specs.Prelude.{◌≡◌, ◌+◌, ◌<◌, ◌≤◌, ◌^◌, ℕ, List, length, IsTrue, OnOk, is_ok};
ghost use Rattle.storage.specs.Disk.{TornIn, HasCause};
ghost use Rattle.log_meaning.specs.steps.Steps.{Image, Run, Has};

use storage::{Disk, DiskFailed};

/// Writes the bytes there and syncs the area. After Ok each image has them.
pub fn write_through<D: Disk>(
    disk: &mut D,
    area: u8,
    at: u64,
    bytes: &[u8],
) -> Result<(), DiskFailed>
    requires area { area < 3 }
    requires end { at + length bytes.now < 2 ^ 40 }
    ensures same_observable { D.observable disk.new ≡ D.observable disk.old }
    ensures time { Run (D.time disk.old) (D.time disk.new) (D.left disk.old) (D.left disk.new) (TornIn area at (length bytes.now)) }
    ensures ok { OnOk result ((image : Image) → D.left disk.new (D.time disk.new) image → Has (image area) at bytes.now) }
    ensures seen { IsTrue (D.observable disk.old) → TornIn area at (length bytes.now) (D.seen disk.old) (D.seen disk.new) }
    ensures cause { HasCause (D.failures disk.old) (D.failures disk.new) (is_ok result) }
{
    disk.write(area, at, bytes)?;
    disk.sync(area)
}
